// Worked examples W8 to W10 and the limits, proved about the definitions.

#![tactic(auto)]
