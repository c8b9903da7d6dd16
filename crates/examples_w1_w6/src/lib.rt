// Worked examples W1 to W6, proved about the definitions.

#![tactic(auto)]
