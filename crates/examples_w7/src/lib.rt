// Worked example W7, proved about the definitions.

#![tactic(auto)]
