// Moves of W1, proved about the definitions.

#![tactic(auto)]
