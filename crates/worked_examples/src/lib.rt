// The worked examples, proved about the definitions.

#![tactic(auto)]
