// Document 001's examples, proved about the definitions.

#![tactic(auto)]
