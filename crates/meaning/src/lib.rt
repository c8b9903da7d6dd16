// What the answers of the calls that read a store mean, proved about their contracts.

#![tactic(auto)]
