// What several calls give together, proved about their contracts.

#![tactic(auto)]
