#![tactic(auto)]

// Laws of Booleans. No code.
