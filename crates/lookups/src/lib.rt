// Lookup, and listing under a concept (document 01, What it covers).
#![tactic(auto)]

pub mod pairs; // pairs.rt: lookup of a pair
pub mod kinds; // kinds.rt: listing of the atomic concepts under one

pub use kinds::listing;
pub use pairs::lookup;
