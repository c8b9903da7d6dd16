// The catalogue's bytes (document 01, Catalogue bytes): its header, its records, and questions 1 to 9.
#![tactic(auto)]

pub mod header; // header.rt: numbers of two bytes, and the ten that the header has
pub mod records; // records.rt: concepts, inclusions, compositions and axioms, with their constants
pub mod checks; // checks.rt: questions 1 to 9

pub use checks::{Refusal, check};
pub use header::{axioms, compositions, concepts, inclusions, roles, word};
pub use records::{Axiom, Composition, Concept, Inclusion};
