// The questions of a change with two lists, in their order (document 02, request Four).
#![tactic(auto)]

pub mod lists; // lists.rt: axioms in lists of bytes
pub mod faults; // faults.rt: what is asked of every axiom of the lists
pub mod asking; // asking.rt: all questions

pub use asking::check_all;
