// The call classify: the axioms of a catalogue in force, and all that the rules give from them.
#![tactic(auto)]

pub mod closing; // closing.rt: all that the rules give from a table of axioms
pub mod calls; // calls.rt: classify, by questions 1 to 11

pub use calls::classify;

// The counts of pairs and of links.
#[derive(Clone, Copy)]
pub struct Classified {
    pub pairs: usize,
    pub links: usize,
}
