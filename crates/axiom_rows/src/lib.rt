// The rows of axioms of a store: one bit for each axiom in force, in the row of its left side.
#![tactic(auto)]

pub mod marking; // marking.rt: the axioms of a list put into rows, or taken out
pub mod putting; // putting.rt: the catalogue's axioms put into rows
pub mod replacing; // replacing.rt: the axiom rows before and after a change

pub use putting::put_axioms;
pub use replacing::replace;
