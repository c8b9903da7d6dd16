// The call change on the buffers that are lent: the axioms' bits in the store's own rows, the sets by the change core, the work space and the list.
#![tactic(auto)]

pub mod amending; // amending.rt: the used parts of store and work space, and the list, after a change
pub mod calls; // calls.rt: the call, by its questions

pub use calls::change;
