// A list of calls carried out on one catalogue and one store (document 01, Edits in a row).
#![tactic(auto)]

pub mod requests; // requests.rt: the bytes of a list of calls
pub mod answers; // answers.rt: one call, and its answer
pub mod calls; // calls.rt: the calls in a row

pub use calls::carry_out;

// Why no call is carried out: the first call that is cut, of no kind that it may be, or with a list longer than its room; or no room for the calls' lists, or for their answers.
#[derive(Clone, Copy)]
pub enum Fault {
    BadCall(usize),
    ShortLists,
    ShortAnswers,
}
