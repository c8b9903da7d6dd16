// How many bytes a catalogue asks for: of a store, of a work space, of a list, and the most that write gives (document 01, Store; Questions 1 to 9, 12 and 20).
#![tactic(auto)]

ghost use Rattle.std.specs.Prelude.{◌≡◌, ◌≤◌};
ghost use Rattle.catalogue.specs.WellFormed.{WellFormed};
ghost use Rattle.buffer_sizes.specs.Sizes.{most_axioms, most_written, Measures};

use catalogue::header::axioms_at;
use catalogue::{Axiom, Refusal, concepts};
use layout::{used, work_used};

// Bytes of a store, of a work space and of a list, and the most that write gives.
#[derive(Clone, Copy)]
pub struct Sizes {
    pub store: usize,
    pub work: usize,
    pub list: usize,
    pub output: usize,
}

// The most axioms that n concepts can have in force.
#[tactic(auto, unfolding(crate::specs::Sizes::most_axioms))]
fn most_axioms(n: usize) -> usize
    requires { n ≤ 512 }
    ensures { result ≡ most_axioms n }
{
    let pairs = n * n;
    if pairs < Axiom::MAX {
        pairs
    } else {
        Axiom::MAX
    }
}

// The most bytes that write gives.
#[tactic(auto, unfolding(crate::specs::Sizes::most_axioms, crate::specs::Sizes::most_written))]
fn most_written(b: &[u8]) -> usize
    requires { WellFormed b.now }
    ensures { result ≡ most_written b.now }
{
    let count = most_axioms(concepts(b));
    axioms_at(b) + Axiom::SIZE * count
}

// Questions 1 to 9 of a slice of any content and length, and then the bytes that are needed.
#[tactic(auto, using(catalogue::proofs::HandedOn::handed_on, crate::proofs::Answered::sizes_accepted, crate::proofs::Answered::sizes_refused))]
pub fn measure(b: &[u8]) -> Result<Sizes, Refusal>
    ensures { Measures b.now result }
{
    catalogue::check(b)?;
    Ok(Sizes {
        store: used(b),
        work: work_used(b),
        list: 2 * concepts(b),
        output: most_written(b),
    })
}
