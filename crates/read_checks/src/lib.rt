// The questions of the calls that read a store, in their order.
#![tactic(auto)]

ghost use Rattle.std.specs.Prelude.{◌<◌, ◌≡◌, ◌&&◌, [], ◌∷◌, eqb, length};
ghost use Rattle.catalogue.specs.Header.{concepts};
ghost use Rattle.catalogue.specs.Records.{kind};
ghost use Rattle.catalogue.specs.WellFormed.{WellFormed};
ghost use Rattle.catalogue.specs.Outcome.{accepted};
ghost use Rattle.catalogue.specs.Verdicts.{outcome_of};
ghost use Rattle.rules.specs.Occurrence.{occurs};
ghost use Rattle.layout.specs.Parts.{Sized, Clear, width, in_force};
ghost use Rattle.store.specs.Checks.{every};
ghost use Rattle.read_checks.specs.Checks.{open_checks, content_checks, read_checks, list_checks};

use catalogue::{Concept, Refusal};
use layout::Shape;

// Do both concepts occur by the axioms in force? The marks are computed in a row, whatever it held.
#[tactic(auto, using(store::proofs::Checks::every_two))]
fn both_marked(b: &[u8], store: &[u8], row: &mut [u8], c: usize, d: usize) -> bool
    requires { Clear b.now store.now × (length row.old ≡ width b.now) }
    ensures { result ≡ every (occurs b.now (in_force b.now store.now)) (c ∷ d ∷ []) }
{
    store::mark_occurring(b, store, row);
    rows::has(row, c) & rows::has(row, d)
}

// Are both records atomic?
fn both_atomic(b: &[u8], c: usize, d: usize) -> bool
    requires { WellFormed b.now × (c < concepts b.now) × (d < concepts b.now) }
    ensures { result ≡ (eqb (kind b.now c) 0 && eqb (kind b.now d) 0) }
{
    let first = Concept::at(b, c);
    let second = Concept::at(b, d);
    (first.kind == Concept::ATOMIC) & (second.kind == Concept::ATOMIC)
}

// 19: do both concepts occur by the axioms in force? Atomic ones do, whatever is in force: where both are atomic nothing is marked.
fn both_occur(b: &[u8], c: usize, d: usize, store: &[u8]) -> bool
    requires { Clear b.now store.now × (c < concepts b.now) × (d < concepts b.now) }
    ensures { result ≡ every (occurs b.now (in_force b.now store.now)) (c ∷ d ∷ []) }
{
    if both_atomic(b, c, d) {
        return true;
    }
    let s = Shape::of(b);
    let w = s.width;
    let mut marks = [0u8; Concept::MAX / 8];
    both_marked(b, store, &mut marks[..w], c, d)
}

// Questions 1 to 10.
#[tactic(auto, using(catalogue::proofs::HandedOn::handed_on, catalogue::proofs::Passed::after_accepted, catalogue::proofs::Passed::after_refused), unfolding(crate::proofs::Acceptance::questions))]
fn check_opening(b: &[u8], store: &[u8]) -> Result<(), Refusal>
    ensures { outcome_of result ≡ open_checks b.now (length store.now) accepted }
{
    catalogue::check(b)?;
    if !store::store_fits(b, store.len()) {
        return Err(Refusal { number: 10, at: 0 });
    }
    Ok(())
}

// Questions 13 to 15 and 19, to two concepts named.
#[tactic(auto, using(store::proofs::Checks::numbers_below_lem), unfolding(crate::proofs::Acceptance::questions))]
fn check_content(b: &[u8], c: usize, d: usize, store: &[u8]) -> Result<(), Refusal>
    requires { Sized b.now store.now }
    ensures { outcome_of result ≡ content_checks b.now (c ∷ d ∷ []) store.now }
{
    if !store::spare_clear(b, store) {
        return Err(Refusal { number: 13, at: 0 });
    }
    if !store::axioms_in_limit(b, store) {
        return Err(Refusal { number: 14, at: 0 });
    }
    let n = catalogue::concepts(b);
    if !((c < n) & (d < n)) {
        return Err(Refusal { number: 15, at: 0 });
    }
    if !both_occur(b, c, d, store) {
        return Err(Refusal { number: 19, at: 0 });
    }
    Ok(())
}

// The questions of lookup, and of row where one concept is named twice.
#[tactic(auto, using(catalogue::proofs::HandedOn::handed_on, crate::proofs::Acceptance::open_accepted, crate::proofs::Acceptance::open_refused), unfolding(crate::specs::Checks::read_checks))]
pub fn check_reading(b: &[u8], c: usize, d: usize, store: &[u8]) -> Result<(), Refusal>
    ensures { outcome_of result ≡ read_checks b.now (c ∷ d ∷ []) store.now }
{
    check_opening(b, store)?;
    check_content(b, c, d, store)
}

// The questions of listing, with a list of so many bytes.
#[tactic(auto, using(catalogue::proofs::HandedOn::handed_on, crate::proofs::Acceptance::open_accepted, crate::proofs::Acceptance::open_refused, crate::proofs::Acceptance::content_twice), unfolding(crate::specs::Checks::list_checks, store::specs::Checks::ask_list, catalogue::specs::Outcome::ask))]
pub fn check_listing(b: &[u8], d: usize, store: &[u8], long: usize) -> Result<(), Refusal>
    ensures { outcome_of result ≡ list_checks b.now (d ∷ []) store.now long }
{
    check_opening(b, store)?;
    if !store::list_fits(b, long) {
        return Err(Refusal { number: 12, at: 0 });
    }
    check_content(b, d, d, store)
}
