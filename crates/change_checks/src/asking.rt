// All questions of a change.
ghost use Rattle.std.specs.Prelude.{◌≤◌, ◌≡◌, true, ◌++◌, length};
ghost use Rattle.catalogue.specs.Outcome.{accepted};
ghost use Rattle.catalogue.specs.WellFormed.{WellFormed};
ghost use Rattle.catalogue.specs.Verdicts.{outcome_of};
ghost use Rattle.layout.specs.Layout.{Shaped};
ghost use Rattle.layout.specs.Parts.{Sized, in_force, spare_clear};
ghost use Rattle.store.specs.Checks.{axioms_in_limit, numbers_below};
ghost use Rattle.store.specs.Written.{axiom_count};
ghost use Rattle.change_contract.specs.Lists.{sides_in};
ghost use Rattle.change_contract.specs.Questions.{lent, is_whole, none_twice, length_checks, axiom_checks, content_checks, change_checks};
ghost use Rattle.change_checks.specs.Reading.{Whole};

use super::faults::{any_absent, any_beyond, any_present, any_repeated};
use catalogue::{Axiom, Refusal, check};
use layout::Shape;
use store::{axiom_count, list_fits, spare_clear, store_fits, work_fits};

// The most bytes of a list: 64 axioms.
const MOST: usize = 64 * Axiom::SIZE;

// Is a list of this length of whole axioms, and of 64 at most?
#[tactic(auto, unfolding(change_contract::specs::Questions::is_whole))]
fn is_whole(long: usize) -> bool
    ensures { result ≡ is_whole long }
{
    (long <= MOST) & (long % Axiom::SIZE == 0)
}

// 10 to 12 and 22, of a store, a work space, a list and two lists of axioms of these lengths.
#[tactic(auto, unfolding(change_contract::specs::Questions::length_checks, change_contract::specs::Questions::ask_whole, store::specs::Checks::ask_store, store::specs::Checks::ask_work, store::specs::Checks::ask_list, catalogue::specs::Outcome::ask))]
fn check_lengths(
    b: &[u8],
    store: usize,
    work: usize,
    list: usize,
    withdrawn: usize,
    added: usize,
) -> Result<(), Refusal>
    requires { WellFormed b.now }
    ensures { outcome_of result ≡ length_checks b.now withdrawn added (lent store work list) accepted }
{
    if !store_fits(b, store) {
        return Err(Refusal { number: 10, at: 0 });
    }
    if !work_fits(b, work) {
        return Err(Refusal { number: 11, at: 0 });
    }
    if !list_fits(b, list) {
        return Err(Refusal { number: 12, at: 0 });
    }
    if !(is_whole(withdrawn) & is_whole(added)) {
        return Err(Refusal { number: 22, at: 0 });
    }
    Ok(())
}

// 18, 16 and 17, where so many axioms are in force.
fn check_axioms(
    b: &[u8],
    s: Shape,
    withdrawn: &[u8],
    added: &[u8],
    store: &[u8],
    count: usize,
) -> Result<(), Refusal>
    requires { Shaped b.now s × Whole withdrawn.now × Whole added.now × (count ≤ 4096) × (count ≡ axiom_count b.now (in_force b.now store.now)) × (none_twice (withdrawn.now ++ added.now) ≡ true) × (numbers_below b.now (sides_in (withdrawn.now ++ added.now)) ≡ true) }
    ensures { outcome_of result ≡ axiom_checks b.now withdrawn.now added.now (in_force b.now store.now) }
{
    let absent = any_absent(b, s, withdrawn, &added[..0], store);
    let present = any_present(b, s, added, &withdrawn[..0], store);
    if absent {
        return Err(Refusal { number: 18, at: 0 });
    }
    if present {
        return Err(Refusal { number: 16, at: 0 });
    }
    let fewer = withdrawn.len() / Axiom::SIZE;
    let more = added.len() / Axiom::SIZE;
    if !(count + more <= Axiom::MAX + fewer) {
        return Err(Refusal { number: 17, at: 0 });
    }
    Ok(())
}

// 23, 13 to 15, and then the rest.
fn check_content(b: &[u8], withdrawn: &[u8], added: &[u8], store: &[u8]) -> Result<(), Refusal>
    requires { Sized b.now store.now × Whole withdrawn.now × Whole added.now }
    ensures { outcome_of result ≡ content_checks b.now withdrawn.now added.now (spare_clear b.now store.now) (axioms_in_limit b.now (in_force b.now store.now)) (in_force b.now store.now) }
{
    let s = Shape::of(b);
    let twice = any_repeated(withdrawn, added);
    let beyond = any_beyond(s.concepts, withdrawn, added);
    if twice {
        return Err(Refusal { number: 23, at: 0 });
    }
    if !spare_clear(b, store) {
        return Err(Refusal { number: 13, at: 0 });
    }
    let count = axiom_count(b, store);
    if !(count <= Axiom::MAX) {
        return Err(Refusal { number: 14, at: 0 });
    }
    if beyond {
        return Err(Refusal { number: 15, at: 0 });
    }
    check_axioms(b, s, withdrawn, added, store, count)
}

// 10 and on, of a catalogue that 1 to 9 accept.
#[tactic(auto, using(catalogue::proofs::HandedOn::handed_on, crate::proofs::Asked::lengths_refused, crate::proofs::Asked::lengths_accepted))]
fn check_checked(
    b: &[u8],
    withdrawn: &[u8],
    added: &[u8],
    store: &[u8],
    work: usize,
    list: usize,
) -> Result<(), Refusal>
    requires { WellFormed b.now }
    ensures { outcome_of result ≡ length_checks b.now (length withdrawn.now) (length added.now) (lent (length store.now) work list) (content_checks b.now withdrawn.now added.now (spare_clear b.now store.now) (axioms_in_limit b.now (in_force b.now store.now)) (in_force b.now store.now)) }
{
    check_lengths(b, store.len(), work, list, withdrawn.len(), added.len())?;
    check_content(b, withdrawn, added, store)
}

// All of them, with a work space and a list of these lengths.
#[tactic(auto, using(catalogue::proofs::HandedOn::handed_on, catalogue::proofs::Passed::after_accepted, catalogue::proofs::Passed::after_refused), unfolding(change_contract::specs::Questions::change_checks))]
pub fn check_all(
    b: &[u8],
    withdrawn: &[u8],
    added: &[u8],
    store: &[u8],
    work: usize,
    list: usize,
) -> Result<(), Refusal>
    ensures { outcome_of result ≡ change_checks b.now withdrawn.now added.now (lent (length store.now) work list) (spare_clear b.now store.now) (axioms_in_limit b.now (in_force b.now store.now)) (in_force b.now store.now) }
{
    check(b)?;
    check_checked(b, withdrawn, added, store, work, list)
}
