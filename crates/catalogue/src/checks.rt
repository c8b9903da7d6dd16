// A catalogue's checks (document 01: questions 1 to 9): a test for each question, one search for the first record at
// fault, and the call that puts them in order.
ghost use Rattle.std.specs.Prelude.{ℕ, Bool, ◌≡◌, ◌+◌, ◌*◌, ◌<◌, ◌≤◌, length};
ghost use Rattle.catalogue.specs.Header.{inclusions_at, compositions_at, axioms_at};
ghost use Rattle.catalogue.specs.Checks.{total_right, counts_in_limits, offsets_right, kind_right, fields_right, inclusion_right, composition_right, sides_right, rising_right, concept_questions, role_questions, axiom_questions, record_questions, checked};
ghost use Rattle.catalogue.specs.Outcome.{accepted, first_fault};
ghost use Rattle.catalogue.specs.Questions.{ask_all};
ghost use Rattle.catalogue.specs.Sections.{Sections};
ghost use Rattle.catalogue.specs.Verdicts.{outcome_of};

use super::header;
use super::header::{axioms, compositions, concepts, inclusions, roles};
use super::records::{Axiom, Composition, Concept, Inclusion};

// A refusal: the number of the question that is answered no, and the record at fault (0 where none is named). The number stays a number: the papers name
// refusals by it, and C is told it.
#[derive(Clone, Copy)]
pub struct Refusal {
    pub number: usize,
    pub at: usize,
}

// 2: is the total field the length?
fn total_right(b: &[u8]) -> bool
    requires { 20 ≤ length b.now }
    ensures { result ≡ total_right b.now }
{
    header::total(b) == b.len()
}

// 3: are the counts in their limits?
fn counts_in_limits(b: &[u8]) -> bool
    requires { 20 ≤ length b.now }
    ensures { result ≡ counts_in_limits b.now }
{
    let n = concepts(b);
    let m = roles(b);
    let h = inclusions(b);
    let k = compositions(b);
    let a = axioms(b);
    (1 <= n)
        & ((n <= Concept::MAX)
            & ((m <= Concept::ROLES)
                & ((h <= Inclusion::MAX) & ((k <= Composition::MAX) & (a <= Axiom::MAX)))))
}

// 4: are the offsets and the total as the counts give?
fn offsets_right(b: &[u8]) -> bool
    requires { 20 ≤ length b.now }
    ensures { result ≡ offsets_right b.now }
{
    let c = header::concepts_at(b);
    let i = header::inclusions_at(b);
    let p = header::compositions_at(b);
    let a = header::axioms_at(b);
    (c == header::SIZE)
        & ((i == c + Concept::SIZE * concepts(b))
            & ((p == i + Inclusion::SIZE * inclusions(b))
                & ((a == p + Composition::SIZE * compositions(b))
                    & (header::total(b) == a + Axiom::SIZE * axioms(b)))))
}

// 5: is the kind of concept i one of the four?
fn kind_right(b: &[u8], i: usize) -> bool
    requires { 26 + 6 * i ≤ length b.now }
    ensures { result ≡ kind_right b.now i }
{
    let c = Concept::at(b, i);
    c.kind <= Concept::EXISTENTIAL
}

// 6: are the fields of concept i as its kind lays down?
fn fields_right(b: &[u8], i: usize) -> bool
    requires { 26 + 6 * i ≤ length b.now }
    ensures { result ≡ fields_right b.now i }
{
    let c = Concept::at(b, i);
    let kind = c.kind;
    let m = roles(b);
    match kind {
        Concept::ATOMIC | Concept::TOP => (c.first == 0) & (c.second == 0),
        Concept::CONJUNCTION => (c.first < i) & (c.second < i),
        Concept::EXISTENTIAL => (c.first < m) & (c.second < i),
        _ => false,
    }
}

// 7: are the roles of inclusion k below m?
fn inclusion_right(b: &[u8], k: usize) -> bool
    requires { (20 ≤ length b.now) × (inclusions_at b.now + 4 * k + 4 ≤ length b.now) }
    ensures { result ≡ inclusion_right b.now k }
{
    let c = Inclusion::at(b, k);
    let m = roles(b);
    (c.within < m) & (c.around < m)
}

// 7: are the roles of composition k below m?
fn composition_right(b: &[u8], k: usize) -> bool
    requires { (20 ≤ length b.now) × (compositions_at b.now + 6 * k + 6 ≤ length b.now) }
    ensures { result ≡ composition_right b.now k }
{
    let c = Composition::at(b, k);
    let m = roles(b);
    (c.first < m) & ((c.second < m) & (c.result < m))
}

// 8: are the sides of axiom k below n?
fn sides_right(b: &[u8], k: usize) -> bool
    requires { (20 ≤ length b.now) × (axioms_at b.now + 4 * k + 4 ≤ length b.now) }
    ensures { result ≡ sides_right b.now k }
{
    let c = Axiom::at(b, k);
    let n = concepts(b);
    (c.left < n) & (c.right < n)
}

// 9: is axiom k above the one before it?
fn rising_right(b: &[u8], k: usize) -> bool
    requires { (20 ≤ length b.now) × (axioms_at b.now + 4 * k + 4 ≤ length b.now) }
    ensures { result ≡ rising_right b.now k }
{
    if k == 0 {
        return true;
    }
    let c = Axiom::at(b, k - 1);
    let d = Axiom::at(b, k);
    (c.left < d.left) | ((c.left == d.left) & (c.right < d.right))
}

// The first of so many records that a question is answered no of, or their number where there is none.
pub fn first_fault<F: Fn(usize) -> bool>(count: usize, right: F) -> usize
    requires { (k : ℕ) → k < count → F.pre right k }
    ensures { (ok : ℕ → Bool) → ((k : ℕ) (r : Bool) → k < count → F.post right k r → r ≡ ok k) → result ≡ first_fault ok count }
{
    let mut first = count;
    for k in 0..count {
        if !right(k) {
            first = k;
            break;
        }
    }
    first
}

// Questions 5 and 6, each over all concepts before the next.
fn check_concepts(b: &[u8]) -> Result<(), Refusal>
    requires { Sections b.now }
    ensures { outcome_of result ≡ ask_all concept_questions b.now accepted }
{
    let n = concepts(b);
    let kind = first_fault(n, |k| kind_right(b, k));
    if kind < n {
        return Err(Refusal {
            number: 5,
            at: kind,
        });
    }
    let fields = first_fault(n, |k| fields_right(b, k));
    if fields < n {
        return Err(Refusal {
            number: 6,
            at: fields,
        });
    }
    Ok(())
}

// Question 7, over the inclusions and then over the compositions.
fn check_roles(b: &[u8]) -> Result<(), Refusal>
    requires { Sections b.now }
    ensures { outcome_of result ≡ ask_all role_questions b.now accepted }
{
    let h = inclusions(b);
    let inclusion = first_fault(h, |k| inclusion_right(b, k));
    if inclusion < h {
        return Err(Refusal {
            number: 7,
            at: inclusion,
        });
    }
    let k = compositions(b);
    let composition = first_fault(k, |k| composition_right(b, k));
    if composition < k {
        return Err(Refusal {
            number: 7,
            at: composition,
        });
    }
    Ok(())
}

// Questions 8 and 9, each over all axioms before the next.
fn check_axioms(b: &[u8]) -> Result<(), Refusal>
    requires { Sections b.now }
    ensures { outcome_of result ≡ ask_all axiom_questions b.now accepted }
{
    let a = axioms(b);
    let side = first_fault(a, |k| sides_right(b, k));
    if side < a {
        return Err(Refusal {
            number: 8,
            at: side,
        });
    }
    let order = first_fault(a, |k| rising_right(b, k));
    if order < a {
        return Err(Refusal {
            number: 9,
            at: order,
        });
    }
    Ok(())
}

// Questions 5 to 9.
fn check_records(b: &[u8]) -> Result<(), Refusal>
    requires { Sections b.now }
    ensures { outcome_of result ≡ ask_all record_questions b.now accepted }
{
    check_concepts(b)?;
    check_roles(b)?;
    check_axioms(b)
}

// Questions 1 to 9 of a slice of any content and length.
pub fn check(b: &[u8]) -> Result<(), Refusal>
    ensures { outcome_of result ≡ checked b.now }
{
    if b.len() < header::SIZE {
        return Err(Refusal { number: 1, at: 0 });
    }
    if !total_right(b) {
        return Err(Refusal { number: 2, at: 0 });
    }
    if !counts_in_limits(b) {
        return Err(Refusal { number: 3, at: 0 });
    }
    if !offsets_right(b) {
        return Err(Refusal { number: 4, at: 0 });
    }
    check_records(b)
}
