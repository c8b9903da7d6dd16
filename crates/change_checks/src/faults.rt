// What is asked of every axiom of the lists.
ghost use Rattle.std.specs.Prelude.{ℕ, Bool, ◌<◌, ◌≡◌, ◌++◌};
ghost use Rattle.rows.specs.Bits.{some_below};
ghost use Rattle.layout.specs.Layout.{Shaped};
ghost use Rattle.layout.specs.Parts.{in_force};
ghost use Rattle.catalogue.specs.declared.records.Axiom.{Axiom};
ghost use Rattle.change_contract.specs.Lists.{axioms_in, ReadAt};
ghost use Rattle.change_contract.specs.Questions.{repeats};
ghost use Rattle.change_checks.specs.Reading.{Whole, is_beyond, is_absent, is_present};

use super::lists::{axiom_of, count, is_among};
use catalogue::Axiom;
use layout::Shape;
use rows::has;

// Is the axiom (l, r) in force?
fn in_force(b: &[u8], s: Shape, store: &[u8], l: usize, r: usize) -> bool
    requires { Shaped b.now s }
    ensures { result ≡ in_force b.now store.now l r }
{
    let w = s.width;
    if !((l < s.concepts) & (r < 8 * w)) {
        return false;
    }
    has(store, 8 * (l * w) + r)
}

// Is some axiom of two lists together at fault? The test has its place in the lists, and the axiom.
pub fn any_axiom<F: Fn(usize, Axiom) -> bool>(first: &[u8], second: &[u8], at_fault: F) -> bool
    requires whole { Whole first.now × Whole second.now }
    requires callable { (k : ℕ) (a : Axiom) → k < axioms_in (first.now ++ second.now) → F.pre at_fault k a }
    ensures { (test : ℕ → Bool) → ((k : ℕ) (a : Axiom) (r : Bool) → k < axioms_in (first.now ++ second.now) → ReadAt (first.now ++ second.now) k a → F.post at_fault k a r → r ≡ test k) → result ≡ some_below test (axioms_in (first.now ++ second.now)) }
{
    let end = count(first, second);
    for k in 0..end {
        if at_fault(k, axiom_of(first, second, k)) {
            return true;
        }
    }
    false
}

// 23: does an axiom repeat one before it?
pub fn any_repeated(first: &[u8], second: &[u8]) -> bool
    requires { Whole first.now × Whole second.now }
    ensures { result ≡ some_below (repeats (first.now ++ second.now)) (axioms_in (first.now ++ second.now)) }
{
    any_axiom(
        first,
        second,
        |k, a| is_among(first, second, k, a.left, a.right),
    )
}

// 15: is a side of an axiom no concept?
pub fn any_beyond(n: usize, first: &[u8], second: &[u8]) -> bool
    requires { Whole first.now × Whole second.now }
    ensures { result ≡ some_below (is_beyond n (first.now ++ second.now)) (axioms_in (first.now ++ second.now)) }
{
    any_axiom(first, second, |_, a| !((a.left < n) & (a.right < n)))
}

// 18: is an axiom not in force?
pub fn any_absent(b: &[u8], s: Shape, first: &[u8], second: &[u8], store: &[u8]) -> bool
    requires { Shaped b.now s × Whole first.now × Whole second.now }
    ensures { result ≡ some_below (is_absent (in_force b.now store.now) (first.now ++ second.now)) (axioms_in (first.now ++ second.now)) }
{
    any_axiom(
        first,
        second,
        |_, a| !in_force(b, s, store, a.left, a.right),
    )
}

// 16: is an axiom in force?
pub fn any_present(b: &[u8], s: Shape, first: &[u8], second: &[u8], store: &[u8]) -> bool
    requires { Shaped b.now s × Whole first.now × Whole second.now }
    ensures { result ≡ some_below (is_present (in_force b.now store.now) (first.now ++ second.now)) (axioms_in (first.now ++ second.now)) }
{
    any_axiom(first, second, |_, a| in_force(b, s, store, a.left, a.right))
}
