// Axioms in lists of bytes, four for each.
ghost use Rattle.std.specs.Prelude.{◌≤◌, ◌<◌, ◌≡◌, ◌++◌};
ghost use Rattle.change_contract.specs.Lists.{axioms_in, among, ReadAt};
ghost use Rattle.change_checks.specs.Reading.{Whole};

use catalogue::Axiom;
use change_contract::axiom_at;

// How many axioms two lists have.
pub fn count(first: &[u8], second: &[u8]) -> usize
    requires { Whole first.now × Whole second.now }
    ensures { result ≡ axioms_in (first.now ++ second.now) }
{
    first.len() / Axiom::SIZE + second.len() / Axiom::SIZE
}

// Axiom k of two lists together.
pub fn axiom_of(first: &[u8], second: &[u8], k: usize) -> Axiom
    requires { Whole first.now × Whole second.now × (k < axioms_in (first.now ++ second.now)) }
    ensures { ReadAt (first.now ++ second.now) k result }
{
    let count = first.len() / Axiom::SIZE;
    if k < count {
        return axiom_at(first, k);
    }
    axiom_at(second, k - count)
}

// Is (l, r) one of the first k axioms of two lists together?
pub fn is_among(first: &[u8], second: &[u8], k: usize, l: usize, r: usize) -> bool
    requires { Whole first.now × Whole second.now × (k ≤ axioms_in (first.now ++ second.now)) }
    ensures { result ≡ among (first.now ++ second.now) k l r }
{
    for j in 0..k {
        let a = axiom_of(first, second, j);
        if (a.left == l) & (a.right == r) {
            return true;
        }
    }
    false
}
