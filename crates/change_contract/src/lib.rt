// Changes of the axioms in force (document 01, Changes; document 02, request Four): some withdrawn and some added, at once.
#![tactic(auto)]

ghost use Rattle.std.specs.Prelude.{◌+◌, ◌*◌, ◌≤◌, length};
ghost use Rattle.change_contract.specs.Lists.{ReadAt};

use catalogue::Axiom;

// The counts of expressions removed, returned and gained, and of concepts listed as touched.
#[derive(Clone, Copy)]
pub struct Changed {
    pub removed: usize,
    pub returned: usize,
    pub gained: usize,
    pub touched: usize,
}

// Axiom k of a list of bytes, four for each.
pub fn axiom_at(list: &[u8], k: usize) -> Axiom
    requires { 4 * k + 4 ≤ length list.now }
    ensures { ReadAt list.now k result }
{
    Axiom::from_slice(list, Axiom::SIZE * k)
}
