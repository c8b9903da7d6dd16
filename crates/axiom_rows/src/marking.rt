// The axioms of a list put into a table of axioms, or taken out.
ghost use Rattle.axiom_rows.specs.Marking.{InTable, MarksOne, ListInTable, MarksList};

use catalogue::Axiom;
use change_contract::axiom_at;
use derivation::Mode;
use layout::Shape;
use rows::{clear_in_row, put_in_row};

// Puts the axiom (l, r) into a table of axioms, or takes it out.
fn mark_axiom(mode: Mode, s: Shape, l: usize, r: usize, rows: &mut [u8])
    requires { InTable s l r rows.old }
    ensures { MarksOne mode s l r rows.old rows.new }
{
    let w = s.width;
    match mode {
        Mode::Add => put_in_row(rows, w, l, r),
        Mode::Delete => clear_in_row(rows, w, l, r),
    }
}

// Puts the axioms of a list into a table of axioms, or takes them out.
pub fn mark_axioms(mode: Mode, s: Shape, list: &[u8], rows: &mut [u8])
    requires { ListInTable s list.now rows.old }
    ensures { MarksList mode s list.now rows.old rows.new }
{
    let count = list.len() / Axiom::SIZE;
    for k in 0..count {
        let a = axiom_at(list, k);
        mark_axiom(mode, s, a.left, a.right, rows);
    }
}
