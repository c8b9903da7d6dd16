// Parts of concepts: recursion over the records, whose parts have smaller numbers.
ghost use Rattle.std.specs.Prelude.{◌≡◌, true, ◌↔◌, ◌+◌, ◌*◌, ◌≤◌, ◌<◌, length};
ghost use Rattle.catalogue.specs.Header.{concepts};
ghost use Rattle.catalogue.specs.WellFormed.{WellFormed};
ghost use Rattle.structure.specs.Parts.{Contains};
ghost use Rattle.structure.specs.Marks.{MarksMore, InPart, Markable};

use catalogue::Concept;

// Marks all that concept i contains, itself too. A marked concept is passed over, so that shared parts cost nothing twice.
#[cycle(mark_contained_mark_parts)]
fn mark_contained(b: &[u8], i: usize, row: &mut [u8])
    requires { Markable b.now (i + 1) row.old }
    ensures { MarksMore (Contains b.now i) row.old row.new }
{
    if rows::has(row, i) {
        return;
    }
    rows::put(row, i);
    mark_parts(b, i, row);
}

// Marks all that the parts of concept i contain: both conjuncts, or the concept of an existential.
#[cycle(mark_contained_mark_parts)]
pub fn mark_parts(b: &[u8], i: usize, row: &mut [u8])
    requires { Markable b.now i row.old × (i < concepts b.now) }
    ensures { MarksMore (InPart b.now i) row.old row.new }
{
    let concept = Concept::at(b, i);
    let kind = concept.kind;
    if kind == Concept::CONJUNCTION {
        mark_contained(b, concept.first, row);
        mark_contained(b, concept.second, row);
    } else if kind == Concept::EXISTENTIAL {
        mark_contained(b, concept.second, row);
    }
}

// Does concept i contain concept j? A concept contains itself. The row lent is for the marks, whatever it holds.
pub fn contains(b: &[u8], i: usize, j: usize, row: &mut [u8]) -> bool
    requires { WellFormed b.now × (i < concepts b.now) × (concepts b.now ≤ 8 * length row.old) }
    ensures { (result ≡ true) ↔ Contains b.now i j }
{
    row_steps::clear(row);
    mark_contained(b, i, row);
    rows::has(row, j)
}
