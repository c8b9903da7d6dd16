// Walking a row: its marked numbers one after the other, and the union of the rows that it marks.
ghost use Rattle.std.specs.Prelude.{◌≡◌, ◌-◌, ◌≤◌, length};
ghost use Rattle.std.specs.Iterator.{at_most};
ghost use Rattle.rows.specs.Bits.{bit, place};
ghost use Rattle.rows.specs.Unions.{Adds, union};
ghost use Rattle.rows.specs.Walks.{InRows, Gatherable, marked, row_bit};
ghost use Rattle.rows.specs.Walking.{StepsOver};

use super::{next_below, or_into};

// The marked numbers of a row that are below an end, rising; those from a given one on are left.
#[derive(Drop)]
pub struct MarkedNumbers<'a> {
    pub row: &'a [u8],
    pub end: usize,
    pub from: usize,
}

// Walks the marked numbers of a row that are below n.
pub fn marked<'a>(row: &'a [u8], n: usize) -> MarkedNumbers<'a>
    ensures { (result.row ≡ row.entry) × (result.end ≡ n) × (result.from ≡ 0) }
{
    MarkedNumbers {
        row,
        end: n,
        from: 0,
    }
}

impl<'a> Iterator for MarkedNumbers<'a> {
    type Item = usize;

    ghost can_next = { λ s. (length s.row.now ≤ 1048576) × (s.from ≤ s.end) };

    ghost next_gives = { StepsOver };

    ghost remaining = { λ s. at_most (s.end - s.from) };

    fn next(&mut self) -> Option<usize> {
        let c = next_below(self.row, self.end, self.from);
        if c < self.end {
            self.from = c + 1;
            return Some(c);
        }
        None
    }
}

// Adds row r of a block to a row.
fn add_row(rows: &[u8], w: usize, r: usize, out: &mut [u8])
    requires { InRows rows.now w r out.old }
    ensures { Adds (λ d. bit rows.now (place w r d)) out.old out.new }
{
    let start = r * w;
    let end = start + w;
    or_into(out, &rows[start..end]);
}

// Adds to a row the rows first + c * step of a block for the numbers c below n that another row marks.
pub fn gather(
    walk: &[u8],
    n: usize,
    rows: &[u8],
    first: usize,
    step: usize,
    w: usize,
    out: &mut [u8],
)
    requires { Gatherable walk.now n rows.now first step w out.old }
    ensures { Adds (union (marked walk.now (row_bit rows.now first step w)) n) out.old out.new }
{
    for c in marked(walk, n) {
        add_row(rows, w, first + c * step, out);
    }
}
