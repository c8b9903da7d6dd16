// The lines of pairs, and the text of an accepted catalogue.
ghost use Rattle.std.specs.Prelude.{◌≡◌, cond, [], ◌+◌, ◌≤◌, ◌<◌, length};
ghost use Rattle.catalogue.specs.Header.{concepts};
ghost use Rattle.layout.specs.Parts.{Sized, held};
ghost use Rattle.text.specs.Text.{pair_line, Appended};
ghost use Rattle.text.specs.Lines.{named, row_lines, pair_lines, listing};

use super::{put_pair, summary_text};
use catalogue::Concept;
use lookups::pairs::has_pair;

// Are c and d different atomic concepts, and is c under d, by the store?
fn is_named(b: &[u8], c: usize, d: usize, store: &[u8]) -> bool
    requires { Sized b.now store.now × (c < concepts b.now) × (d < concepts b.now) }
    ensures { result ≡ named b.now (held b.now store.now) c d }
{
    let lower = Concept::at(b, c);
    let upper = Concept::at(b, d);
    (lower.kind == Concept::ATOMIC)
        & ((upper.kind == Concept::ATOMIC) & ((c != d) & has_pair(b, c, d, store)))
}

// Appends the line of c and d, if they are to be named.
fn put_named(b: &[u8], c: usize, d: usize, store: &[u8], out: &mut [u8], at: usize) -> usize
    requires { Sized b.now store.now × (c < concepts b.now) × (d < concepts b.now) × (at + 8 ≤ length out.old) }
    ensures { Appended (cond (named b.now (held b.now store.now) c d) (pair_line c d) []) out.old at result out.new }
{
    if is_named(b, c, d, store) {
        return put_pair(out, at, c, d);
    }
    at
}

// Appends the lines of the pairs of concept c.
fn put_row(b: &[u8], c: usize, store: &[u8], out: &mut [u8], at: usize) -> usize
    requires { Sized b.now store.now × (c < concepts b.now) × (at + 4096 ≤ length out.old) }
    ensures { Appended (row_lines b.now (held b.now store.now) c) out.old at result out.new }
{
    let n = catalogue::concepts(b);
    let mut place = at;
    for d in 0..n {
        place = put_named(b, c, d, store, out, place);
    }
    place
}

// Appends the lines of all pairs: at most 512 rows of 511 lines of 8 bytes.
fn put_rows(b: &[u8], store: &[u8], out: &mut [u8], at: usize) -> usize
    requires { Sized b.now store.now × (at + 2093064 ≤ length out.old) }
    ensures { Appended (pair_lines b.now (held b.now store.now)) out.old at result out.new }
{
    let n = catalogue::concepts(b);
    let mut place = at;
    for c in 0..n {
        place = put_row(b, c, store, out, place);
    }
    place
}

// The line of counts and the lines of all pairs, at the start of a buffer.
pub fn listing_text(b: &[u8], store: &[u8], pairs: usize, links: usize, out: &mut [u8]) -> usize
    requires { Sized b.now store.now × (2097152 ≤ length out.old) }
    ensures { Appended (listing b.now (held b.now store.now) pairs links) out.old 0 result out.new }
{
    let end = summary_text(
        out,
        catalogue::concepts(b),
        catalogue::axioms(b),
        pairs,
        links,
    );
    put_rows(b, store, out, end)
}
