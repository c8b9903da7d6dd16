// The catalogue's axioms as a table of rows, by left side.
ghost use Rattle.std.specs.Prelude.{◌≡◌, ◌≤◌, length};
ghost use Rattle.layout.specs.Layout.{Shaped, table_length};
ghost use Rattle.axiom_rows.specs.Putting.{MarksAxioms, PutsAxioms};

use super::marking::mark_axioms;
use catalogue::header::axioms_at;
use derivation::Mode;
use layout::Shape;
use row_steps::clear;

// Marks each axiom of the catalogue: its last section is a list of them.
fn axiom_rows(b: &[u8], s: Shape, table: &mut [u8])
    requires { Shaped b.now s × (length table.old ≡ table_length s) }
    ensures { MarksAxioms b.now s table.old table.new }
{
    let from = axioms_at(b);
    mark_axioms(Mode::Add, s, &b[from..], table);
}

// Marks each axiom of the catalogue in its own row of the store, whatever the axiom rows held, and copies them to a table.
pub fn put_axioms(b: &[u8], s: Shape, store: &mut [u8], table: &mut [u8])
    requires { Shaped b.now s × (table_length s ≤ length store.old) × (length table.old ≡ table_length s) }
    ensures { PutsAxioms b.now s store.old store.new table.new }
{
    let end = table.len();
    clear(&mut store[..end]);
    axiom_rows(b, s, &mut store[..end]);
    table.copy_from_slice(&store[..end]);
}
