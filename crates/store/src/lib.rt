// The store (document 01, Store): questions 10 to 14, and what occurs by its axioms.
#![tactic(auto)]

ghost use Rattle.std.specs.Prelude.{◌≡◌, not, ℕ, length};
ghost use Rattle.catalogue.specs.WellFormed.{WellFormed};
ghost use Rattle.rows.specs.Bits.{bit, some_below};
ghost use Rattle.rules.specs.Occurrence.{occurs};
ghost use Rattle.layout.specs.Parts as parts;
ghost use Rattle.layout.specs.Parts.{Sized, Clear, InLastByte, in_force, set_from, spare_clear};
ghost use Rattle.store.specs.Written.{axiom_count};
ghost use Rattle.store.specs.Checks.{store_fits, work_fits, list_fits, axioms_in_limit};

use catalogue::Axiom;
use layout::{Shape, used, work_used};

// 10: is a store of this length long enough?
pub fn store_fits(b: &[u8], long: usize) -> bool
    requires { WellFormed b.now }
    ensures { result ≡ store_fits b.now long }
{
    used(b) <= long
}

// 11: is a work space of this length long enough?
pub fn work_fits(b: &[u8], long: usize) -> bool
    requires { WellFormed b.now }
    ensures { result ≡ work_fits b.now long }
{
    work_used(b) <= long
}

// 12: is a list of this length long enough?
pub fn list_fits(b: &[u8], long: usize) -> bool
    requires { WellFormed b.now }
    ensures { result ≡ list_fits b.now long }
{
    2 * catalogue::concepts(b) <= long
}

// 13: are all row bits from n upward clear? They are in the last byte of each row, and there are none where n is a multiple of 8.
pub fn spare_clear(b: &[u8], store: &[u8]) -> bool
    requires { Sized b.now store.now }
    ensures { result ≡ spare_clear b.now store.now }
{
    let s = Shape::of(b);
    let n = s.concepts;
    let w = s.width;
    let m = s.roles;
    if n % 8 == 0 {
        return true;
    }
    last_bytes_clear(store, w, n * (m + 2), n)
}

// Is every bit from bit i upward clear in each row? Bit i lies in the last byte.
fn last_bytes_clear(rows: &[u8], w: usize, count: usize, i: usize) -> bool
    requires { InLastByte w count i rows.now }
    ensures { result ≡ not (some_below (set_from w i rows.now) count) }
{
    for r in 0..count {
        if rows[r * w + i / 8] >> (i % 8) != 0 {
            return false;
        }
    }
    true
}

// How many axioms are in force: the set bits of the axiom rows.
pub fn axiom_count(b: &[u8], store: &[u8]) -> usize
    requires { Clear b.now store.now }
    ensures { result ≡ axiom_count b.now (in_force b.now store.now) }
{
    let s = Shape::of(b);
    let n = s.concepts;
    let w = s.width;
    let end = n * w;
    rows::count(&store[..end])
}

// 14: are at most 4,096 axioms in force?
pub fn axioms_in_limit(b: &[u8], store: &[u8]) -> bool
    requires { Clear b.now store.now }
    ensures { result ≡ axioms_in_limit b.now (in_force b.now store.now) }
{
    axiom_count(b, store) <= Axiom::MAX
}

// Marks in a row exactly the concepts that occur by the axioms in force, whatever the row held.
pub fn mark_occurring(b: &[u8], store: &[u8], row: &mut [u8])
    requires { Clear b.now store.now × (length row.old ≡ parts.width b.now) }
    ensures { (c : ℕ) → bit row.new c ≡ occurs b.now (in_force b.now store.now) c }
{
    let s = Shape::of(b);
    let n = s.concepts;
    let w = s.width;
    let end = n * w;
    occurrence::occurs(b, &store[..end], row);
}
