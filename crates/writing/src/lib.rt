// The write call: the catalogue with the axioms in force (document 01, Questions: write puts 1 to 10, 13, 14, 20).
#![tactic(auto)]

ghost use Rattle.std.specs.Prelude.{◌≡◌, ◌+◌, ◌<◌, length};
ghost use Rattle.catalogue.specs.WellFormed.{WellFormed};
ghost use Rattle.layout.specs.Parts.{in_force};
ghost use Rattle.store.specs.Written.{set_word, written};
ghost use Rattle.writing.specs.Records.{RowFits, WritesRow, TableFits, WritesTable, CatalogueFits};
ghost use Rattle.writing.specs.Write.{Writes, WritesChecked};

use catalogue::header::axioms_at;
use catalogue::{Axiom, Refusal};
use layout::Shape;
use reader::{copy_numbers, put_number};
use rows::marked;

// Writes one axiom record.
#[tactic(auto, unfolding(store::specs::Written::set_word))]
fn put_axiom(out: &mut [u8], at: usize, left: usize, right: usize)
    requires { (at + 3 < length out.old) × (left < 65536) × (right < 65536) }
    ensures { out.new ≡ set_word (set_word out.old at left) (at + 2) right }
{
    put_number(out, at, left);
    put_number(out, at + 2, right);
}

// Writes the axiom records of one left side, from a place on, and answers the place after them.
fn put_row(row: &[u8], n: usize, left: usize, out: &mut [u8], start: usize) -> usize
    requires { RowFits row.now n left out.old start }
    ensures { WritesRow row.now n left out.old start out.new result }
{
    let mut at = start;
    for right in marked(row, n) {
        put_axiom(out, at, left, right);
        at += Axiom::SIZE;
    }
    at
}

// Writes the axiom records of n rows by left side, from a place on.
fn put_table(rows: &[u8], n: usize, w: usize, out: &mut [u8], start: usize)
    requires { TableFits rows.now n w out.old start }
    ensures { WritesTable rows.now n w out.old start out.new }
{
    let mut at = start;
    for left in 0..n {
        let from = left * w;
        let to = from + w;
        at = put_row(&rows[from..to], n, left, out, at);
    }
}

// Writes the catalogue with the axioms in force into a space of exactly its length.
fn put_catalogue(b: &[u8], store: &[u8], count: usize, out: &mut [u8])
    requires { CatalogueFits b.now store.now count out.old }
    ensures { out.new ≡ written b.now (in_force b.now store.now) }
{
    let start = axioms_at(b);
    let s = Shape::of(b);
    let n = s.concepts;
    let w = s.width;
    copy_numbers(b, 0, out, 0, start / 2);
    put_number(out, 0, start + Axiom::SIZE * count);
    put_number(out, 10, count);
    put_table(store, n, w, out, start);
}

// The questions after 9, and the catalogue written: how many bytes that are.
#[tactic(auto, using(crate::proofs::Order::stops_10, crate::proofs::Order::stops_13, crate::proofs::Order::stops_14, crate::proofs::Order::stops_20, crate::proofs::Order::writes_all))]
fn write_checked(b: &[u8], store: &[u8], output: &mut [u8]) -> Result<usize, Refusal>
    requires { WellFormed b.now }
    ensures { WritesChecked b.now store.now output.old result output.new }
{
    if !store::store_fits(b, store.len()) {
        return Err(Refusal { number: 10, at: 0 });
    }
    if !store::spare_clear(b, store) {
        return Err(Refusal { number: 13, at: 0 });
    }
    let count = store::axiom_count(b, store);
    if Axiom::MAX < count {
        return Err(Refusal { number: 14, at: 0 });
    }
    let end = axioms_at(b) + Axiom::SIZE * count;
    if output.len() < end {
        return Err(Refusal { number: 20, at: 0 });
    }
    put_catalogue(b, store, count, &mut output[..end]);
    Ok(end)
}

// Writes the catalogue with the axioms in force, count and total to match, and answers how many bytes it wrote; bytes beyond it stay.
#[tactic(auto, using(catalogue::proofs::HandedOn::handed_on, crate::proofs::Order::catalogue_refused, crate::proofs::Order::catalogue_first))]
pub fn write(b: &[u8], store: &[u8], output: &mut [u8]) -> Result<usize, Refusal>
    ensures { Writes b.now store.now output.old result output.new }
{
    catalogue::check(b)?;
    write_checked(b, store, output)
}
