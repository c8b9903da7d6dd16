// Puts questions 10 to 14 to stores, and writes which concepts occur by their axioms: W1's, W9's, one whose parts have parts, and 4,096 and 4,097
// axioms.
#![tactic(auto)]

ghost use Rattle.std.specs.Prelude.{◌≤◌, length};
ghost use Rattle.catalogue.specs.WellFormed.{WellFormed};
ghost use Rattle.layout.specs.Parts.{Sized, Clear};

use std::io;

// Writes the number of the question that refuses.
fn report_refused(rt: &impl Print, number: usize) -> io::Result<()> {
    println!(rt; "refused {number}")
}

// Writes a concept's number after a space.
fn report_concept(rt: &impl Print, c: usize) -> io::Result<()> {
    print!(rt; " {c}")
}

// Writes the concepts below n that a row marks.
fn report_row(rt: &impl Print, row: &[u8], n: usize) -> io::Result<()> {
    for c in 0..n {
        if rows::has(row, c) {
            report_concept(rt, c)?;
        }
    }
    Ok(())
}

// Writes the concepts that occur by the axioms in force, marked in a row that has room for 512.
fn report_occurs(rt: &impl Print, b: &[u8], store: &[u8], row: &mut [u8]) -> io::Result<()>
    requires { Clear b.now store.now × (64 ≤ length row.old) }
{
    let n = catalogue::concepts(b);
    let w = (n + 7) / 8;
    store::mark_occurring(b, store, &mut row[..w]);
    rt.write_all(b"occurs")?;
    report_row(rt, row, n)?;
    rt.write_all(b"\n")
}

// Puts questions 13 and 14 to a store that is long enough.
fn report_store(rt: &impl Print, b: &[u8], store: &[u8]) -> io::Result<()>
    requires { Sized b.now store.now }
{
    if !store::spare_clear(b, store) {
        return report_refused(rt, 13);
    }
    if !store::axioms_in_limit(b, store) {
        return report_refused(rt, 14);
    }
    let mut row = [255u8; 64];
    report_occurs(rt, b, store, &mut row)
}

// Puts questions 10 to 14 to a store, and to a work space and a list of these lengths.
fn report_lengths(
    rt: &impl Print,
    b: &[u8],
    store: &[u8],
    work: usize,
    list: usize,
) -> io::Result<()>
    requires { WellFormed b.now }
{
    if !store::store_fits(b, store.len()) {
        report_refused(rt, 10)
    } else if !store::work_fits(b, work) {
        report_refused(rt, 11)
    } else if !store::list_fits(b, list) {
        report_refused(rt, 12)
    } else {
        report_store(rt, b, store)
    }
}

// The same after questions 1 to 9.
fn report(rt: &impl Print, b: &[u8], store: &[u8], work: usize, list: usize) -> io::Result<()> {
    match catalogue::check(b) {
        Ok(()) => report_lengths(rt, b, store, work, list),
        Err(e) => report_refused(rt, e.number),
    }
}

// A store, and then one byte short, a work space and a list one byte short.
fn report_short(rt: &impl Print, b: &[u8], store: &[u8]) -> io::Result<()>
    requires { 34 ≤ length store.now }
{
    report(rt, b, store, 28, 14)?;
    report(rt, b, &store[..34], 28, 14)?;
    report(rt, b, store, 27, 14)?;
    report(rt, b, store, 28, 13)
}

// W1 with its axioms, and then with the axiom (1, 5) withdrawn.
fn report_w1(rt: &impl Print) -> io::Result<()> {
    let b =
        b"\x50\x00\x07\x00\x03\x00\x00\x00\x01\x00\x03\x00\x14\x00\x3e\x00\x3e\x00\x44\x00\x00\x00\x00\x00\x00\x00\x00\x00\x00\x00\x00\x00\x00\x00\x00\x00\x00\x00\x00\x00\x00\x00\x00\x00\x03\x00\x00\x00\x01\x00\x03\x00\x01\x00\x02\x00\x03\x00\x02\x00\x02\x00\x00\x00\x01\x00\x02\x00\x00\x00\x04\x00\x01\x00\x05\x00\x06\x00\x03\x00";
    report_short(
        rt,
        b,
        b"\x10\x20\x00\x00\x00\x00\x08\x00\x00\x00\x00\x00\x00\x00\x00\x00\x00\x00\x00\x00\x00\x00\x00\x00\x00\x00\x00\x00\x00\x00\x00\x00\x00\x00\x00",
    )?;
    report(
        rt,
        b,
        b"\x10\x00\x00\x00\x00\x00\x08\x00\x00\x00\x00\x00\x00\x00\x00\x00\x00\x00\x00\x00\x00\x00\x00\x00\x00\x00\x00\x00\x00\x00\x00\x00\x00\x00\x00",
        28,
        14,
    )
}

// W9: bit 7 of the first axiom row of seven concepts, then of the last link row; and bit 7 of every row of eight concepts.
fn report_w9(rt: &impl Print) -> io::Result<()> {
    let b =
        b"\x50\x00\x07\x00\x03\x00\x00\x00\x01\x00\x03\x00\x14\x00\x3e\x00\x3e\x00\x44\x00\x00\x00\x00\x00\x00\x00\x00\x00\x00\x00\x00\x00\x00\x00\x00\x00\x00\x00\x00\x00\x00\x00\x00\x00\x03\x00\x00\x00\x01\x00\x03\x00\x01\x00\x02\x00\x03\x00\x02\x00\x02\x00\x00\x00\x01\x00\x02\x00\x00\x00\x04\x00\x01\x00\x05\x00\x06\x00\x03\x00";
    report(
        rt,
        b,
        b"\x90\x20\x00\x00\x00\x00\x08\x00\x00\x00\x00\x00\x00\x00\x00\x00\x00\x00\x00\x00\x00\x00\x00\x00\x00\x00\x00\x00\x00\x00\x00\x00\x00\x00\x00",
        28,
        14,
    )?;
    report(
        rt,
        b,
        b"\x10\x20\x00\x00\x00\x00\x08\x00\x00\x00\x00\x00\x00\x00\x00\x00\x00\x00\x00\x00\x00\x00\x00\x00\x00\x00\x00\x00\x00\x00\x00\x00\x00\x00\x80",
        28,
        14,
    )?;
    report(
        rt,
        b"\x44\x00\x08\x00\x00\x00\x00\x00\x00\x00\x00\x00\x14\x00\x44\x00\x44\x00\x44\x00\x00\x00\x00\x00\x00\x00\x00\x00\x00\x00\x00\x00\x00\x00\x00\x00\x00\x00\x00\x00\x00\x00\x00\x00\x00\x00\x00\x00\x00\x00\x00\x00\x00\x00\x00\x00\x00\x00\x00\x00\x00\x00\x00\x00\x00\x00\x00\x00",
        b"\x80\x80\x80\x80\x80\x80\x80\x80\x80\x80\x80\x80\x80\x80\x80\x80",
        8,
        16,
    )
}

// Concept 4 is ∃R.3, 3 is ∃R.2, 2 is 0 ⊓ 1, and only (4, 4) is in force.
fn report_nested(rt: &impl Print) -> io::Result<()> {
    report(
        rt,
        b"\x38\x00\x06\x00\x01\x00\x00\x00\x00\x00\x00\x00\x14\x00\x38\x00\x38\x00\x38\x00\x00\x00\x00\x00\x00\x00\x00\x00\x00\x00\x00\x00\x02\x00\x00\x00\x01\x00\x03\x00\x00\x00\x02\x00\x03\x00\x00\x00\x03\x00\x00\x00\x00\x00\x00\x00",
        b"\x00\x00\x00\x00\x10\x00\x00\x00\x00\x00\x00\x00\x00\x00\x00\x00\x00\x00",
        12,
        12,
    )
}

// Puts the first k axioms between 65 concepts into a store, by left side and then right.
fn fill(store: &mut [u8], k: usize)
    requires { (1170 ≤ length store.old) × (k ≤ 4225) }
{
    for p in 0..k {
        rows::put_in_row(store, 9, p / 65, p % 65);
    }
}

// A store with k axioms between 65 atomic concepts.
fn report_many(rt: &impl Print, k: usize) -> io::Result<()>
    requires { k ≤ 4225 }
{
    let mut b = [0u8; 410];
    b[0] = 154;
    b[1] = 1;
    b[2] = 65;
    b[12] = 20;
    b[14] = 154;
    b[15] = 1;
    b[16] = 154;
    b[17] = 1;
    b[18] = 154;
    b[19] = 1;
    let mut store = [0u8; 1170];
    fill(&mut store, k);
    report(rt, &b, &store, 585, 130)
}

fn main(rt: HostRuntime) -> io::Result<()> {
    report_w1(&rt)?;
    report_w9(&rt)?;
    report_nested(&rt)?;
    report_many(&rt, 4096)?;
    report_many(&rt, 4097)
}
