// Bit rows: bit i of a row is bit i mod 8 of byte i div 8, bit 0 the lowest. Nothing here knows of catalogues.
#![tactic(auto)]

pub mod walking; // walking.rt: the marked numbers of a row, and the union of the rows that it marks

ghost use Rattle.std.specs.Prelude.{◌≡◌, ◌+◌, ◌*◌, ◌≤◌, ◌<◌, length};
ghost use Rattle.rows.specs.Bits.{bit, set_bit, set_if, clear_bit, or_row, count_below, count_bits, any_bit};
ghost use Rattle.rows.specs.Next.{next_bit, NextBelow};
ghost use Rattle.rows.specs.Words.{number_at};

pub use walking::{gather, marked};

// Whether bit i is set; a bit past the end is clear.
pub fn has(row: &[u8], i: usize) -> bool
    ensures { result ≡ bit row.now i }
{
    let at = i / 8;
    if at < row.len() {
        (row[at] >> (i % 8)) % 2 == 1
    } else {
        false
    }
}

// Sets bit i.
pub fn put(row: &mut [u8], i: usize)
    requires { i < 8 * length row.old }
    ensures { row.new ≡ set_bit row.old i }
{
    row[i / 8] |= 1 << (i % 8);
}

// Sets bit i, if `on`.
pub fn put_if(row: &mut [u8], i: usize, on: bool)
    requires { i < 8 * length row.old }
    ensures { row.new ≡ set_if on row.old i }
{
    if on {
        put(row, i);
    }
}

// Clears bit i.
pub fn clear(row: &mut [u8], i: usize)
    requires { i < 8 * length row.old }
    ensures { row.new ≡ clear_bit row.old i }
{
    row[i / 8] &= !(1 << (i % 8));
}

// Sets bit i of row r in a block of rows of w bytes: the row is lent on as its own part of the block.
pub fn put_in_row(rows: &mut [u8], w: usize, r: usize, i: usize)
    requires { (r * w + w ≤ length rows.old) × (i < 8 * w) }
    ensures { rows.new ≡ set_bit rows.old (8 * (r * w) + i) }
{
    let start = r * w;
    let end = start + w;
    put(&mut rows[start..end], i);
}

// Clears bit i of row r in a block of rows of w bytes: the row is lent on as its own part of the block.
pub fn clear_in_row(rows: &mut [u8], w: usize, r: usize, i: usize)
    requires { (r * w + w ≤ length rows.old) × (i < 8 * w) }
    ensures { rows.new ≡ clear_bit rows.old (8 * (r * w) + i) }
{
    let start = r * w;
    let end = start + w;
    clear(&mut rows[start..end], i);
}

// Sets in a row each bit that is set in another of the same length.
pub fn or_into(row: &mut [u8], other: &[u8])
    requires { length other.now ≡ length row.old }
    ensures { row.new ≡ or_row row.old other.now }
{
    for (i, byte) in row.iter_mut().enumerate() {
        *byte |= other[i];
    }
}

// Whether any bit is set.
pub fn any(row: &[u8]) -> bool
    ensures { result ≡ any_bit row.now }
{
    let mut found = false;
    for byte in row {
        found |= *byte != 0;
    }
    found
}

// How many bits are set: by words while eight bytes are left, then byte by byte.
pub fn count(row: &[u8]) -> usize
    requires { length row.now ≤ 1048576 }
    ensures { result ≡ count_bits row.now }
{
    let mut total: usize = 0;
    let words = row.len() / 8;
    for k in 0..words {
        total += word(row, 8 * k).count_ones() as usize;
    }
    total + count_by_bytes(row, 8 * words)
}

// The lowest set bit from a given one on, itself included; the given one may lie past the end. The word that holds it is read without the bits below
// it, then whole words, then what is left byte by byte.
pub fn next(row: &[u8], from: usize) -> Option<usize>
    requires { length row.now ≤ 1048576 }
    ensures { result ≡ next_bit row.now from }
{
    // The first word is entered in its middle: no range has these steps.
    let mut i = from;
    while i / 64 * 8 + 8 <= row.len() {
        let rest = word(row, i / 64 * 8) >> (i % 64);
        if rest != 0 {
            return Some(i + rest.trailing_zeros() as usize);
        }
        i = i / 64 * 64 + 64;
    }
    next_by_bytes(row, i)
}

// The lowest set bit from a given one on that is below n, or n where there is none.
pub fn next_below(row: &[u8], n: usize, from: usize) -> usize
    requires { length row.now ≤ 1048576 }
    ensures { NextBelow row.now n from result }
{
    match next(row, from) {
        Some(i) => { if i < n { i } else { n } }
        None => n,
    }
}

// The eight bytes from a place on as one number, low byte first.
pub fn word(row: &[u8], at: usize) -> u64
    requires { at + 8 ≤ length row.now }
    ensures { result ≡ number_at row.now at 8 }
{
    let mut number: u64 = 0;
    for k in 0..8 {
        number |= (row[at + k] as u64) << (8 * k);
    }
    number
}

// How many bits are set from a given byte on, byte by byte.
fn count_by_bytes(row: &[u8], from: usize) -> usize
    requires { (length row.now ≤ 1048576) × (from ≤ length row.now) }
    ensures { count_below (bit row.now) (8 * from) + result ≡ count_bits row.now }
{
    let mut total: usize = 0;
    for k in from..row.len() {
        total += row[k].count_ones() as usize;
    }
    total
}

// The lowest set bit from a given one on, byte by byte.
fn next_by_bytes(row: &[u8], from: usize) -> Option<usize>
    requires { length row.now ≤ 1048576 }
    ensures { result ≡ next_bit row.now from }
{
    // The first byte is entered in its middle: no range has these steps.
    let mut i = from;
    while i / 8 < row.len() {
        let rest = row[i / 8] >> (i % 8);
        if rest != 0 {
            return Some(i + rest.trailing_zeros() as usize);
        }
        i = i / 8 * 8 + 8;
    }
    None
}
