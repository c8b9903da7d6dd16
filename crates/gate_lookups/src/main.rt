// Runs lookup, listing and row on the cases of its input, and writes what each answers.
// A case: the call (0 lookup, 1 listing, 2 row), two concept numbers, the lengths of the list, the catalogue and the store that are lent, two bytes
// each, low byte first (all of the list, where it is shorter); then the catalogue and the store. The input has W1, W4, W8, W9 and W10 of document 01, a case for each refusal, and others.
#![tactic(auto)]

ghost use Rattle.std.specs.Prelude.{◌+◌, ◌≤◌, ◌<◌, length, IfOk};

use std::io;
use test_cases::{end_at, fill, read_full, say, say_digits, say_refused, short_at};

// Writes a space and bytes, and ends the line.
fn say_bytes(rt: &impl Print, bytes: &[u8]) -> io::Result<()> {
    rt.write_all(b" ")?;
    say_digits(rt, bytes)?;
    rt.write_all(b"\n")
}

// Answers a lookup.
fn run_lookup(rt: &impl Print, b: &[u8], c: usize, d: usize, store: &[u8]) -> io::Result<()> {
    match lookups::lookup(b, c, d, store) {
        Ok(true) => rt.write_all(b"yes\n"),
        Ok(false) => rt.write_all(b"no\n"),
        Err(e) => {
            say_refused(rt, e.number, e.at)?;
            rt.write_all(b"\n")
        }
    }
}

// Answers a listing, with the whole list as it is left.
fn run_listing(
    rt: &impl Print,
    b: &[u8],
    d: usize,
    store: &[u8],
    list: &mut [u8],
) -> io::Result<()> {
    fill(list, 195);
    match lookups::listing(b, d, store, list) {
        Ok(count) => say(rt, b"listed ", count)?,
        Err(e) => say_refused(rt, e.number, e.at)?,
    }
    say_bytes(rt, list)
}

// Answers a row, with the bytes of the part.
fn run_row(rt: &impl Print, b: &[u8], c: usize, store: &[u8]) -> io::Result<()> {
    match row_parts::row_answer(b, c, store) {
        Ok(place) => {
            say(rt, b"row ", place.offset)?;
            say(rt, b" ", place.width)?;
        }
        Err(e) => say_refused(rt, e.number, e.at)?,
    }
    say_bytes(rt, row_parts::row(b, c, store))
}

// Runs one call.
fn run(
    rt: &impl Print,
    call: usize,
    b: &[u8],
    c: usize,
    d: usize,
    store: &[u8],
    list: &mut [u8],
) -> io::Result<()> {
    match call {
        0 => run_lookup(rt, b, c, d, store),
        1 => run_listing(rt, b, d, store, list),
        _ => run_row(rt, b, c, store),
    }
}

// Runs the case at a byte of the input, and says where the next one starts.
fn run_case(rt: &impl Print, text: &[u8], at: usize, list: &mut [u8]) -> io::Result<usize>
    requires { at + 12 ≤ length text.now }
    ensures { IfOk result (λ end. (at < end) × (end ≤ length text.now)) }
{
    let call = short_at(text, at);
    let c = short_at(text, at + 2);
    let d = short_at(text, at + 4);
    let long = short_at(text, at + 6).min(list.len());
    let start = at + 12;
    let middle = end_at(text, at + 8, start);
    let end = end_at(text, at + 10, middle);
    run(
        rt,
        call,
        &text[start..middle],
        c,
        d,
        &text[middle..end],
        &mut list[..long],
    )?;
    Ok(end)
}

// Runs the cases one after the other. Each says where the next begins, so that no range has these steps.
fn run_cases(rt: &impl Print, text: &[u8], list: &mut [u8]) -> io::Result<()> {
    let mut at = 0;
    while at + 12 <= text.len() {
        at = run_case(rt, text, at, list)?;
    }
    Ok(())
}

fn main(rt: HostRuntime) -> io::Result<()> {
    let mut text = [0u8; 65536];
    let n = read_full(&mut rt.stdin(), &mut text)?;
    let mut list = [0u8; 4096];
    run_cases(&rt, &text[..n], &mut list)
}
