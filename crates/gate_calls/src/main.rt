// Runs write, row_and_answer and the exported calls on the cases of its input, and writes what each answers and leaves in the buffers.
// A case: the call (0 write, 1 row_and_answer; exported: 2 classify, 3 lookup, 4 list, 5 row, 6 write, 7 check), two concept numbers, the entries of the answer
// that are lent, the bytes lent of the store to be classified into and of the other buffer (work space, list or output; all of a buffer, where it is shorter), the
// lengths of the catalogue and of the store to be read, two bytes each, low byte first; then that catalogue and that store. The input has W1, W8, W9
// and W10's catalogue of document 01, short buffers and answers, and refusals of each kind.
#![tactic(auto)]

ghost use Rattle.std.specs.Prelude.{◌+◌, ◌≤◌, ◌<◌, length, IfOk};

use std::io;
use test_cases::{end_at, fill, read_full, say, say_checksum, say_refused, say_reply, short_at};

// Writes the catalogue with the axioms in force.
fn run_write(rt: &impl Print, b: &[u8], store: &[u8], output: &mut [u8]) -> io::Result<()> {
    match writing::write(b, store, output) {
        Ok(long) => say(rt, b"length ", long),
        Err(e) => say_refused(rt, e.number, e.at),
    }
}

// Answers a row, with the length and the checksum of the part beside it.
fn run_row(rt: &impl Print, b: &[u8], c: usize, store: &[u8]) -> io::Result<()> {
    let handed = row_parts::row_and_answer(b, c, store);
    match handed.answer {
        Ok(place) => {
            say(rt, b"row ", place.offset)?;
            say(rt, b" ", place.width)?;
        }
        Err(e) => say_refused(rt, e.number, e.at)?,
    }
    say(rt, b" part ", handed.part.len())?;
    say_checksum(rt, b" ", handed.part)
}

// Runs an exported call, and answers what it returned.
fn reply(
    call: usize,
    b: &[u8],
    c: usize,
    d: usize,
    read: &[u8],
    store: &mut [u8],
    other: &mut [u8],
    answer: &mut [u64],
) -> usize {
    match call {
        2 => exports::girvotal_classify(b, store, other, answer),
        3 => exports::girvotal_lookup(b, c, d, read, answer),
        4 => exports::girvotal_list(b, d, read, other, answer),
        5 => exports::girvotal_row(b, c, read, answer),
        6 => exports::girvotal_write(b, read, other, answer),
        _ => exports::girvotal_check(b, answer),
    }
}

// Runs an exported call with so many entries of an answer, and writes its reply.
fn run_exported(
    rt: &impl Print,
    call: usize,
    b: &[u8],
    c: usize,
    d: usize,
    read: &[u8],
    store: &mut [u8],
    other: &mut [u8],
    entries: usize,
) -> io::Result<()> {
    let mut answer = [99u64; 6];
    let n = entries.min(6);
    let returned = reply(call, b, c, d, read, store, other, &mut answer[..n]);
    say_reply(rt, returned, &answer)
}

// Runs one call.
fn run(
    rt: &impl Print,
    call: usize,
    b: &[u8],
    c: usize,
    d: usize,
    read: &[u8],
    store: &mut [u8],
    other: &mut [u8],
    entries: usize,
) -> io::Result<()> {
    match call {
        0 => run_write(rt, b, read, other),
        1 => run_row(rt, b, c, read),
        _ => run_exported(rt, call, b, c, d, read, store, other, entries),
    }
}

// Runs the case at a byte of the input, with the buffers filled afresh, and says where the next one starts. Writes the checksums
// of both whole buffers too: what a call must not change shows there.
fn run_case(
    rt: &impl Print,
    text: &[u8],
    at: usize,
    store: &mut [u8],
    other: &mut [u8],
) -> io::Result<usize>
    requires { at + 16 ≤ length text.now }
    ensures { IfOk result (λ end. (at < end) × (end ≤ length text.now)) }
{
    let call = short_at(text, at);
    let c = short_at(text, at + 2);
    let d = short_at(text, at + 4);
    let entries = short_at(text, at + 6);
    let s = short_at(text, at + 8).min(store.len());
    let o = short_at(text, at + 10).min(other.len());
    let start = at + 16;
    let middle = end_at(text, at + 12, start);
    let end = end_at(text, at + 14, middle);
    fill(store, 165);
    fill(other, 90);
    run(
        rt,
        call,
        &text[start..middle],
        c,
        d,
        &text[middle..end],
        &mut store[..s],
        &mut other[..o],
        entries,
    )?;
    say_checksum(rt, b" store ", store)?;
    say_checksum(rt, b" other ", other)?;
    rt.write_all(b"\n")?;
    Ok(end)
}

// Runs the cases one after the other. Each says where the next begins, so that no range has these steps.
fn run_cases(rt: &impl Print, text: &[u8], store: &mut [u8], other: &mut [u8]) -> io::Result<()> {
    let mut at = 0;
    while at + 16 <= text.len() {
        at = run_case(rt, text, at, store, other)?;
    }
    Ok(())
}

fn main(rt: HostRuntime) -> io::Result<()> {
    let mut text = [0u8; 65536];
    let n = read_full(&mut rt.stdin(), &mut text)?;
    let mut store = [0u8; 4096];
    let mut other = [0u8; 65536];
    run_cases(&rt, &text[..n], &mut store, &mut other)
}
