// Runs the steps of its input on one store, and writes what each call answers and leaves in the buffers: changes of stores that are right and that are wrong.
// The input: how many steps there are, in two bytes, the steps, and bytes that they use. A step has eleven numbers, low byte first: what it does; start and
// length of the withdrawn list, and of the added list, in the input; the entries of the answer and the bytes of the list that are lent, two bytes each; the
// bytes of the store and of the work space that are lent, four bytes each (all of a buffer, where it is shorter); the start and the length of a part of the
// input, two bytes each. Starts count from the input's first byte, and what lies past its last byte is left out. 3 is classify, 4 the exported change and 5
// change, where the part is the catalogue. 0 fills a part of the store with the number in the place of the withdrawn list's start, from the byte in the
// store's place on, as many bytes as the work space's place says; 1 sets there the bits of the part of the input, and 2 clears them.
#![tactic(auto)]

ghost use Rattle.std.specs.Prelude.{◌+◌, ◌≤◌, ◌<◌, ◌≡◌, length};

use call_answers::run;
use std::io;
use test_cases::{end_at, fill, long_at, read_full, say_checksum, say_digits, short_at};

// The bytes of a step.
const STEP: usize = 26;

// Where a part of the input starts, by the number at a byte.
fn start_at(text: &[u8], at: usize) -> usize
    requires { at + 1 < length text.now }
    ensures { result ≤ length text.now }
{
    short_at(text, at).min(text.len())
}

// Runs the call of a step with its two lists.
fn run_lists(
    rt: &impl Print,
    text: &[u8],
    at: usize,
    b: &[u8],
    store: &mut [u8],
    work: &mut [u8],
    list: &mut [u8],
) -> io::Result<()>
    requires { at + 26 ≤ length text.now }
{
    let call = short_at(text, at);
    let out = start_at(text, at + 2);
    let out_end = end_at(text, at + 4, out);
    let new = start_at(text, at + 6);
    let new_end = end_at(text, at + 8, new);
    let entries = short_at(text, at + 10);
    run(
        rt,
        call,
        b,
        &text[out..out_end],
        &text[new..new_end],
        store,
        work,
        list,
        entries,
    )
}

// Writes the front of the list and the checksums of the whole buffers: what a call must not change shows there.
fn say_buffers(rt: &impl Print, store: &[u8], work: &[u8], list: &[u8]) -> io::Result<()> {
    let shown = list.len().min(32);
    rt.write_all(b" front ")?;
    say_digits(rt, &list[..shown])?;
    say_checksum(rt, b" store ", store)?;
    say_checksum(rt, b" work ", work)?;
    say_checksum(rt, b" list ", list)?;
    rt.write_all(b"\n")
}

// Runs the call of a step, with the work space and the list filled afresh.
fn run_call(
    rt: &impl Print,
    text: &[u8],
    at: usize,
    b: &[u8],
    store: &mut [u8],
    work: &mut [u8],
    list: &mut [u8],
) -> io::Result<()>
    requires { at + 26 ≤ length text.now }
{
    let t = short_at(text, at + 12).min(list.len());
    let s = long_at(text, at + 14).min(store.len());
    let w = long_at(text, at + 18).min(work.len());
    fill(work, 90);
    fill(list, 195);
    run_lists(
        rt,
        text,
        at,
        b,
        &mut store[..s],
        &mut work[..w],
        &mut list[..t],
    )?;
    say_buffers(rt, store, work, list)
}

// Fills a part of the store with a byte.
fn run_fill(text: &[u8], at: usize, store: &mut [u8])
    requires { at + 26 ≤ length text.now }
{
    let byte = short_at(text, at + 2) % 256;
    let start = long_at(text, at + 14).min(store.len());
    let end = (start + long_at(text, at + 18)).min(store.len());
    fill(&mut store[start..end], byte as u8);
}

// Sets or clears the bits of some bytes in a part of the store that is as long.
fn put_bits(step: usize, bytes: &[u8], part: &mut [u8])
    requires { length bytes.now ≡ length part.old }
{
    match step {
        1 => rows::or_into(part, bytes),
        _ => row_steps::minus_into(part, bytes),
    }
}

// Changes the bits of a part of the store, if the store has all of it.
fn run_bits(text: &[u8], at: usize, bytes: &[u8], store: &mut [u8])
    requires { at + 26 ≤ length text.now }
{
    let start = long_at(text, at + 14);
    let end = start + bytes.len();
    if end <= store.len() {
        put_bits(short_at(text, at), bytes, &mut store[start..end]);
    }
}

// Runs the step at a byte of the input.
fn run_step(
    rt: &impl Print,
    text: &[u8],
    at: usize,
    store: &mut [u8],
    work: &mut [u8],
    list: &mut [u8],
) -> io::Result<()>
    requires { at + 26 ≤ length text.now }
{
    let start = start_at(text, at + 22);
    let end = end_at(text, at + 24, start);
    match short_at(text, at) {
        0 => {
            run_fill(text, at, store);
            Ok(())
        }
        1 | 2 => {
            run_bits(text, at, &text[start..end], store);
            Ok(())
        }
        _ => run_call(rt, text, at, &text[start..end], store, work, list),
    }
}

// Runs the steps one after the other, as many as the input has whole.
fn run_all(
    rt: &impl Print,
    text: &[u8],
    store: &mut [u8],
    work: &mut [u8],
    list: &mut [u8],
) -> io::Result<()> {
    if text.len() < 2 {
        return Ok(());
    }
    let steps = short_at(text, 0).min((text.len() - 2) / STEP);
    for k in 0..steps {
        run_step(rt, text, 2 + STEP * k, store, work, list)?;
    }
    Ok(())
}

fn main(rt: HostRuntime) -> io::Result<()> {
    let mut text = [0u8; 65536];
    let n = read_full(&mut rt.stdin(), &mut text)?;
    let mut store = [165u8; 262160];
    let mut work = [0u8; 229392];
    let mut list = [0u8; 1040];
    run_all(&rt, &text[..n], &mut store, &mut work, &mut list)
}
