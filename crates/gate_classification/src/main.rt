// Classifies the catalogues of its input one after the other into one store, so that each finds what others left there, and with a work space that holds
// other bytes. Writes the answers, the checksum of the store's used part, and those of both whole buffers: what classify must not change shows there too.
// A case: the length of the catalogue in two bytes, and the lengths of the store and of the work space that are lent in four bytes each, low byte first
// (all of a buffer, where it is shorter); then the catalogue. The input has W1, W7, W8 and W10 of document 01, a byte too few of each buffer, and larger
// catalogues.
#![tactic(auto)]

ghost use Rattle.std.specs.Prelude.{◌+◌, ◌≤◌, ◌<◌, length, IfOk};
ghost use Rattle.layout.specs.Parts.{Sized};

use classification::{Classified, classify};
use layout::used;
use std::io;
use test_cases::{end_at, fill, long_at, read_full, say, say_checksum, say_refused};

// Writes the counts of pairs and links, and the checksum of the store's used part.
fn say_classified(rt: &impl Print, b: &[u8], counts: Classified, store: &[u8]) -> io::Result<()>
    requires { Sized b.now store.now }
{
    let end = used(b);
    say(rt, b"pairs ", counts.pairs)?;
    say(rt, b" links ", counts.links)?;
    say_checksum(rt, b" used ", &store[..end])
}

// Classifies a catalogue, and writes the answer.
fn run(rt: &impl Print, b: &[u8], store: &mut [u8], work: &mut [u8]) -> io::Result<()> {
    match classify(b, store, work) {
        Ok(counts) => say_classified(rt, b, counts, store),
        Err(e) => say_refused(rt, e.number, e.at),
    }
}

// Runs the case at a byte of the input, and says where the next one starts.
fn run_case(
    rt: &impl Print,
    text: &[u8],
    at: usize,
    store: &mut [u8],
    work: &mut [u8],
) -> io::Result<usize>
    requires { at + 10 ≤ length text.now }
    ensures { IfOk result (λ end. (at < end) × (end ≤ length text.now)) }
{
    let start = at + 10;
    let end = end_at(text, at, start);
    let s = long_at(text, at + 2).min(store.len());
    let w = long_at(text, at + 6).min(work.len());
    fill(work, 90);
    run(rt, &text[start..end], &mut store[..s], &mut work[..w])?;
    say_checksum(rt, b" store ", store)?;
    say_checksum(rt, b" work ", work)?;
    rt.write_all(b"\n")?;
    Ok(end)
}

// Runs the cases one after the other. Each says where the next begins, so that no range has these steps.
fn run_cases(rt: &impl Print, text: &[u8], store: &mut [u8], work: &mut [u8]) -> io::Result<()> {
    let mut at = 0;
    while at + 10 <= text.len() {
        at = run_case(rt, text, at, store, work)?;
    }
    Ok(())
}

fn main(rt: HostRuntime) -> io::Result<()> {
    let mut text = [0u8; 65536];
    let n = read_full(&mut rt.stdin(), &mut text)?;
    let mut store = [165u8; 589824];
    let mut work = [0u8; 557056];
    run_cases(&rt, &text[..n], &mut store, &mut work)
}
