// Carries out the lists of calls of its input, and writes what each answers and leaves in the buffers.
// A case: the bytes of the store, of the work space and of the lists and the numbers of the answers that are lent (all of a buffer, where it is shorter), the
// lengths of the catalogue and of the list of calls, two bytes each, low byte first; then that catalogue and those calls.
#![tactic(auto)]

ghost use Rattle.std.specs.Prelude.{◌+◌, ◌≤◌, ◌<◌, length, IfOk};

use call_lists::Fault;
use call_lists::requests::{ENTRIES, LIST};
use std::io;
use test_cases::{end_at, fill, read_full, say, say_checksum, short_at};

// The bytes of a case's numbers.
const CASE: usize = 12;

// How many calls are shown at most.
const SHOWN: usize = 64;

// Writes numbers, a space before each.
fn say_numbers(rt: &impl Print, numbers: &[usize]) -> io::Result<()> {
    for number in numbers {
        say(rt, b" ", *number)?;
    }
    Ok(())
}

// Writes the answer, and says how many calls were carried out.
fn say_carried(rt: &impl Print, carried: Result<usize, Fault>) -> io::Result<usize> {
    match carried {
        Ok(count) => say(rt, b"done ", count)?,
        Err(Fault::BadCall(k)) => say(rt, b"bad call ", k)?,
        Err(Fault::ShortLists) => rt.write_all(b"short lists")?,
        Err(Fault::ShortAnswers) => rt.write_all(b"short answers")?,
    }
    Ok(carried.unwrap_or(0))
}

// Writes the checksums of the whole buffers: what a list must not change shows there.
fn say_buffers(rt: &impl Print, store: &[u8], work: &[u8], lists: &[u8]) -> io::Result<()> {
    say_checksum(rt, b"store ", store)?;
    say_checksum(rt, b" work ", work)?;
    say_checksum(rt, b" lists ", lists)?;
    rt.write_all(b"\n")
}

// Writes the answer of call k, and the checksum of its list, if the buffers have both.
fn say_call(rt: &impl Print, lists: &[u8], answers: &[usize], k: usize) -> io::Result<()>
    requires { k < 64 }
{
    let list = LIST * k;
    let list_end = list + LIST;
    let entry = ENTRIES * k;
    let entry_end = entry + ENTRIES;
    if lists.len() < list_end {
        return Ok(());
    }
    if answers.len() < entry_end {
        return Ok(());
    }
    say_numbers(rt, &answers[entry..entry_end])?;
    say_checksum(rt, b" list ", &lists[list..list_end])?;
    rt.write_all(b"\n")
}

// Writes the answers of some calls, one after the other.
fn say_calls(rt: &impl Print, lists: &[u8], answers: &[usize], count: usize) -> io::Result<()>
    requires { count ≤ 64 }
{
    for k in 0..count {
        say_call(rt, lists, answers, k)?;
    }
    Ok(())
}

// Carries out a list of calls, with so many numbers of answers and bytes of the lists lent. Writes what it answers, and for each call its answer and list; and
// for the place past the last call, which stays.
fn run(
    rt: &impl Print,
    b: &[u8],
    calls: &[u8],
    store: &mut [u8],
    work: &mut [u8],
    lists: &mut [u8],
    numbers: usize,
    bytes: usize,
) -> io::Result<()> {
    let mut answers = [99usize; 390];
    let n = numbers.min(390);
    let t = bytes.min(lists.len());
    let carried = call_lists::carry_out(b, calls, store, work, &mut lists[..t], &mut answers[..n]);
    let count = say_carried(rt, carried)?;
    rt.write_all(b"\n")?;
    say_calls(rt, lists, &answers, count.min(SHOWN - 1) + 1)
}

// Runs the case at a byte of the input, with the buffers filled afresh, and says where the next one starts.
fn run_case(
    rt: &impl Print,
    text: &[u8],
    at: usize,
    store: &mut [u8],
    work: &mut [u8],
    lists: &mut [u8],
) -> io::Result<usize>
    requires { at + 12 ≤ length text.now }
    ensures { IfOk result (λ end. (at < end) × (end ≤ length text.now)) }
{
    let s = short_at(text, at).min(store.len());
    let w = short_at(text, at + 2).min(work.len());
    let bytes = short_at(text, at + 4);
    let numbers = short_at(text, at + 6);
    let start = at + CASE;
    let middle = end_at(text, at + 8, start);
    let end = end_at(text, at + 10, middle);
    fill(store, 165);
    fill(work, 90);
    fill(lists, 195);
    run(
        rt,
        &text[start..middle],
        &text[middle..end],
        &mut store[..s],
        &mut work[..w],
        lists,
        numbers,
        bytes,
    )?;
    say_buffers(rt, store, work, lists)?;
    Ok(end)
}

// Runs the cases one after the other. Each says where the next begins, so that no range has these steps.
fn run_cases(
    rt: &impl Print,
    text: &[u8],
    store: &mut [u8],
    work: &mut [u8],
    lists: &mut [u8],
) -> io::Result<()> {
    let mut at = 0;
    while at + CASE <= text.len() {
        at = run_case(rt, text, at, store, work, lists)?;
    }
    Ok(())
}

fn main(rt: HostRuntime) -> io::Result<()> {
    let mut text = [0u8; 65536];
    let n = read_full(&mut rt.stdin(), &mut text)?;
    let mut store = [0u8; 4096];
    let mut work = [0u8; 4096];
    let mut lists = [0u8; 65536];
    run_cases(&rt, &text[..n], &mut store, &mut work, &mut lists)
}
