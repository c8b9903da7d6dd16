// Calls that change a store, run for the programs of the gate, with their answers written.
#![tactic(auto)]

use catalogue::Refusal;
use change_contract::Changed;
use std::io;
use test_cases::{say, say_refused, say_reply};

// Classifies a catalogue, and writes the answer.
fn run_classify(rt: &impl Print, b: &[u8], store: &mut [u8], work: &mut [u8]) -> io::Result<()> {
    match classification::classify(b, store, work) {
        Ok(counts) => {
            say(rt, b"pairs ", counts.pairs)?;
            say(rt, b" links ", counts.links)
        }
        Err(e) => say_refused(rt, e.number, e.at),
    }
}

// Writes a change's answer.
fn say_changed(rt: &impl Print, answer: Result<Changed, Refusal>) -> io::Result<()> {
    match answer {
        Ok(counts) => {
            say(rt, b"removed ", counts.removed)?;
            say(rt, b" returned ", counts.returned)?;
            say(rt, b" gained ", counts.gained)?;
            say(rt, b" touched ", counts.touched)
        }
        Err(e) => say_refused(rt, e.number, e.at),
    }
}

// Changes the axioms by the exported call with so many entries of an answer, and writes its reply.
fn run_exported(
    rt: &impl Print,
    b: &[u8],
    withdrawn: &[u8],
    added: &[u8],
    store: &mut [u8],
    work: &mut [u8],
    list: &mut [u8],
    entries: usize,
) -> io::Result<()> {
    let mut answer = [99u64; 6];
    let n = entries.min(6);
    let returned = exports::girvotal_change(
        b,
        withdrawn,
        added,
        store,
        work,
        list,
        &mut answer[..n],
    );
    say_reply(rt, returned, &answer)
}

// Changes the axioms, and writes the answer.
fn run_change(
    rt: &impl Print,
    b: &[u8],
    withdrawn: &[u8],
    added: &[u8],
    store: &mut [u8],
    work: &mut [u8],
    list: &mut [u8],
) -> io::Result<()> {
    let answer = change::change(b, withdrawn, added, store, work, list);
    say_changed(rt, answer)
}

// Runs a call.
pub fn run(
    rt: &impl Print,
    call: usize,
    b: &[u8],
    withdrawn: &[u8],
    added: &[u8],
    store: &mut [u8],
    work: &mut [u8],
    list: &mut [u8],
    entries: usize,
) -> io::Result<()> {
    match call {
        3 => run_classify(rt, b, store, work),
        4 => run_exported(rt, b, withdrawn, added, store, work, list, entries),
        _ => run_change(rt, b, withdrawn, added, store, work, list),
    }
}
