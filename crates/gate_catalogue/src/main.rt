// Reads catalogues, one to a line in hexadecimal digits, and writes for each what questions 1 to 9 answer.
// The input: a right catalogue and its faulty variants, 19 bytes and none among them; a full one of 512 concepts and one of 513; two
// faults of one question, and of two; the limits, with 4,096 axioms, and one concept without roles.
#![tactic(auto)]

ghost use Rattle.std.specs.Prelude.{◌≤◌, ◌<◌, length};

use catalogue::Refusal;
use std::io;
use test_cases::read_full;

// The value of a hexadecimal digit; 0 for any other byte.
fn digit(c: u8) -> u8
    ensures { result < 16 }
{
    match c {
        b'0'..=b'9' => c - b'0',
        b'a'..=b'f' => c - b'a' + 10,
        _ => 0,
    }
}

// Puts the bytes that a line's digits give at the start of `out`, as many as fit, and says how many.
fn decode(line: &[u8], out: &mut [u8]) -> usize
    ensures { result ≤ length out.new }
{
    let n = (line.len() / 2).min(out.len());
    for (k, byte) in out[..n].iter_mut().enumerate() {
        *byte = 16 * digit(line[2 * k]) + digit(line[2 * k + 1]);
    }
    n
}

// A line without its line break.
fn digits(line: &[u8]) -> &[u8] {
    match line {
        [digits @ .., b'\n'] => digits,
        _ => line,
    }
}

// Writes one answer as a line: the number of the question and the record at fault, or that there is none.
fn report(rt: &impl Print, answer: Result<(), Refusal>) -> io::Result<()> {
    match answer {
        Ok(()) => rt.write_all(b"accepted\n"),
        Err(e) => println!(rt; "refused {} {}", e.number, e.at),
    }
}

// Checks the catalogue of each line.
fn check_lines(rt: &impl Print, text: &[u8], space: &mut [u8]) -> io::Result<()> {
    for line in text.split_inclusive(|byte| *byte == b'\n') {
        let n = decode(digits(line), space);
        report(rt, catalogue::check(&space[..n]))?;
    }
    Ok(())
}

fn main(rt: HostRuntime) -> io::Result<()> {
    let mut text = [0u8; 65536];
    let n = read_full(&mut rt.stdin(), &mut text)?;
    let mut space = [0u8; 65536];
    check_lines(&rt, &text[..n], &mut space)
}
