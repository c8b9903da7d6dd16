// The body of the listing program (document 01, Examples), for the programs that run it.
#![tactic(auto)]

ghost use Rattle.std.specs.Prelude.{◌≡◌, ◌≤◌, length, OnOk, MatchResult};
ghost use Rattle.std.specs.Io.KnownBytes.{Appends};
ghost use Rattle.text.specs.Text.{Appended};
ghost use Rattle.listings.specs.Program.{program_text, Ran, Lists, FallsShort};

use classification::classify;
use reading::read_full;
use std::io;
use std::io::{Read, Write};
use text::{listing_text, refusal_text};

// The program's text, at the start of a buffer that has room for the longest.
fn program_text(input: &[u8], store: &mut [u8], work: &mut [u8], out: &mut [u8]) -> usize
    requires { (length store.old ≡ 65536) × (length work.old ≡ 65536) × (2097152 ≤ length out.old) }
    ensures { Appended (program_text input.now) out.old 0 result out.new }
{
    match classify(input, store, work) {
        Ok(counts) => listing_text(input, store, counts.pairs, counts.links, out),
        Err(e) => refusal_text(out, e.number),
    }
}

// Room for the longest text.
fn text_buffer() -> [u8; 2097152]
    ensures { 2097152 ≡ length result }
{
    [0u8; 2097152]
}

// Writes the program's text of an input, and says how many bytes it has; that is the error where it could not be written.
fn list<W: Write>(input: &[u8], out: &mut W) -> Result<usize, usize>
    requires { length input.now ≤ 65536 }
    ensures written { OnOk result (Appends (W.contents out.old) (W.contents out.new) (program_text input.now)) }
    ensures long { MatchResult result (λ n. n ≡ length (program_text input.now)) (λ n. n ≡ length (program_text input.now)) }
{
    let mut store = [0u8; 65536];
    let mut work = [0u8; 65536];
    let mut text = text_buffer();
    let end = program_text(input, &mut store, &mut work, &mut text);
    match out.write_all(&text[..end]) {
        Ok(()) => Ok(end),
        Err(_) => Err(end),
    }
}

// Why no text was put out: the input could not be read, or the text of so many bytes could not be written.
#[derive(Clone, Copy)]
pub enum Shortfall {
    Unread,
    Unwritten(usize),
}

// Lists the catalogue that a reader gives, of which it reads 65,536 bytes at most: a longer input is refused by these alone. Says how many bytes the text has.
pub fn list_input<R: Read, W: Write>(input: &mut R, out: &mut W) -> Result<usize, Shortfall>
    ensures { MatchResult result (λ n. Lists (R.remaining input.old) (R.remaining input.new) (W.contents out.old) (W.contents out.new) n) FallsShort }
{
    let mut bytes = [0u8; 65536];
    match read_full(input, &mut bytes) {
        Ok(n) => match list(&bytes[..n], out) {
            Ok(end) => Ok(end),
            Err(end) => Err(Shortfall::Unwritten(end)),
        },
        Err(_) => Err(Shortfall::Unread),
    }
}

// The same on the standard output: how many bytes the text has, or nothing where the input could not be read. On standard error it says that the input could
// not be read, or the text not be written.
pub fn run<R: Read>(rt: &(impl Print + Eprint), file: &mut R) -> Option<usize>
    ensures { Ran result }
{
    match list_input(file, &mut io::writer(rt)) {
        Ok(end) => Some(end),
        Err(Shortfall::Unwritten(end)) => {
            let _ = rt.eprintln("listing: the output could not be written");
            Some(end)
        }
        Err(Shortfall::Unread) => {
            let _ = rt.eprintln("listing: the input could not be read");
            None
        }
    }
}
