// What programs share that run the cases of their input: the input's numbers, the ends of a case's parts, buffers filled
// before a call, and answers in words, numbers and checksums.
#![tactic(auto)]

pub mod sequences; // sequences.rt: bytes and entries in a row

ghost use Rattle.std.specs.Prelude.{◌≡◌, ◌+◌, ◌≤◌, ◌<◌, min, length, replicate};
ghost use Rattle.catalogue.specs.Words as words;

use checksum::fnv1a;
pub use reading::read_full;
pub use sequences::{say_digits, say_reply};
use std::io;

// The number at a byte of the input, in two bytes.
pub fn short_at(text: &[u8], at: usize) -> usize
    requires { at + 1 < length text.now }
    ensures { (result ≡ words.word text.now at) × (result < 65536) }
{
    catalogue::word(text, at)
}

// The number at a byte of the input, in four bytes.
pub fn long_at(text: &[u8], at: usize) -> usize
    requires { at + 3 < length text.now }
    ensures { result < 4294967296 }
{
    short_at(text, at) + 65536 * short_at(text, at + 2)
}

// Where a part of the input ends that starts at a byte, by the number of its bytes at another byte: with the input, where that is shorter.
pub fn end_at(text: &[u8], at: usize, start: usize) -> usize
    requires { (at + 1 < length text.now) × (start ≤ length text.now) }
    ensures { (start ≤ result) × (result ≤ length text.now) }
{
    (start + short_at(text, at)).min(text.len())
}

// Fills a buffer with one byte, so that what a call writes shows.
pub fn fill(buffer: &mut [u8], byte: u8)
    ensures { buffer.new ≡ replicate (length buffer.old) byte }
{
    buffer.fill(byte);
}

// Writes a word and a number.
pub fn say(rt: &impl Print, word: &[u8], number: usize) -> io::Result<()> {
    rt.write_all(word)?;
    rt.print(number)
}

// Writes a refusal.
pub fn say_refused(rt: &impl Print, number: usize, record: usize) -> io::Result<()> {
    say(rt, b"refused ", number)?;
    say(rt, b" ", record)
}

// Writes a word and the checksum of some bytes.
pub fn say_checksum(rt: &impl Print, word: &[u8], bytes: &[u8]) -> io::Result<()> {
    rt.write_all(word)?;
    rt.print(fnv1a(bytes))
}
