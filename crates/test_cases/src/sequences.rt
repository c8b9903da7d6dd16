// Bytes and entries written one after the other.
use super::say;
use std::io;

// Writes bytes in hexadecimal digits.
pub fn say_digits(rt: &impl Print, bytes: &[u8]) -> io::Result<()> {
    for byte in bytes {
        print!(rt; "{byte:02x}")?;
    }
    Ok(())
}

// Writes what an exported call returned, and the entries of its answer.
pub fn say_reply(rt: &impl Print, returned: usize, answer: &[u64]) -> io::Result<()> {
    say(rt, b"returned ", returned)?;
    for entry in answer {
        print!(rt; " {entry}")?;
    }
    Ok(())
}
