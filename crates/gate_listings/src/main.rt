// The listing program on each file of data/: none of a byte; 70,000 bytes, of which the first two say 65,535: longer than any total; a catalogue of 211
// concepts, 9 roles and 227 axioms, with 2,126 pairs to name; W1 with its last two axioms exchanged: question 9 refuses it; and a catalogue of 512 concepts
// and no roles, whose store takes every byte lent; its pairs reach row 511.
#![tactic(auto)]

use std::rt::Files;
use std::{fs, io};

// Lists a file, or says on standard error why it could not be opened.
fn list_file(rt: &(impl Print + Eprint + Files), path: &str) -> io::Result<()> {
    match fs::open(rt, path) {
        Ok(mut file) => {
            listings::run(rt, &mut file);
            Ok(())
        }
        Err(error) => eprintln!(rt; "{path}: {error}"),
    }
}

fn main(rt: HostRuntime) -> io::Result<()> {
    list_file(&rt, "empty")?;
    list_file(&rt, "long")?;
    list_file(&rt, "many")?;
    list_file(&rt, "refused")?;
    list_file(&rt, "wide")
}
