// Builds catalogues and writes what contains what, what reaches what, and numbers read and copied by a reader. The first shares parts
// so much that a recursion without marks would make over 2^350 calls; the others have role inclusions in a falling chain and in a cycle.
#![tactic(auto)]

ghost use Rattle.std.specs.Prelude.{◌+◌, ◌≤◌, ◌<◌, length};

use catalogue::{Concept, Inclusion};
use reader::{copy_numbers, number_after, put_number};
use std::io;
use structure::Square;

// Writes the total and the counts of a catalogue with no compositions and no axioms.
fn put_counts(out: &mut [u8], n: usize, m: usize, h: usize)
    requires in_bounds { 4096 ≤ length out.old }
    requires n_bound { (n ≤ 512) × (m ≤ 16) × (h ≤ 64) }
{
    put_number(out, 0, 20 + 6 * n + 4 * h);
    put_number(out, 2, n);
    put_number(out, 4, m);
    put_number(out, 6, h);
    put_number(out, 8, 0);
    put_number(out, 10, 0);
}

// Writes the offsets of its four sections.
fn put_offsets(out: &mut [u8], n: usize, h: usize)
    requires in_bounds { 4096 ≤ length out.old }
    requires n_bound { (n ≤ 512) × (h ≤ 64) }
{
    put_number(out, 12, 20);
    put_number(out, 14, 20 + 6 * n);
    put_number(out, 16, 20 + 6 * n + 4 * h);
    put_number(out, 18, 20 + 6 * n + 4 * h);
}

// Writes concept i: below 3 an atomic one; 510 an existential with role 1 and concept 0; any other the conjunction of the two before it.
fn put_concept(out: &mut [u8], i: usize)
    requires in_bounds { 4096 ≤ length out.old }
    requires i_bound { i < 512 }
{
    if i < 3 {
        put_record(out, i, Concept::ATOMIC, 0, 0);
    } else if i == 510 {
        put_record(out, i, Concept::EXISTENTIAL, 1, 0);
    } else {
        put_record(out, i, Concept::CONJUNCTION, i - 1, i - 2);
    }
}

// Writes the three numbers of concept i.
fn put_record(out: &mut [u8], i: usize, kind: usize, first: usize, second: usize)
    requires in_bounds { 4096 ≤ length out.old }
    requires i_bound { (i < 512) × (kind < 4) × (first < 512) × (second < 512) }
{
    let at = 20 + 6 * i;
    put_number(out, at, kind);
    put_number(out, at + 2, first);
    put_number(out, at + 4, second);
}

// Writes inclusion k, of role r in role s, after n concepts.
fn put_inclusion(out: &mut [u8], n: usize, k: usize, r: u8, s: u8)
    requires in_bounds { 4096 ≤ length out.old }
    requires n_bound { (n ≤ 512) × (k < 64) }
{
    let at = 20 + 6 * n + 4 * k;
    put_number(out, at, r as usize);
    put_number(out, at + 2, s as usize);
}

// Writes n such concepts.
fn put_concepts(out: &mut [u8], n: usize)
    requires in_bounds { 4096 ≤ length out.old }
    requires n_bound { n ≤ 512 }
{
    for i in 0..n {
        put_concept(out, i);
    }
}

// Writes the inclusions of each role of a path in the next.
fn put_inclusions(out: &mut [u8], n: usize, path: &[u8])
    requires in_bounds { 4096 ≤ length out.old }
    requires n_bound { (n ≤ 512) × (length path.now ≤ 64) }
{
    for (k, pair) in path.windows(2).enumerate() {
        put_inclusion(out, n, k, pair[0], pair[1]);
    }
}

// Writes a catalogue of n such concepts, m roles and the inclusions along a path, and says its length.
fn put_catalogue(out: &mut [u8], n: usize, m: usize, path: &[u8]) -> usize
    requires in_bounds { 4096 ≤ length out.old }
    requires n_bound { (n ≤ 512) × (m ≤ 16) × (1 ≤ length path.now) × (length path.now ≤ 64) }
    ensures { (20 ≤ result) × (result ≤ length out.new) }
{
    let h = path.len() - 1;
    put_counts(out, n, m, h);
    put_offsets(out, n, h);
    put_concepts(out, n);
    put_inclusions(out, n, path);
    20 + Concept::SIZE * n + Inclusion::SIZE * h
}

// Writes two numbers with a word between them.
fn say(rt: &impl Print, i: usize, word: &[u8], j: usize) -> io::Result<()> {
    rt.print(i)?;
    rt.write_all(word)?;
    rt.print(j)
}

// Writes the number of the question that refuses a catalogue.
fn report_refused(rt: &impl Print, number: usize) -> io::Result<()> {
    println!(rt; "refused {number}")
}

// Writes whether concept i of a catalogue contains concept j.
fn report_contains(rt: &impl Print, b: &[u8], i: usize, j: usize) -> io::Result<()> {
    match catalogue::check(b) {
        Ok(()) => {
            let n = catalogue::concepts(b);
            if i < n {
                say(rt, i, b" contains ", j)?;
                let mut row = [0u8; Concept::MAX / 8];
                if structure::contains(b, i, j, &mut row) {
                    rt.write_all(b": yes\n")?;
                } else {
                    rt.write_all(b": no\n")?;
                }
            }
            Ok(())
        }
        Err(e) => report_refused(rt, e.number),
    }
}

// Writes a number after others.
fn report_next(rt: &impl Print, n: usize) -> io::Result<()> {
    print!(rt; " {n}")
}

// Writes the roles that role r reaches.
fn report_row(rt: &impl Print, square: &Square, m: usize, r: usize) -> io::Result<()>
    requires { (m ≤ 16) × (r < m) }
{
    print!(rt; "{r} reaches")?;
    for s in 0..m {
        if structure::reaches(square, r, s) {
            report_next(rt, s)?;
        }
    }
    rt.write_all(b"\n")
}

// Writes each role of a square below m with the roles that it reaches.
fn report_square(rt: &impl Print, square: &Square, m: usize) -> io::Result<()>
    requires { m ≤ 16 }
{
    for r in 0..m {
        report_row(rt, square, m, r)?;
    }
    Ok(())
}

// Writes the role reach of a catalogue.
fn report_reach(rt: &impl Print, b: &[u8]) -> io::Result<()> {
    match catalogue::check(b) {
        Ok(()) => {
            let square = structure::close_roles(b);
            report_square(rt, &square, catalogue::roles(b))
        }
        Err(e) => report_refused(rt, e.number),
    }
}

// Writes the number that a reader finds some bytes after a position.
fn report_number(rt: &impl Print, b: &[u8], at: usize, size: usize) -> io::Result<()>
    requires { at + size + 1 < length b.now }
{
    say(rt, at, b" and ", size)?;
    println!(rt; " bytes on: {}", number_after(b, at, size))
}

// A byte as a number.
fn wide(x: u8) -> usize {
    x as usize
}

// Writes bytes on a line.
fn report_bytes(rt: &impl Print, bytes: &[u8; 8]) -> io::Result<()> {
    for byte in bytes {
        report_next(rt, wide(*byte))?;
    }
    rt.write_all(b"\n")
}

// The counts of concepts and roles and an offset, and two offsets copied between bytes that stay.
fn report_reader(rt: &impl Print, b: &[u8]) -> io::Result<()>
    requires { 20 ≤ length b.now }
{
    report_number(rt, b, 0, 2)?;
    report_number(rt, b, 2, 2)?;
    report_number(rt, b, 12, 2)?;
    report_number(rt, b, 12, 0)?;
    let mut copy = [7u8; 8];
    copy_numbers(b, 12, &mut copy, 2, 2);
    rt.write_all(b"copied:")?;
    report_bytes(rt, &copy)
}

// Every concept is in the last, by over 2^350 ways down to 1 and 2, and by one to 0: through 510, in which no other is.
fn report_shared_parts(rt: &impl Print, space: &mut [u8]) -> io::Result<()>
    requires { 4096 ≤ length space.old }
{
    let alone = [0u8];
    let n = put_catalogue(space, 512, 2, &alone);
    let b = &space[..n];
    report_reader(rt, b)?;
    report_contains(rt, b, 511, 1)?;
    report_contains(rt, b, 511, 2)?;
    report_contains(rt, b, 511, 0)?;
    report_contains(rt, b, 510, 0)?;
    report_contains(rt, b, 510, 1)?;
    report_contains(rt, b, 509, 0)?;
    report_contains(rt, b, 509, 1)?;
    report_contains(rt, b, 1, 511)?;
    report_contains(rt, b, 511, 511)
}

// Role reach with an inclusion of each role of a path in the next.
fn report_path(rt: &impl Print, space: &mut [u8], path: &[u8]) -> io::Result<()>
    requires in_bounds { 4096 ≤ length space.old }
    requires in_bounds_2 { (1 ≤ length path.now) × (length path.now ≤ 64) }
{
    let n = put_catalogue(space, 1, 16, path);
    report_reach(rt, &space[..n])
}

// From role 15 down to 0, one by one.
fn report_falling(rt: &impl Print, space: &mut [u8]) -> io::Result<()>
    requires { 4096 ≤ length space.old }
{
    let path = [15u8, 14, 13, 12, 11, 10, 9, 8, 7, 6, 5, 4, 3, 2, 1, 0];
    report_path(rt, space, &path)
}

// From role 15 down to 0 by threes, and up to 15 again.
fn report_cycle(rt: &impl Print, space: &mut [u8]) -> io::Result<()>
    requires { 4096 ≤ length space.old }
{
    let path = [15u8, 12, 9, 6, 3, 0, 15];
    report_path(rt, space, &path)
}

fn main(rt: HostRuntime) -> io::Result<()> {
    let mut space = [0u8; 65536];
    report_shared_parts(&rt, &mut space)?;
    report_falling(&rt, &mut space)?;
    report_cycle(&rt, &mut space)
}
