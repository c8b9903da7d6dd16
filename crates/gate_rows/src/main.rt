// Prints what every function on rows answers on small rows, and what `count` and `next` answer on rows of several lengths.
#![tactic(auto)]

mod lengths;

use std::io;

// Writes bytes.
fn text(rt: &impl Print, s: &[u8]) -> io::Result<()> {
    rt.write_all(s)
}

// One number and a space.
fn show(rt: &impl Print, n: usize) -> io::Result<()> {
    rt.print(n)?;
    text(rt, b" ")
}

// The same of a byte.
fn show_byte(rt: &impl Print, x: u8) -> io::Result<()> {
    rt.print(x)?;
    text(rt, b" ")
}

// Whether bit i is set, as 1 or 0.
fn show_has(rt: &impl Print, row: &[u8; 3], i: usize) -> io::Result<()> {
    if rows::has(row, i) {
        show(rt, 1)?;
    } else {
        show(rt, 0)?;
    }
    Ok(())
}

// What `next` answers.
fn show_next(rt: &impl Print, row: &[u8; 3], from: usize) -> io::Result<()> {
    match rows::next(row, from) {
        Some(i) => show(rt, i),
        None => text(rt, b"none "),
    }
}

// The bytes of a row, whether any bit is set, and how many.
fn show_row(rt: &impl Print, row: &[u8; 3]) -> io::Result<()> {
    show_byte(rt, row[0])?;
    show_byte(rt, row[1])?;
    show_byte(rt, row[2])?;
    if rows::any(row) {
        text(rt, b"any ")?;
    } else {
        text(rt, b"none ")?;
    }
    show(rt, rows::count(row))
}

// Sets four bits, and starts the line of that row.
fn put_all(rt: &impl Print, row: &mut [u8; 3]) -> io::Result<()> {
    text(rt, b"\nput 0 7 8 19: ")?;
    rows::put(row, 0);
    rows::put(row, 7);
    rows::put(row, 8);
    rows::put(row, 19);
    Ok(())
}

// Clears two of them, likewise.
fn clear_two(rt: &impl Print, row: &mut [u8; 3]) -> io::Result<()> {
    text(rt, b"\nclear 7 8: ")?;
    rows::clear(row, 7);
    rows::clear(row, 8);
    Ok(())
}

// A line of what `has` answers.
fn show_bits(rt: &impl Print, row: &[u8; 3]) -> io::Result<()> {
    text(rt, b"\nhas 0 1 7 8 18 19 24 99: ")?;
    show_has(rt, row, 0)?;
    show_has(rt, row, 1)?;
    show_has(rt, row, 7)?;
    show_has(rt, row, 8)?;
    show_has(rt, row, 18)?;
    show_has(rt, row, 19)?;
    show_has(rt, row, 24)?;
    show_has(rt, row, 99)
}

// A line of what `next` answers.
fn show_nexts(rt: &impl Print, row: &[u8; 3]) -> io::Result<()> {
    text(rt, b"\nnext 0 1 7 8 9 19 20 24 1000000: ")?;
    show_next(rt, row, 0)?;
    show_next(rt, row, 1)?;
    show_next(rt, row, 7)?;
    show_next(rt, row, 8)?;
    show_next(rt, row, 9)?;
    show_next(rt, row, 19)?;
    show_next(rt, row, 20)?;
    show_next(rt, row, 24)?;
    show_next(rt, row, 1000000)
}

fn main(rt: HostRuntime) -> io::Result<()> {
    let mut row = [0u8; 3];
    let other = [240u8, 0, 129];
    text(&rt, b"empty: ")?;
    show_row(&rt, &row)?;
    show_next(&rt, &row, 0)?;
    put_all(&rt, &mut row)?;
    show_row(&rt, &row)?;
    show_bits(&rt, &row)?;
    show_nexts(&rt, &row)?;
    clear_two(&rt, &mut row)?;
    show_row(&rt, &row)?;
    show_nexts(&rt, &row)?;
    join(&rt, &mut row, &other)?;
    show_row(&rt, &row)?;
    put_last(&rt, &mut row)?;
    show_row(&rt, &row)?;
    lengths::show_lengths(&rt)?;
    text(&rt, b"\n")
}

// Joins another row, and starts the line.
fn join(rt: &impl Print, row: &mut [u8; 3], other: &[u8; 3]) -> io::Result<()> {
    text(rt, b"\nor 240 0 129: ")?;
    rows::or_into(row, other);
    Ok(())
}

// Sets a bit of the last byte, taken as a row of its own, and starts the line.
fn put_last(rt: &impl Print, row: &mut [u8; 3]) -> io::Result<()> {
    text(rt, b"\nrow 2 of three, bit 6: ")?;
    rows::put_in_row(row, 1, 2, 6);
    Ok(())
}
