// What `count` and `next` answer on rows of several lengths. A row's words are its bytes eight by eight from the start; the bytes left over are its
// rest. Patterns have numbers: 0 every bit, 1 the first and last bit of each word and of the rest, 2 every fifth bit, 3 the last bit alone, 4 every bit
// of the words, 5 no bit.
ghost use Rattle.std.specs.Prelude.{◌≡◌, ◌+◌, ◌*◌, ◌^◌, ◌≤◌, ◌<◌, length};

use super::text;
use rows::marked;
use std::io;

// Whether bit i of so many is the first or last of a word or of the rest.
fn is_edge(i: usize, bits: usize) -> bool
    requires { i < bits }
{
    (i % 64 == 0) | (i % 64 == 63) | (i + 1 == bits)
}

// Whether pattern p sets bit i of so many.
fn sets(p: usize, i: usize, bits: usize) -> bool
    requires { i < bits }
{
    match p {
        0 => true,
        1 => is_edge(i, bits),
        2 => i % 5 == 0,
        3 => i + 1 == bits,
        4 => i < bits / 64 * 64,
        _ => false,
    }
}

// Sets the bits of pattern p alone.
fn mark(row: &mut [u8], p: usize)
    requires { length row.old ≤ 1048576 }
{
    let bits = 8 * row.len();
    for i in 0..bits {
        rows::clear(row, i);
        rows::put_if(row, i, sets(p, i, bits));
    }
}

// A number after a space.
fn say(rt: &impl Print, n: usize) -> io::Result<()> {
    text(rt, b" ")?;
    rt.print(n)
}

// A bit's number, and what `next` answers from it on.
fn say_from(rt: &impl Print, row: &[u8], from: usize) -> io::Result<()>
    requires { length row.now ≤ 1048576 }
{
    say(rt, from)?;
    text(rt, b":")?;
    match rows::next(row, from) {
        Some(i) => rt.print(i),
        None => text(rt, b"none"),
    }
}

// Whether two numbers are at most two apart.
fn is_near(i: usize, k: usize) -> bool
    requires { (i < 2 ^ 32) × (k < 2 ^ 32) }
{
    (i <= k + 2) & (k <= i + 2)
}

// Whether a bit is near the row's start, its second word, its rest or its end.
fn is_place(i: usize, bits: usize) -> bool
    requires { (i < 2 ^ 32) × (bits < 2 ^ 32) }
{
    is_near(i, 0) | is_near(i, 64) | is_near(i, bits / 64 * 64) | is_near(i, bits)
}

// What `next` answers from such bits on.
fn say_places(rt: &impl Print, row: &[u8]) -> io::Result<()>
    requires { length row.now ≤ 1048576 }
{
    let bits = 8 * row.len();
    for i in 0..bits + 67 {
        if is_place(i, bits) {
            say_from(rt, row, i)?;
        }
    }
    Ok(())
}

// The same, and then from far past the end.
fn say_nexts(rt: &impl Print, row: &[u8]) -> io::Result<()>
    requires { length row.now ≤ 1048576 }
{
    text(rt, b" next")?;
    say_places(rt, row)?;
    say_from(rt, row, 1000000000)?;
    say_from(rt, row, 18446744073709551615)
}

// A checksum with one number more.
fn mix(sum: usize, n: usize) -> usize
    requires { (sum < 2 ^ 32) × (n < 2 ^ 32) }
    ensures { result < 2 ^ 32 }
{
    (31 * sum + n) % 4294967296
}

// A number, if it is to be shown.
fn say_if(rt: &impl Print, shown: bool, n: usize) -> io::Result<()> {
    if shown {
        say(rt, n)?;
    }
    Ok(())
}

// The set bits, found by `marked` one after the other: each if it is to be shown, how many there are, and their checksum.
fn say_walk(rt: &impl Print, row: &[u8], shown: bool) -> io::Result<()>
    requires { length row.now ≤ 1048576 }
{
    let mut found = 0;
    let mut sum = 0;
    for i in marked(row, 8 * row.len()) {
        say_if(rt, shown, i)?;
        found += 1;
        sum = mix(sum, i);
    }
    text(rt, b" finds")?;
    say(rt, found)?;
    text(rt, b" sum")?;
    say(rt, sum)
}

// Name p of several, each of twenty letters.
fn say_name(rt: &impl Print, names: &[u8], p: usize) -> io::Result<()>
    requires { 20 * p + 20 ≤ length names.now }
{
    let start = 20 * p;
    let end = start + 20;
    text(rt, &names[start..end])
}

// Starts a line: the row's length and the name of pattern p, or of single bits.
fn start(rt: &impl Print, row: &[u8], p: usize) -> io::Result<()>
    requires { p < 7 }
{
    text(rt, b"\n")?;
    rt.print(row.len())?;
    say_name(
        rt,
        b" bytes, whole: count bytes, edges: count bytes, fives: count bytes, final: count bytes, words: count bytes, empty: count bytes, alone: edges",
        p,
    )
}

// The line of a row of pattern p.
fn say_line(rt: &impl Print, row: &[u8], p: usize) -> io::Result<()>
    requires { (length row.now ≤ 1048576) × (p < 6) }
{
    start(rt, row, p)?;
    say(rt, rows::count(row))?;
    text(rt, b" walk")?;
    say_walk(rt, row, (p == 1) & (row.len() < 100))?;
    say_nexts(rt, row)
}

// A row with bit i alone: how many bits are set, and what `next` answers from the start, from the bit and from past it on.
fn say_single(rt: &impl Print, row: &[u8], i: usize) -> io::Result<()>
    requires { (length row.now ≤ 1048576) × (i < 8 * length row.now) }
{
    text(rt, b" |")?;
    say(rt, rows::count(row))?;
    say_from(rt, row, 0)?;
    say_from(rt, row, i)?;
    say_from(rt, row, i + 1)
}

// Sets bit i of a clear row for that.
fn show_single(rt: &impl Print, row: &mut [u8], i: usize) -> io::Result<()>
    requires { (length row.old ≤ 1048576) × (i < 8 * length row.old) }
{
    rows::put(row, i);
    say_single(rt, row, i)?;
    rows::clear(row, i);
    Ok(())
}

// The line of the bits at edges, one at a time in a clear row.
fn show_singles(rt: &impl Print, row: &mut [u8]) -> io::Result<()>
    requires { length row.old ≤ 1048576 }
{
    let bits = 8 * row.len();
    start(rt, row, 6)?;
    for i in 0..bits {
        if is_edge(i, bits) {
            show_single(rt, row, i)?;
        }
    }
    Ok(())
}

// Sets the bits of pattern p alone, and writes the line. After the last pattern, which is clear, come the single bits of a short row.
fn show(rt: &impl Print, row: &mut [u8], p: usize) -> io::Result<()>
    requires { (length row.old ≤ 1048576) × (p < 6) }
{
    mark(row, p);
    say_line(rt, row, p)?;
    if (p == 5) & (row.len() < 100) {
        show_singles(rt, row)?;
    }
    Ok(())
}

// The lengths of the rows, in bytes.
fn length_at(k: usize) -> usize
    ensures { result ≤ 1048576 }
{
    match k {
        0 => 0,
        1 => 1,
        2 => 7,
        3 => 8,
        4 => 9,
        5 => 63,
        6 => 64,
        7 => 65,
        8 => 1048575,
        _ => 1048576,
    }
}

// The lines of rows of each of ten lengths and six patterns.
fn show_rows(rt: &impl Print, row: &mut [u8]) -> io::Result<()>
    requires { length row.old ≡ 1048576 }
{
    for k in 0..60usize {
        let n = length_at(k / 6);
        show(rt, &mut row[..n], k % 6)?;
    }
    Ok(())
}

// The same, each row the start of one of the longest length; what lies past it is set at first.
pub fn show_lengths(rt: &impl Print) -> io::Result<()> {
    let mut row = [255u8; 1048576];
    show_rows(rt, &mut row)
}
