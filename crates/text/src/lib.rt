// The listing program's texts, written into a buffer (document 01, Examples).
#![tactic(auto)]

pub mod lines; // lines.rt: the lines of pairs, and the text of an accepted catalogue

ghost use Rattle.std.specs.Prelude.{◌++◌, ◌+◌, ◌≤◌, length};
ghost use Rattle.text.specs.Text.{decimal, summary, refusal, pair_line, Appended};

pub use lines::listing_text;

// Texts are put into a buffer that is lent, from a place on, and the place after them is answered: nothing is allocated.

// Appends a text after the first `at` bytes of a buffer, and answers the place after it.
pub fn put_text(out: &mut [u8], at: usize, text: &[u8]) -> usize
    requires { at + length text.now ≤ length out.old }
    ensures { Appended text.now out.old at result out.new }
{
    let end = at + text.len();
    out[at..end].copy_from_slice(text);
    end
}

// Appends a number in decimal.
pub fn put_decimal(out: &mut [u8], at: usize, n: usize) -> usize
    requires { at + length (decimal n) ≤ length out.old }
    ensures { Appended (decimal n) out.old at result out.new }
{
    let mut digits = [0u8; 20];
    let k = io::decimal(n as u64, &mut digits);
    put_text(out, at, &digits[..k])
}

// Appends a label and a number.
fn put_labelled(out: &mut [u8], at: usize, label: &[u8], n: usize) -> usize
    requires { at + length (label.now ++ decimal n) ≤ length out.old }
    ensures { Appended (label.now ++ decimal n) out.old at result out.new }
{
    let place = put_text(out, at, label);
    put_decimal(out, place, n)
}

// The line of counts, at the start of a buffer.
pub fn summary_text(out: &mut [u8], n: usize, a: usize, pairs: usize, links: usize) -> usize
    requires { 112 ≤ length out.old }
    ensures { Appended (summary n a pairs links) out.old 0 result out.new }
{
    let concepts = put_labelled(out, 0, b"concepts ", n);
    let axioms = put_labelled(out, concepts, b" axioms ", a);
    let held = put_labelled(out, axioms, b" pairs ", pairs);
    let end = put_labelled(out, held, b" links ", links);
    put_text(out, end, b"\n")
}

// The line of a refusal, at the start of a buffer.
pub fn refusal_text(out: &mut [u8], number: usize) -> usize
    requires { 29 ≤ length out.old }
    ensures { Appended (refusal number) out.old 0 result out.new }
{
    let end = put_labelled(out, 0, b"refused ", number);
    put_text(out, end, b"\n")
}

// Appends the line of a pair of concepts.
pub fn put_pair(out: &mut [u8], at: usize, c: usize, d: usize) -> usize
    requires { at + length (pair_line c d) ≤ length out.old }
    ensures { Appended (pair_line c d) out.old at result out.new }
{
    let second = put_decimal(out, at, c);
    let end = put_labelled(out, second, b" ", d);
    put_text(out, end, b"\n")
}
