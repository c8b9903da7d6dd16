// A reader over a catalogue: the lent bytes together with a position (document 01, Catalogue bytes).
// The functions over the struct are thin: the work is done by functions on a slice and numbers.
#![tactic(auto)]

ghost use Rattle.std.specs.Prelude.{◌≡◌, ◌+◌, ◌*◌, ◌/◌, ◌%◌, ◌^◌, ◌<◌, ◌≤◌, length, set};
ghost use Rattle.catalogue.specs.Words as words;
ghost use Rattle.reader.specs.Copied.{copied};

use catalogue::word;

#[derive(Clone, Copy)]
pub struct Reader<'a> {
    pub src: &'a [u8],
    pub at: usize,
}

// A reader at a byte of the catalogue.
pub fn new<'a>(src: &'a [u8], at: usize) -> Reader<'a>
    ensures { (result.src ≡ src.entry) × (result.at ≡ at) }
{
    Reader { src, at }
}

// The number at the reader's position.
pub fn number<'a>(r: Reader<'a>) -> usize
    requires { r.at + 1 < length r.src.now }
    ensures { result ≡ words.word r.entry.src.now r.entry.at }
{
    word(r.src, r.at)
}

// The reader moved on by a record's size.
pub fn advanced<'a>(r: Reader<'a>, size: usize) -> Reader<'a>
    requires { r.at + size < 2 ^ 64 }
    ensures { (result.src ≡ r.entry.src) × (result.at ≡ r.entry.at + size) }
{
    Reader {
        src: r.src,
        at: r.at + size,
    }
}

// The number a size after a position, read through a reader that moves on by it.
pub fn number_after(src: &[u8], at: usize, size: usize) -> usize
    requires { at + size + 1 < length src.now }
    ensures { result ≡ words.word src.now (at + size) }
{
    number(advanced(new(src, at), size))
}

// Writes a number as two bytes, low byte first.
pub fn put_number(dst: &mut [u8], to: usize, n: usize)
    requires { (to + 1 < length dst.old) × (n < 65536) }
    ensures { dst.new ≡ set (set dst.old to (n % 256)) (to + 1) (n / 256) }
{
    dst[to] = (n % 256) as u8;
    dst[to + 1] = (n / 256) as u8;
}

// Copies numbers of a catalogue, two bytes each, from one byte on to another.
pub fn copy_numbers(src: &[u8], at: usize, dst: &mut [u8], to: usize, count: usize)
    requires { (at + 2 * count ≤ length src.now) × (to + 2 * count ≤ length dst.old) }
    ensures { dst.new ≡ copied src.now at dst.old to (2 * count) }
{
    for k in 0..count {
        let n = number_after(src, at, 2 * k);
        put_number(dst, to + 2 * k, n);
    }
}
