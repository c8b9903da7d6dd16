// Numbers of two bytes, and the header that has ten of them.
ghost use Rattle.std.specs.Prelude.{◌≡◌, ◌+◌, ◌*◌, ◌<◌, ◌≤◌, length};
ghost use Rattle.catalogue.specs.Words as words;
ghost use Rattle.catalogue.specs.Header as fields;

// The header's length in bytes.
pub const SIZE: usize = 20;

// A number from its two bytes, low byte first.
pub fn number(low: u8, high: u8) -> usize
    ensures { result ≡ low + 256 * high }
{
    low as usize + 256 * (high as usize)
}

// The number at a byte of the catalogue.
pub fn word(b: &[u8], at: usize) -> usize
    requires { at + 1 < length b.now }
    ensures { result ≡ words.word b.now at }
{
    number(b[at], b[at + 1])
}

// The ten fields, each by its name in document 01, as specs/Header has them: one function of a constant would have ten cases in its contract.

// The total length.
pub fn total(b: &[u8]) -> usize
    requires { 20 ≤ length b.now }
    ensures { result ≡ fields.total b.now }
{
    word(b, 0)
}

// The number of concepts.
pub fn concepts(b: &[u8]) -> usize
    requires { 20 ≤ length b.now }
    ensures { result ≡ fields.concepts b.now }
{
    word(b, 2)
}

// The number of roles.
pub fn roles(b: &[u8]) -> usize
    requires { 20 ≤ length b.now }
    ensures { result ≡ fields.roles b.now }
{
    word(b, 4)
}

// The number of inclusions.
pub fn inclusions(b: &[u8]) -> usize
    requires { 20 ≤ length b.now }
    ensures { result ≡ fields.inclusions b.now }
{
    word(b, 6)
}

// The number of compositions.
pub fn compositions(b: &[u8]) -> usize
    requires { 20 ≤ length b.now }
    ensures { result ≡ fields.compositions b.now }
{
    word(b, 8)
}

// The number of axioms.
pub fn axioms(b: &[u8]) -> usize
    requires { 20 ≤ length b.now }
    ensures { result ≡ fields.axioms b.now }
{
    word(b, 10)
}

// The offset of the concepts.
pub fn concepts_at(b: &[u8]) -> usize
    requires { 20 ≤ length b.now }
    ensures { result ≡ fields.concepts_at b.now }
{
    word(b, 12)
}

// The offset of the inclusions.
pub fn inclusions_at(b: &[u8]) -> usize
    requires { 20 ≤ length b.now }
    ensures { result ≡ fields.inclusions_at b.now }
{
    word(b, 14)
}

// The offset of the compositions.
pub fn compositions_at(b: &[u8]) -> usize
    requires { 20 ≤ length b.now }
    ensures { result ≡ fields.compositions_at b.now }
{
    word(b, 16)
}

// The offset of the axioms.
pub fn axioms_at(b: &[u8]) -> usize
    requires { 20 ≤ length b.now }
    ensures { result ≡ fields.axioms_at b.now }
{
    word(b, 18)
}
