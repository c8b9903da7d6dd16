// The records of the four sections, by value, each with its constants, its constructor from bytes, and its reader.
ghost use Rattle.std.specs.Prelude.{◌≡◌, ◌+◌, ◌*◌, ◌≤◌, length};
ghost use Rattle.catalogue.specs.Words as words;
ghost use Rattle.catalogue.specs.Header.{inclusions_at, compositions_at, axioms_at};
ghost use Rattle.catalogue.specs.Values.{ConceptRead, InclusionRead, CompositionRead, AxiomRead};

use super::header;
use super::header::{number, word};

// A concept: its kind, and its two parts or zeros.
#[derive(Clone, Copy)]
pub struct Concept {
    pub kind: usize,
    pub first: usize,
    pub second: usize,
}

impl Concept {
    // The kinds are constants of the record's type, as document 01 has them.
    pub const ATOMIC: usize = 0;

    pub const TOP: usize = 1;

    pub const CONJUNCTION: usize = 2;

    pub const EXISTENTIAL: usize = 3;
    // The most concepts, and the most roles that they name.
    pub const MAX: usize = 512;

    pub const ROLES: usize = 16;

    pub const SIZE: usize = 6;

    // The concept that six bytes give.
    pub fn from_bytes(k0: u8, k1: u8, f0: u8, f1: u8, s0: u8, s1: u8) -> Concept
        ensures { (result.kind ≡ k0 + 256 * k1) × (result.first ≡ f0 + 256 * f1) × (result.second ≡ s0 + 256 * s1) }
    {
        Concept {
            kind: number(k0, k1),
            first: number(f0, f1),
            second: number(s0, s1),
        }
    }

    // Concept i of a catalogue.
    pub fn at(b: &[u8], i: usize) -> Concept
        requires { 26 + 6 * i ≤ length b.now }
        ensures { ConceptRead b.now i result }
    {
        let p = header::SIZE + Concept::SIZE * i;
        Concept::from_bytes(b[p], b[p + 1], b[p + 2], b[p + 3], b[p + 4], b[p + 5])
    }
}

// The three records below have no trait in common: their fields differ, and so do the sections that they are read from.

// An inclusion: the role `within` lies within the role `around`.
#[derive(Clone, Copy)]
pub struct Inclusion {
    pub within: usize,
    pub around: usize,
}

impl Inclusion {
    pub const MAX: usize = 64;

    pub const SIZE: usize = 4;

    // The inclusion that the four bytes at p give.
    pub fn from_slice(b: &[u8], p: usize) -> Inclusion
        requires { p + 4 ≤ length b.now }
        ensures { (result.within ≡ words.word b.now p) × (result.around ≡ words.word b.now (p + 2)) }
    {
        Inclusion {
            within: word(b, p),
            around: word(b, p + 2),
        }
    }

    // Inclusion k of a catalogue.
    pub fn at(b: &[u8], k: usize) -> Inclusion
        requires { (20 ≤ length b.now) × (inclusions_at b.now + 4 * k + 4 ≤ length b.now) }
        ensures { InclusionRead b.now k result }
    {
        Inclusion::from_slice(b, header::inclusions_at(b) + Inclusion::SIZE * k)
    }
}

// A composition: the roles `first` and `second`, and the role that they give.
#[derive(Clone, Copy)]
pub struct Composition {
    pub first: usize,
    pub second: usize,
    pub result: usize,
}

impl Composition {
    pub const MAX: usize = 64;

    pub const SIZE: usize = 6;

    // The composition that the six bytes at p give.
    pub fn from_slice(b: &[u8], p: usize) -> Composition
        requires { p + 6 ≤ length b.now }
        ensures { (result.first ≡ words.word b.now p) × (result.second ≡ words.word b.now (p + 2)) × (result.result ≡ words.word b.now (p + 4)) }
    {
        Composition {
            first: word(b, p),
            second: word(b, p + 2),
            result: word(b, p + 4),
        }
    }

    // Composition k of a catalogue.
    pub fn at(b: &[u8], k: usize) -> Composition
        requires { (20 ≤ length b.now) × (compositions_at b.now + 6 * k + 6 ≤ length b.now) }
        ensures { CompositionRead b.now k result }
    {
        Composition::from_slice(b, header::compositions_at(b) + Composition::SIZE * k)
    }
}

// An axiom: the concept `left` is subsumed by the concept `right`.
#[derive(Clone, Copy)]
pub struct Axiom {
    pub left: usize,
    pub right: usize,
}

impl Axiom {
    pub const MAX: usize = 4096;

    pub const SIZE: usize = 4;

    // The axiom that the four bytes at p give.
    pub fn from_slice(b: &[u8], p: usize) -> Axiom
        requires { p + 4 ≤ length b.now }
        ensures { (result.left ≡ words.word b.now p) × (result.right ≡ words.word b.now (p + 2)) }
    {
        Axiom {
            left: word(b, p),
            right: word(b, p + 2),
        }
    }

    // Axiom k of a catalogue.
    pub fn at(b: &[u8], k: usize) -> Axiom
        requires { (20 ≤ length b.now) × (axioms_at b.now + 4 * k + 4 ≤ length b.now) }
        ensures { AxiomRead b.now k result }
    {
        Axiom::from_slice(b, header::axioms_at(b) + Axiom::SIZE * k)
    }
}
