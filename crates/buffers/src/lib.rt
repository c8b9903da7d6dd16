// Buffers of zeros, and how long the largest catalogue asks them to be: 512 concepts, 16 roles, rows of 64 bytes.
#![tactic(auto)]

ghost use Rattle.buffers.specs.Zero.{Zero};

use catalogue::Concept;
use indexing::ROWS_END;

// One row.
pub const ROW: usize = Concept::MAX / 8;

// The rows of one partition.
pub const OWN: usize = (1 + Concept::ROLES) * ROW;

// A row for each concept.
pub const TABLE: usize = Concept::MAX * ROW;

// A row of what occurs, with room for its index.
pub const INDEX: usize = (ROWS_END + (Concept::MAX + Concept::MAX)) * ROW;

// A row for each role of each concept.
pub const PREDECESSORS: usize = Concept::MAX * Concept::ROLES * ROW;

// A bit for each three roles.
pub const TRIPLES: usize = Concept::ROLES * Concept::ROLES * Concept::ROLES / 8;

// The lengths in numbers.
const _: () = prove!(
    ROW == 64
        && OWN == 1088
        && TABLE == 32768
        && INDEX == 67776
        && PREDECESSORS == 524288
        && TRIPLES == 512
);

// So many bytes, all zero.
pub fn zeros<const N: usize>() -> [u8; N]
    ensures { Zero N result }
{
    [0u8; N]
}
