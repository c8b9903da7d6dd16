// A checksum, by which a program says in one number what a long buffer holds.
#![tactic(auto)]

ghost use Rattle.std.specs.Prelude.{◌≡◌};
ghost use Rattle.checksum.specs.Fnv as fnv;

// One byte more.
#[tactic(auto, unfolding(crate::specs::Fnv::step))]
fn step(hash: u32, byte: u8) -> u32
    ensures { result ≡ fnv.step hash byte }
{
    (hash ^ byte as u32).wrapping_mul(16777619)
}

// The FNV-1a checksum of the bytes, with 32 bits.
#[tactic(auto, unfolding(crate::specs::Fnv::hash))]
pub fn fnv1a(bytes: &[u8]) -> u64
    ensures { result ≡ fnv.hash bytes.now }
{
    bytes
        .iter()
        .fold(2166136261, |hash, byte| step(hash, *byte)) as u64
}
