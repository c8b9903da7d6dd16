// Lookup of a pair.
ghost use Rattle.std.specs.Prelude.{◌≡◌, ◌<◌};
ghost use Rattle.catalogue.specs.Header.{concepts};
ghost use Rattle.rules.specs.Rules.{pair};
ghost use Rattle.layout.specs.Parts.{Sized, held};
ghost use Rattle.lookups.specs.Answers.{looked_up};

use catalogue::Refusal;
use layout::pair_offset;
use read_checks::check_reading;

// Whether the store has the pair of concepts c and d.
#[tactic(auto, using(layout::proofs::Offsets::offset_limit, layout::proofs::Offsets::held_pair))]
pub fn has_pair(b: &[u8], c: usize, d: usize, store: &[u8]) -> bool
    requires { Sized b.now store.now × (c < concepts b.now) × (d < concepts b.now) }
    ensures { result ≡ held b.now store.now (pair c d) }
{
    rows::has(store, 8 * pair_offset(b, c) + d)
}

// Does C lie under D, by the store?
#[tactic(auto, using(catalogue::proofs::HandedOn::handed_on, crate::proofs::Answered::looked_up_lem, crate::proofs::Answered::looked_refused, store::proofs::Says::says_pair))]
pub fn lookup(b: &[u8], c: usize, d: usize, store: &[u8]) -> Result<bool, Refusal>
    ensures { result ≡ looked_up b.now c d store.now }
{
    check_reading(b, c, d, store)?;
    Ok(has_pair(b, c, d, store))
}
