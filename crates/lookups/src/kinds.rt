// Listing of the atomic concepts under one.
ghost use Rattle.std.specs.Prelude.{◌≡◌, ◌*◌, ◌≤◌, ◌<◌, length};
ghost use Rattle.catalogue.specs.Header.{concepts};
ghost use Rattle.layout.specs.Parts.{Sized};
ghost use Rattle.number_lists.specs.Lists.{Filled};
ghost use Rattle.lookups.specs.Listings.{atomic_under, kinds_under, Lists};

use super::pairs::has_pair;
use catalogue::{Concept, Refusal};
use read_checks::check_listing;

// Is concept c atomic and under d, by the store?
#[tactic(auto, using(store::proofs::Says::says_pair), unfolding(crate::specs::Listings::atomic_under))]
fn atomic_under(b: &[u8], c: usize, d: usize, store: &[u8]) -> bool
    requires { Sized b.now store.now × (c < concepts b.now) × (d < concepts b.now) }
    ensures { result ≡ atomic_under b.now store.now d c }
{
    let concept = Concept::at(b, c);
    (concept.kind == Concept::ATOMIC) & has_pair(b, c, d, store)
}

// Enters the atomic concepts under d, rising, and answers how many there are.
fn list_under(b: &[u8], d: usize, store: &[u8], list: &mut [u8]) -> usize
    requires { Sized b.now store.now × (d < concepts b.now) × (2 * concepts b.now ≤ length list.old) }
    ensures { Filled (kinds_under b.now d store.now) list.old result list.new }
{
    let n = catalogue::concepts(b);
    let mut count: usize = 0;
    for c in 0..n {
        count = number_lists::enter(list, count, c, atomic_under(b, c, d, store));
    }
    count
}

// Lists the atomic concepts under d, by the store, and answers how many there are.
#[tactic(auto, using(catalogue::proofs::HandedOn::handed_on, crate::proofs::Answered::lists_accepted, crate::proofs::Answered::lists_refused))]
pub fn listing(b: &[u8], d: usize, store: &[u8], list: &mut [u8]) -> Result<usize, Refusal>
    ensures { Lists b.now d store.now list.old result list.new }
{
    check_listing(b, d, store, list.len())?;
    Ok(list_under(b, d, store, list))
}
