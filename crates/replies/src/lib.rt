// What the calls for C and Rust reply: a number returned and four entries written, and the contract of each call.
#![tactic(auto, using(catalogue::proofs::HandedOn::handed_on))]

ghost use Rattle.std.specs.Prelude.{◌≡◌, ◌≤◌, ◌<◌, ◌^◌, length};
ghost use Rattle.replies.specs.Answers.{four, returned, answered, TellsShort, Given};
ghost use Rattle.replies.specs.Check.{check_reply};
ghost use Rattle.replies.specs.Classify.{classify_reply};
ghost use Rattle.replies.specs.Change.{change_reply};
ghost use Rattle.replies.specs.Lookups.{lookup_reply, list_reply, row_reply};
ghost use Rattle.replies.specs.Write.{write_reply};

use buffer_sizes::Sizes;
use catalogue::Refusal;
use change_contract::Changed;
use classification::Classified;
use row_parts::Place;

// How many entries an answer has at least.
pub const ENTRIES: usize = 4;

// Returned where one has fewer.
pub const SHORT_ANSWER: usize = 65535;

// Whether an answer has fewer.
pub fn is_short(answer: &[u64]) -> bool
    ensures { TellsShort answer.now result }
{
    answer.len() < ENTRIES
}

// The four entries of an accepted answer. What an exported call replies is these, or the refusal.
#[derive(Clone, Copy)]
pub struct Entries {
    pub first: usize,
    pub second: usize,
    pub third: usize,
    pub fourth: usize,
}

// Writes the four entries of an accepted answer.
#[tactic(auto, unfolding(crate::specs::Answers::answered))]
fn put_answer(answer: &mut [u64], entries: Entries)
    requires { 4 ≤ length answer.old }
    ensures { answer.new ≡ answered entries answer.old }
{
    answer[0] = entries.first as u64;
    answer[1] = entries.second as u64;
    answer[2] = entries.third as u64;
    answer[3] = entries.fourth as u64;
}

// Gives a reply: 0 where accepted, with the entries written, and number + 65,536 · record where refused.
pub fn give(answer: &mut [u64], reply: Result<Entries, Refusal>) -> usize
    requires { (4 ≤ length answer.old) × (returned reply < 2 ^ 64) }
    ensures { Given reply answer.old result answer.new }
{
    match reply {
        Ok(entries) => {
            put_answer(answer, entries);
            0
        }
        Err(e) => e.number + 65536 * e.at,
    }
}

// The reply of a check: bytes of a store, of a work space and of a list, and the most that write gives.
pub fn check_reply(sizes: Result<Sizes, Refusal>) -> Result<Entries, Refusal>
    ensures { result ≡ check_reply sizes }
{
    let s = sizes?;
    Ok(Entries {
        first: s.store,
        second: s.work,
        third: s.list,
        fourth: s.output,
    })
}

// The reply of a classification: pairs, links, 0, 0.
pub fn classify_reply(classified: Result<Classified, Refusal>) -> Result<Entries, Refusal>
    ensures { result ≡ classify_reply classified }
{
    let c = classified?;
    Ok(Entries {
        first: c.pairs,
        second: c.links,
        third: 0,
        fourth: 0,
    })
}

// The reply of a change: removed, returned, gained, and the count of concepts listed as touched.
pub fn change_reply(changed: Result<Changed, Refusal>) -> Result<Entries, Refusal>
    ensures { result ≡ change_reply changed }
{
    let c = changed?;
    Ok(Entries {
        first: c.removed,
        second: c.returned,
        third: c.gained,
        fourth: c.touched,
    })
}

// Entries of one number: it, 0, 0, 0.
fn lone(first: usize) -> Entries
    ensures { result ≡ four first 0 0 0 }
{
    Entries {
        first,
        second: 0,
        third: 0,
        fourth: 0,
    }
}

// The reply of a lookup: 1 for yes or 0 for no, 0, 0, 0.
pub fn lookup_reply(looked: Result<bool, Refusal>) -> Result<Entries, Refusal>
    ensures { result ≡ lookup_reply looked }
{
    let has = looked?;
    Ok(lone(if has { 1 } else { 0 }))
}

// The reply of a listing: count, 0, 0, 0.
pub fn list_reply(listed: Result<usize, Refusal>) -> Result<Entries, Refusal>
    ensures { result ≡ list_reply listed }
{
    let count = listed?;
    Ok(lone(count))
}

// The reply to a row asked for: its offset in the store, its width, 0, 0.
pub fn row_reply(handed: Result<Place, Refusal>) -> Result<Entries, Refusal>
    ensures { result ≡ row_reply handed }
{
    let place = handed?;
    Ok(Entries {
        first: place.offset,
        second: place.width,
        third: 0,
        fourth: 0,
    })
}

// The reply of a writing: length, 0, 0, 0.
pub fn write_reply(wrote: Result<usize, Refusal>) -> Result<Entries, Refusal>
    ensures { result ≡ write_reply wrote }
{
    let long = wrote?;
    Ok(lone(long))
}
