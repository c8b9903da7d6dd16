// The bytes of a list of calls, and what is asked of them before the first call.
ghost use Rattle.std.specs.Prelude.{◌*◌, ◌<◌, ◌≡◌, length};
ghost use Rattle.call_lists.specs.Requests.{last_kind, call_right, carried};

use super::Fault;
use catalogue::checks::first_fault;
use catalogue::word;

// The bytes of a call: its kind, two lengths, and room for two lists.
pub const SIZE: usize = PUT + ROOM;

// Where the two lists of a call have their room, and how many bytes each.
pub const OUT: usize = 5;

pub const PUT: usize = OUT + ROOM;

pub const ROOM: usize = 260;

// The bytes of list that each call is lent: room for the names of 512 concepts.
pub const LIST: usize = 1024;

// The numbers of an answer.
pub const ENTRIES: usize = 6;

// The highest kind of call k: the first is a classify.
fn last_kind(k: usize) -> u8
    ensures { result ≡ last_kind k }
{
    if k == 0 {
        return 0;
    }
    1
}

// Is call k whole, of a kind that it may be, and is there room for its lists?
fn call_right(calls: &[u8], k: usize) -> bool
    requires { 525 * k < length calls.now }
    ensures { result ≡ call_right calls.now k }
{
    let at = SIZE * k;
    if !(at + SIZE <= calls.len()) {
        return false;
    }
    let last = last_kind(k);
    (calls[at] <= last) & (word(calls, at + 1) <= ROOM) & (word(calls, at + 3) <= ROOM)
}

// How many calls there are, if every one is right and there is room for so many, in lists and answers of these lengths.
pub fn check_calls(calls: &[u8], lists: usize, answers: usize) -> Result<usize, Fault>
    ensures { result ≡ carried calls.now lists answers }
{
    let count = (calls.len() + (SIZE - 1)) / SIZE;
    let bad = first_fault(count, |k| call_right(calls, k));
    if bad < count {
        return Err(Fault::BadCall(bad));
    }
    if lists / LIST < count {
        return Err(Fault::ShortLists);
    }
    if answers / ENTRIES < count {
        return Err(Fault::ShortAnswers);
    }
    Ok(count)
}
