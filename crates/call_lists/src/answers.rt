// One call, and its answer as six numbers.
ghost use Rattle.std.specs.Prelude.{◌≡◌, [], ◌∷◌, length};
ghost use Rattle.change_contract.specs.Edits.{lend};
ghost use Rattle.demands.specs.Sequences.{classified, changed};
ghost use Rattle.call_lists.specs.Requests.{request_by};
ghost use Rattle.call_lists.specs.Running.{entries_of, Answers};

use catalogue::Refusal;
use change::change;
use change_contract::Changed;
use classification::{Classified, classify};

// Enters six numbers.
fn enter(entries: &mut [usize], number: usize, at: usize, p: usize, q: usize, r: usize, s: usize)
    requires { length entries.old ≡ 6 }
    ensures { entries.new ≡ number ∷ at ∷ p ∷ q ∷ r ∷ s ∷ [] }
{
    entries[0] = number;
    entries[1] = at;
    entries[2] = p;
    entries[3] = q;
    entries[4] = r;
    entries[5] = s;
}

// Enters what a classify answered.
fn enter_classified(answer: Result<Classified, Refusal>, entries: &mut [usize])
    requires { length entries.old ≡ 6 }
    ensures { entries.new ≡ entries_of (classified answer) }
{
    match answer {
        Ok(counts) => enter(entries, 0, 0, counts.pairs, counts.links, 0, 0),
        Err(e) => enter(entries, e.number, e.at, 0, 0, 0, 0),
    }
}

// Enters what a change answered.
fn enter_changed(answer: Result<Changed, Refusal>, entries: &mut [usize])
    requires { length entries.old ≡ 6 }
    ensures { entries.new ≡ entries_of (changed answer) }
{
    match answer {
        Ok(counts) => enter(
            entries,
            0,
            0,
            counts.removed,
            counts.returned,
            counts.gained,
            counts.touched,
        ),
        Err(e) => enter(entries, e.number, e.at, 0, 0, 0, 0),
    }
}

// The call of a kind: classify or change.
pub fn call(
    kind: u8,
    b: &[u8],
    withdrawn: &[u8],
    added: &[u8],
    store: &mut [u8],
    work: &mut [u8],
    list: &mut [u8],
    entries: &mut [usize],
)
    requires { length entries.old ≡ 6 }
    ensures { Answers b.now (request_by kind withdrawn.now added.now) (lend store.old work.old list.old) (lend store.new work.new list.new) entries.new }
{
    match kind {
        0 => {
            let answer = classify(b, store, work);
            enter_classified(answer, entries)
        }
        _ => {
            let answer = change(b, withdrawn, added, store, work, list);
            enter_changed(answer, entries)
        }
    }
}
