// The calls of a list, one after the other.
ghost use Rattle.std.specs.Prelude.{◌<◌};
ghost use Rattle.call_lists.specs.Running.{space, AnswersAt, Runs, Runnable, CarriesOut};

use super::Fault;
use super::answers::call;
use super::requests::{ENTRIES, LIST, OUT, PUT, SIZE, check_calls};
use catalogue::word;

// Call k, with its own parts of the lists and of the answers.
fn call_at(
    b: &[u8],
    calls: &[u8],
    count: usize,
    k: usize,
    store: &mut [u8],
    work: &mut [u8],
    lists: &mut [u8],
    answers: &mut [usize],
)
    requires { Runnable calls.now count (space store.old work.old lists.old answers.old) × (k < count) }
    ensures { AnswersAt b.now calls.now k (space store.old work.old lists.old answers.old) (space store.new work.new lists.new answers.new) }
{
    let at = SIZE * k;
    let kind = calls[at];
    let out = at + OUT;
    let out_end = out + word(calls, at + 1);
    let put = at + PUT;
    let put_end = put + word(calls, at + 3);
    let list = LIST * k;
    let list_end = list + LIST;
    let entry = ENTRIES * k;
    let entry_end = entry + ENTRIES;
    call(
        kind,
        b,
        &calls[out..out_end],
        &calls[put..put_end],
        store,
        work,
        &mut lists[list..list_end],
        &mut answers[entry..entry_end],
    );
}

// The calls of a list that is right.
fn run(
    b: &[u8],
    calls: &[u8],
    count: usize,
    store: &mut [u8],
    work: &mut [u8],
    lists: &mut [u8],
    answers: &mut [usize],
)
    requires { Runnable calls.now count (space store.old work.old lists.old answers.old) }
    ensures { Runs b.now calls.now count (space store.old work.old lists.old answers.old) (space store.new work.new lists.new answers.new) }
{
    for k in 0..count {
        call_at(b, calls, count, k, store, work, lists, answers);
    }
}

// Carries out the calls that a list of bytes says, on a catalogue and buffers of any content and length.
pub fn carry_out(
    b: &[u8],
    calls: &[u8],
    store: &mut [u8],
    work: &mut [u8],
    lists: &mut [u8],
    answers: &mut [usize],
) -> Result<usize, Fault>
    ensures { CarriesOut b.now calls.now (space store.old work.old lists.old answers.old) result (space store.new work.new lists.new answers.new) }
{
    let count = check_calls(calls, lists.len(), answers.len())?;
    run(b, calls, count, store, work, lists, answers);
    Ok(count)
}
