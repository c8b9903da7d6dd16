// The calls for C and Rust. The crate exports_c gives each its plain name for C.
#![tactic(auto, using(replies::proofs::Refusals::exporting))]

ghost use Rattle.replies.specs.Check.{CheckExported};
ghost use Rattle.replies.specs.Classify.{ClassifyExported};
ghost use Rattle.replies.specs.Change.{ChangeExported};
ghost use Rattle.replies.specs.Lookups.{LookupExported, ListExported, RowExported};
ghost use Rattle.replies.specs.Write.{WriteExported};

use replies::{
    SHORT_ANSWER, change_reply, check_reply, classify_reply, give, is_short, list_reply,
    lookup_reply, row_reply, write_reply,
};

// Check a catalogue, and say how many bytes its calls are to be lent.
pub fn girvotal_check(catalogue: &[u8], answer: &mut [u64]) -> usize
    ensures { CheckExported catalogue.now answer.old result answer.new }
{
    if is_short(answer) {
        return SHORT_ANSWER;
    }
    let sizes = buffer_sizes::measure(catalogue);
    give(answer, check_reply(sizes))
}

// Classify.
pub fn girvotal_classify(
    catalogue: &[u8],
    store: &mut [u8],
    work: &mut [u8],
    answer: &mut [u64],
) -> usize
    ensures { ClassifyExported catalogue.now store.old work.old answer.old result store.new work.new answer.new }
{
    if is_short(answer) {
        return SHORT_ANSWER;
    }
    let classified = classification::classify(catalogue, store, work);
    give(answer, classify_reply(classified))
}

// Change the axioms in force: those of one list are withdrawn, and those of the other added.
pub fn girvotal_change(
    catalogue: &[u8],
    withdrawn: &[u8],
    added: &[u8],
    store: &mut [u8],
    work: &mut [u8],
    touched: &mut [u8],
    answer: &mut [u64],
) -> usize
    ensures { ChangeExported catalogue.now withdrawn.now added.now store.old work.old touched.old answer.old result store.new work.new touched.new answer.new }
{
    if is_short(answer) {
        return SHORT_ANSWER;
    }
    let changed = change::change(catalogue, withdrawn, added, store, work, touched);
    give(answer, change_reply(changed))
}

// Look up the pair of two concepts.
pub fn girvotal_lookup(
    catalogue: &[u8],
    first: usize,
    second: usize,
    store: &[u8],
    answer: &mut [u64],
) -> usize
    ensures { LookupExported catalogue.now first second store.now answer.old result answer.new }
{
    if is_short(answer) {
        return SHORT_ANSWER;
    }
    let looked = lookups::lookup(catalogue, first, second, store);
    give(answer, lookup_reply(looked))
}

// List the atomic concepts under one.
pub fn girvotal_list(
    catalogue: &[u8],
    second: usize,
    store: &[u8],
    list: &mut [u8],
    answer: &mut [u64],
) -> usize
    ensures { ListExported catalogue.now second store.now list.old answer.old result list.new answer.new }
{
    if is_short(answer) {
        return SHORT_ANSWER;
    }
    let listed = lookups::listing(catalogue, second, store, list);
    give(answer, list_reply(listed))
}

// Where a concept's row stands in the store.
pub fn girvotal_row(catalogue: &[u8], concept: usize, store: &[u8], answer: &mut [u64]) -> usize
    ensures { RowExported catalogue.now concept store.now answer.old result answer.new }
{
    if is_short(answer) {
        return SHORT_ANSWER;
    }
    let handed = row_parts::row_answer(catalogue, concept, store);
    give(answer, row_reply(handed))
}

// Write the catalogue with the axioms in force.
pub fn girvotal_write(
    catalogue: &[u8],
    store: &[u8],
    output: &mut [u8],
    answer: &mut [u64],
) -> usize
    ensures { WriteExported catalogue.now store.now output.old answer.old result output.new answer.new }
{
    if is_short(answer) {
        return SHORT_ANSWER;
    }
    let wrote = writing::write(catalogue, store, output);
    give(answer, write_reply(wrote))
}
