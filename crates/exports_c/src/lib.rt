// The calls for C and Rust, each under its plain name: those of the library exports. A slice passes as a pointer and a length.
#![tactic(auto)]

ghost use Rattle.replies.specs.Check.{CheckExported};
ghost use Rattle.replies.specs.Classify.{ClassifyExported};
ghost use Rattle.replies.specs.Change.{ChangeExported};
ghost use Rattle.replies.specs.Lookups.{LookupExported, ListExported, RowExported};
ghost use Rattle.replies.specs.Write.{WriteExported};

// Check a catalogue, and say how many bytes its calls are to be lent.
#[unsafe(no_mangle)]
pub extern "C" fn girvotal_check(catalogue: &[u8], answer: &mut [u64]) -> usize
    ensures { CheckExported catalogue.now answer.old result answer.new }
{
    exports::girvotal_check(catalogue, answer)
}

// Classify.
#[unsafe(no_mangle)]
pub extern "C" fn girvotal_classify(
    catalogue: &[u8],
    store: &mut [u8],
    work: &mut [u8],
    answer: &mut [u64],
) -> usize
    ensures { ClassifyExported catalogue.now store.old work.old answer.old result store.new work.new answer.new }
{
    exports::girvotal_classify(catalogue, store, work, answer)
}

// Change the axioms in force: those of one list are withdrawn, and those of the other added.
#[unsafe(no_mangle)]
pub extern "C" fn girvotal_change(
    catalogue: &[u8],
    withdrawn: &[u8],
    added: &[u8],
    store: &mut [u8],
    work: &mut [u8],
    touched: &mut [u8],
    answer: &mut [u64],
) -> usize
    ensures { ChangeExported catalogue.now withdrawn.now added.now store.old work.old touched.old answer.old result store.new work.new touched.new answer.new }
{
    exports::girvotal_change(catalogue, withdrawn, added, store, work, touched, answer)
}

// Look up the pair of two concepts.
#[unsafe(no_mangle)]
pub extern "C" fn girvotal_lookup(
    catalogue: &[u8],
    first: usize,
    second: usize,
    store: &[u8],
    answer: &mut [u64],
) -> usize
    ensures { LookupExported catalogue.now first second store.now answer.old result answer.new }
{
    exports::girvotal_lookup(catalogue, first, second, store, answer)
}

// List the atomic concepts under one.
#[unsafe(no_mangle)]
pub extern "C" fn girvotal_list(
    catalogue: &[u8],
    second: usize,
    store: &[u8],
    list: &mut [u8],
    answer: &mut [u64],
) -> usize
    ensures { ListExported catalogue.now second store.now list.old answer.old result list.new answer.new }
{
    exports::girvotal_list(catalogue, second, store, list, answer)
}

// Where a concept's row stands in the store.
#[unsafe(no_mangle)]
pub extern "C" fn girvotal_row(
    catalogue: &[u8],
    concept: usize,
    store: &[u8],
    answer: &mut [u64],
) -> usize
    ensures { RowExported catalogue.now concept store.now answer.old result answer.new }
{
    exports::girvotal_row(catalogue, concept, store, answer)
}

// Write the catalogue with the axioms in force.
#[unsafe(no_mangle)]
pub extern "C" fn girvotal_write(
    catalogue: &[u8],
    store: &[u8],
    output: &mut [u8],
    answer: &mut [u64],
) -> usize
    ensures { WriteExported catalogue.now store.now output.old answer.old result output.new answer.new }
{
    exports::girvotal_write(catalogue, store, output, answer)
}
