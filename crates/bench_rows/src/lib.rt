// Counting a row's bits and finding its next set one, by words and byte by byte, for the benchmark. A slice passes as a pointer and a length.
#![tactic(auto)]

ghost use Rattle.std.specs.Prelude.{◌≡◌, length};
ghost use Rattle.rows.specs.Bits.{count_bits};
ghost use Rattle.rows.specs.Next.{next_bit};
ghost use Rattle.bench_rows.specs.Answers.{place_of, Answers};

// The longest row, in bytes.
pub const MAX: usize = 1048576;

// Answered for a longer one.
pub const TOO_LONG: usize = 18446744073709551615;

// `rows::count`.
#[unsafe(no_mangle)]
pub extern "C" fn words_count(row: &[u8]) -> usize
    ensures { Answers (length row.now) (count_bits row.now) result }
{
    if MAX < row.len() {
        return TOO_LONG;
    }
    rows::count(row)
}

// `rows::next`.
#[unsafe(no_mangle)]
pub extern "C" fn words_next(row: &[u8], from: usize) -> usize
    ensures { Answers (length row.now) (place_of (next_bit row.now from) (length row.now)) result }
{
    if MAX < row.len() {
        return TOO_LONG;
    }
    rows::next(row, from).unwrap_or(8 * row.len())
}

// `bytewise::count`.
#[unsafe(no_mangle)]
pub extern "C" fn bytes_count(row: &[u8]) -> usize
    ensures { Answers (length row.now) (count_bits row.now) result }
{
    if MAX < row.len() {
        return TOO_LONG;
    }
    bytewise::count(row)
}

// `bytewise::next`.
#[unsafe(no_mangle)]
pub extern "C" fn bytes_next(row: &[u8], from: usize) -> usize
    ensures { Answers (length row.now) (place_of (next_bit row.now from) (length row.now)) result }
{
    if MAX < row.len() {
        return TOO_LONG;
    }
    bytewise::next(row, from).unwrap_or(8 * row.len())
}
