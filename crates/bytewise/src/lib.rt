// Counting a row's bits and finding its next set one byte by byte, under the contracts of `rows::count` and `rows::next`: what the benchmark sets them beside.
#![tactic(auto)]

ghost use Rattle.std.specs.Prelude.{◌≡◌, ◌*◌, ◌≤◌, length};
ghost use Rattle.rows.specs.Bits.{count_bits};
ghost use Rattle.rows.specs.Next.{next_bit};

// How many bits are set.
pub fn count(row: &[u8]) -> usize
    requires { length row.now ≤ 1048576 }
    ensures { result ≡ count_bits row.now }
{
    let mut total: usize = 0;
    for byte in row {
        total += byte.count_ones() as usize;
    }
    total
}

// The lowest set bit from a given one on, itself included; the given one may lie past the end.
pub fn next(row: &[u8], from: usize) -> Option<usize>
    requires { length row.now ≤ 1048576 }
    ensures { result ≡ next_bit row.now from }
{
    let at = from / 8;
    let rest = *row.get(at)? >> (from % 8);
    if rest != 0 {
        return Some(from + rest.trailing_zeros() as usize);
    }
    next_byte(row, at + 1)
}

// The lowest set bit from a given byte on.
fn next_byte(row: &[u8], from: usize) -> Option<usize>
    requires { length row.now ≤ 1048576 }
    ensures { result ≡ next_bit row.now (8 * from) }
{
    for at in from..row.len() {
        let byte = row[at];
        if byte != 0 {
            return Some(8 * at + byte.trailing_zeros() as usize);
        }
    }
    None
}
