// Numbers entered in a list, two bytes each, low byte first, rising; entries past the count stay.
#![tactic(auto)]

ghost use Rattle.std.specs.Prelude.{◌+◌, ◌*◌, ◌≤◌, ◌<◌, length};
ghost use Rattle.rows.specs.Bits.{bit};
ghost use Rattle.store.specs.Written.{rising};
ghost use Rattle.number_lists.specs.Lists.{Filled, Entered};

use reader::put_number;
use rows::marked;

// The list is lent, and its count is beside it: nothing is allocated.

// Enters number c after so many others, if `on`, and answers how many there are then.
pub fn enter(list: &mut [u8], count: usize, c: usize, on: bool) -> usize
    requires { (2 * count + 1 < length list.old) × (c < 65536) }
    ensures { Entered on c count list.old result list.new }
{
    if on {
        put_number(list, 2 * count, c);
        return count + 1;
    }
    count
}

// Enters the numbers below n that a row marks, rising, and answers how many there are.
pub fn list_marked(row: &[u8], n: usize, list: &mut [u8]) -> usize
    requires { (length row.now ≤ 1048576) × (n ≤ 65536) × (2 * n ≤ length list.old) }
    ensures { Filled (rising (bit row.now) n) list.old result list.new }
{
    let mut count: usize = 0;
    for c in marked(row, n) {
        count = enter(list, count, c, true);
    }
    count
}
