// The keys by the order, in memory that has the length of a table.
ghost use Rattle.table.specs.KeysFrom.{KeysNamed};

use crate::{KeySpans, Memory, Row, Table, expiry, key_order, number, rows};
use field::Second;

// The keys that stand at a second and are not before k, in their order.
// Four numbers for each, as `listing` takes them.
pub(crate) fn collect(t: &Memory, k: &[u8], second: Second) -> KeySpans
    ensures { KeysNamed t.now k.now second.0 result.numbers result.many }
{
    let mut numbers: [u64; 512] = [0; 512];
    let mut many = 0;
    for p in key_order::place_for(t, k)..rows::count(t) {
        let row = key_order::row_by_key(t, p);
        if expiry::row_stands(t, row, second) {
            let a = Table::ROWS + Row::WIDTH * row;
            let at = many * 4;
            numbers[at] = (a + Row::KEY_START) as u64;
            numbers[at + 1] = number::capped(t, a + Row::KEY_LENGTH, Row::KEY) as u64;
            many += 1;
        }
    }
    KeySpans {
        numbers: numbers,
        many: many,
    }
}
