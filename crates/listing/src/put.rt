// The writers of entries. Numbers name each entry in bytes that the caller lends, four for each: the start and the length of its key, and those
// of its value, which is empty where values are not asked for. They stay numbers in a row, as the C function `fq_write_entries` is given them.
ghost use Rattle.std.specs.Prelude.{◌≡◌, true, ◌+◌, ◌≤◌, ◌<◌, length};
ghost use Rattle.std.proofs.Math.Option.{some};
ghost use Rattle.wire.specs.Codec.{Valid};
ghost use Rattle.wire.specs.Listed.{item};
ghost use Rattle.wire.specs.Write.{Room, Wrote, put_at};
ghost use Rattle.message.specs.Listing.{item_of, listing};
ghost use Rattle.listing.specs.EntryWrite.{span_at, listed_in, Short, length_of, as_size};

use crate::MOST;
use field::{Span, put};
use message::Request;

// How many bytes the longest entries take.
const LONGEST: usize = 41_473;

// The part that two numbers name.
fn span_at(numbers: &[u64], i: usize) -> Span
    requires { i + 1 < length numbers.now }
    ensures { result ≡ span_at numbers.now i }
{
    Span {
        start: numbers[i] as usize,
        len: numbers[i + 1] as usize,
    }
}

// How many bytes an entry takes behind its more byte.
fn entry_len(key: &[u8], value: &[u8], values: bool) -> Option<usize>
    ensures { as_size result ≡ length_of (item_of values) (key.now, value.now) }
{
    let k = key.len();
    if Request::KEY < k as u64 {
        return None;
    }
    let v = value.len();
    if !values {
        if v != 0 {
            return None;
        }
        return Some(put::number_len(k as u64) + k);
    }
    if Request::VALUE < v as u64 {
        return None;
    }
    Some(put::number_len(k as u64) + k + (put::number_len(v as u64) + v))
}

// How many bytes entries take with their end.
pub fn entries_len(bytes: &[u8], numbers: &[u64], values: bool) -> Option<usize>
    ensures { as_size result ≡ length_of (listing values) (listed_in bytes.now numbers.now) }
{
    let n = numbers.len() / 4;
    if MOST < n as u64 {
        return None;
    }
    let mut size: usize = 1;
    for i in 0..n {
        let key = field::part(bytes, span_at(numbers, i * 4));
        let value = field::part(bytes, span_at(numbers, i * 4 + 2));
        size += entry_len(key, value, values)? + 1;
    }
    Some(size)
}

// An entry behind its more byte.
// The clauses `valid` and `room` speak of each function's own codec: a type that held them would be one for each.
fn put_entry(out: &mut [u8], at: usize, key: &[u8], value: &[u8], values: bool) -> usize
    requires valid { Valid (item_of values) (key.now, value.now) }
    requires room { Room (item (item_of values)) (some (key.now, value.now)) at out.old }
    ensures { Wrote (item (item_of values)) (some (key.now, value.now)) out.old out.new at result }
{
    let first = put::put_byte(out, at, 1);
    let next = put::put_limited(out, first, key, Request::KEY);
    if !values {
        return next;
    }
    put::put_limited(out, next, value, Request::VALUE)
}

// Entries and their end.
// `server` writes the entries of a table by their rows, with no numbers in a row.
fn put_all(out: &mut [u8], at: usize, bytes: &[u8], numbers: &[u64], values: bool) -> usize
    requires valid { Valid (listing values) (listed_in bytes.now numbers.now) }
    requires room { Room (listing values) (listed_in bytes.now numbers.now) at out.old }
    ensures { Wrote (listing values) (listed_in bytes.now numbers.now) out.old out.new at result }
{
    let n = numbers.len() / 4;
    let mut here = at;
    for i in 0..n {
        let key = field::part(bytes, span_at(numbers, i * 4));
        let value = field::part(bytes, span_at(numbers, i * 4 + 2));
        here = put_entry(out, here, key, value, values);
    }
    put::put_byte(out, here, 0)
}

// The numbers alone tell that entries with values have a written form: no key and no value is too long, whatever the bytes are.
fn all_short(numbers: &[u64]) -> bool
    ensures { result ≡ true → Short numbers.now }
{
    let n = numbers.len() / 4;
    if MOST < n as u64 {
        return false;
    }
    for i in 0..n {
        let key = span_at(numbers, i * 4);
        let value = span_at(numbers, i * 4 + 2);
        if Request::KEY < key.len as u64 || Request::VALUE < value.len as u64 {
            return false;
        }
    }
    true
}

// So they do, and there is room for the longest.
fn is_sure(len: usize, at: usize, numbers: &[u64], values: bool) -> bool
    ensures { result ≡ true → (values ≡ true) × ((at + 41_473 ≤ len) × Short numbers.now) }
{
    values && LONGEST <= len && at <= len - LONGEST && all_short(numbers)
}

// Writes entries and their end at `at`, and answers the place behind them; where they have no written form or there is no room, it writes nothing.
pub fn put_entries(out: &mut [u8], at: usize, bytes: &[u8], numbers: &[u64], values: bool) -> usize
    ensures { (result, out.new) ≡ put_at (listing values) (listed_in bytes.now numbers.now) at out.old }
{
    if is_sure(out.len(), at, numbers, values) {
        return put_all(out, at, bytes, numbers, values);
    }
    let Some(size) = entries_len(bytes, numbers, values) else {
        return at;
    };
    if out.len() < at {
        return at;
    }
    if out.len() - at < size {
        return at;
    }
    put_all(out, at, bytes, numbers, values)
}
