#![tactic(auto)]
// The entries of a bulk reply: each with its key, and with its value where values are asked for. Their readers, and the module of their writers.
pub mod put;

ghost use Rattle.std.specs.Prelude.{◌≡◌, cond, length, eqb};
ghost use Rattle.wire.specs.Codec.{read_at, after, mapped, whole, refused};
ghost use Rattle.wire.specs.Listed.{more_byte, item};
ghost use Rattle.field.specs.FieldRead.{as_read};
ghost use Rattle.message.specs.Listing.{item_of, listing};
ghost use Rattle.listing.specs.EntryRead.{as_pair, as_entry, pair_at, item_at};

use field::{Cursor, Read, Refusal, Span};
use message::Request;

// An entry: where its key and its value stand.
#[derive(Clone, Copy)]
pub struct Entry {
    pub key: Span,
    pub value: Span,
}

// The greatest number of entries.
pub const MOST: u64 = 128;

// The entry behind its more byte.
// `values` is the flag of the definition `listing`: whether a value stands behind each key. It chooses no step but that one, here and in the writers.
fn read_pair(s: &[u8], c: Cursor, values: bool) -> Read<Entry>
    ensures { as_pair result ≡ mapped (λ p n. pair_at c.at p n) (read_at (item_of values) s.now c.at) }
{
    let Some((key, next)) = field::read_limited(s, c, Request::KEY)? else {
        return Ok(None);
    };
    if !values {
        let value = Span { start: 0, len: 0 };
        return Ok(Some((Entry { key, value }, next)));
    }
    let Some((value, end)) = field::read_limited(s, next, Request::VALUE)? else {
        return Ok(None);
    };
    Ok(Some((Entry { key, value }, end)))
}

// The entry at the cursor, or none at the end of the list.
// Compiled into its callers, as `field::read_number` is: the end of a list would take twice as long.
#[inline(always)]
pub fn next_entry(s: &[u8], c: Cursor, values: bool) -> Read<Option<Entry>>
    ensures { as_entry result ≡ mapped (item_at c.at) (read_at (item (item_of values)) s.now c.at) }
{
    let Some((b, next)) = field::read_byte(s, c) else {
        return Ok(None);
    };
    if b == 0 {
        return Ok(Some((None, next)));
    }
    if b != 1 {
        return Err(Refusal::Field);
    }
    let Some((entry, end)) = read_pair(s, next, values)? else {
        return Ok(None);
    };
    Ok(Some((Some(entry), end)))
}

// The end of a list of the greatest number of entries.
fn read_end(s: &[u8], c: Cursor) -> Read<u64>
    ensures { as_read result ≡ after (read_at more_byte s.now c.at) (λ b j. cond (eqb b 0) (whole 128 j) (refused 6)) }
{
    let Some((b, next)) = field::read_byte(s, c) else {
        return Ok(None);
    };
    match b {
        0 => Ok(Some((MOST, next))),
        1 => Err(Refusal::Length),
        _ => Err(Refusal::Field),
    }
}

// The entries at the cursor: how many there are, and the place behind their end.
pub fn read_entries(s: &[u8], c: Cursor, values: bool) -> Read<u64>
    ensures { as_read result ≡ mapped (λ xs n. length xs) (read_at (listing values) s.now c.at) }
{
    let mut here = c;
    for n in 0..MOST {
        let Some((entry, next)) = next_entry(s, here, values)? else {
            return Ok(None);
        };
        if entry.is_none() {
            return Ok(Some((n, next)));
        }
        here = next;
    }
    read_end(s, here)
}
