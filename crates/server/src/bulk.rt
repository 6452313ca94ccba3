// The reply to a bulk request. Its entries are written one after the other, from where they stand in the table.
ghost use Rattle.std.specs.Prelude.{◌≡◌, ℕ, ◌≤◌, length};
ghost use Rattle.std.proofs.Math.Option.{some};
ghost use Rattle.wire.specs.Codec.{Valid};
ghost use Rattle.wire.specs.Number.{v_long};
ghost use Rattle.wire.specs.Listed.{item};
ghost use Rattle.wire.specs.Write.{Room, Wrote};
ghost use Rattle.message.specs.Listing.{item_of, listing};
ghost use Rattle.message.specs.Sent.{as_sent};
ghost use Rattle.map.specs.Shown.{lowest};
ghost use Rattle.table.specs.Memory.{state_of, Sound};
ghost use Rattle.service.specs.Serve as stream;
ghost use Rattle.server.specs.Bulk.{entry_pair, listed_pairs, Listable, sent_listed};

use field::{Refusal, put};
use message::{Asked, Operation, Request};

// How many entries are listed where n are asked for: all where n is 0.
fn many(t: &[u8], n: u64) -> usize
    ensures { result ≡ length (lowest n (state_of t.now).entries) }
{
    let held = table::count(t);
    if n == 0 || held as u64 <= n {
        held
    } else {
        n as usize
    }
}

// Entry i behind its more byte.
// `values` is the flag of the definition `listing`: it chooses no step but the value.
fn put_entry(out: &mut [u8], at: usize, t: &[u8], i: usize, values: bool) -> usize
    ensures { Valid (item_of values) (entry_pair values t.now i) → Room (item (item_of values)) (some (entry_pair values t.now i)) at out.old → Wrote (item (item_of values)) (some (entry_pair values t.now i)) out.old out.new at result }
{
    let first = put::put_byte(out, at, 1);
    let next = put::put_limited(out, first, table::key_at(t, i), Request::KEY);
    if !values {
        return next;
    }
    put::put_limited(out, next, table::value_at(t, i), Request::VALUE)
}

// The entries listed and their end, where there are m of them.
// One loop with `listing` would be told all places by numbers first: a bulkGet of 128 entries takes a fifth longer.
fn put_entries(out: &mut [u8], at: usize, t: &[u8], m: usize, values: bool) -> usize
    ensures { (n : ℕ) → Listable values n m t.now at out.old → Wrote (listing values) (listed_pairs values n (state_of t.now)) out.old out.new at result }
{
    let mut here = at;
    for i in 0..m {
        here = put_entry(out, here, t, i, values);
    }
    put::put_byte(out, here, 0)
}

// Writes the reply to bulkGet or to bulkGetKeys, whichever was asked, with the first n entries, or with all where n is 0.
pub(crate) fn write_bulk(
    out: &mut [u8],
    t: &[u8],
    asked: Asked,
    id: u64,
    n: u64,
) -> Result<usize, Refusal>
    ensures { Sound t.now → Valid v_long id → stream.bulk_room ≤ length out.old → (as_sent result, out.new) ≡ sent_listed asked id n (state_of t.now) out.old }
{
    let at = reply_writer::write_bulk_head(out, asked, id)?;
    let values = asked.op == u8::from(Operation::BulkGet);
    Ok(put_entries(out, at, t, many(t, n), values))
}
