#![tactic(auto)]
// The listing of keys by the order that a table keeps.
ghost use Rattle.std.specs.Prelude.{◌≡◌};
ghost use Rattle.wire.specs.Write.{sent};
ghost use Rattle.map.specs.KeyListing.{listing_body};
ghost use Rattle.table.specs.Memory.{state_of, Sound};
ghost use Rattle.message.specs.Sent.{as_sent};
ghost use Rattle.order.specs.Lists.{Lists};

use field::Refusal;

// Writes the keys of a table that stand at the latest second served and are not before k, the first n of them, as the body of a bulkGetKeys reply. Where there
// is no room for it, nothing is written: 12.
// The numbers go as `listing` takes them, four for each key.
fn write_keys(t: &[u8], k: &[u8], n: u64, out: &mut [u8]) -> Result<usize, Refusal>
    requires { Sound t.now }
    ensures { (as_sent result, out.new) ≡ sent (listing_body k.now n (state_of t.now)) out.old }
{
    let keys = table::keys_from(t, k, table::latest(t));
    let end = n.min(keys.many as u64) as usize * 4;
    let size = listing::put::put_entries(out, 0, t, &keys.numbers[..end], false);
    if size == 0 {
        return Err(Refusal::Room);
    }
    Ok(size)
}

// Lists the keys of a cache that stand at the latest second served and are not before k, the first n of them. Memory that is no table is 13, a name that is
// not empty 9, room under the length of the body 12; then nothing is written. The table is only read.
pub fn list_keys(t: &[u8], name: &[u8], k: &[u8], n: u64, out: &mut [u8]) -> Result<usize, Refusal>
    ensures { Lists t.now name.now k.now n out.old (as_sent result, out.new) }
{
    if !soundness::is_table(t) {
        return Err(Refusal::Table);
    }
    if !name.is_empty() {
        return Err(Refusal::Cache);
    }
    write_keys(t, k, n, out)
}
