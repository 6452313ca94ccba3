// The writer of statistics: it judges, then measures, and then writes.
ghost use Rattle.std.specs.Prelude.{◌≡◌, ◌≤◌, length};
ghost use Rattle.wire.specs.Codec.{Valid};
ghost use Rattle.wire.specs.Write.{Room, Wrote, put_at};
ghost use Rattle.statistics.specs.Statistics.{titles, statistic, values, statistics, list_of};

use crate::{Statistics, title_at};
use field::put;

// Whether the nine have a written form.
pub fn can_send(x: Statistics) -> bool
    ensures { result ≡ statistics.ok (list_of x) }
{
    <[u64; Statistics::COUNT]>::from(x)
        .iter()
        .all(|n| *n <= 0x7fff_ffff_ffff_ffff)
}

// How many bytes they take: the names and their lengths take 113, and how many there are takes one.
pub fn statistics_len(x: Statistics) -> usize
    ensures { (result ≡ length (statistics.enc (list_of x))) × (result ≤ 294) }
{
    let mut size = 114;
    for n in <[u64; Statistics::COUNT]>::from(x) {
        size += decimal::decimal_len(n);
    }
    size
}

// A name and a value.
// The clauses `valid` and `room` speak of each function's own codec: a type that held them would be one for each.
fn put_named(out: &mut [u8], at: usize, name: &[u8], v: u64) -> usize
    requires valid { Valid (statistic name.now) v }
    requires room { Room (statistic name.now) v at out.old }
    ensures { Wrote (statistic name.now) v out.old out.new at result }
{
    let next = put::put_limited(out, at, name, Statistics::NAME);
    decimal::put_decimal(out, next, v)
}

// The nine, one after the other.
fn put_values(out: &mut [u8], at: usize, ns: [u64; Statistics::COUNT]) -> usize
    requires valid { Valid (values titles) ns }
    requires room { Room (values titles) ns at out.old }
    ensures { Wrote (values titles) ns out.old out.new at result }
{
    let mut here = at;
    for (i, n) in ns.iter().enumerate() {
        here = put_named(out, here, title_at(i), *n);
    }
    here
}

// Writes them at `at`, and answers the place behind them; where one has no written form or there is no room, it writes nothing.
pub fn put_statistics(out: &mut [u8], at: usize, x: Statistics) -> usize
    ensures { (result, out.new) ≡ put_at statistics (list_of x) at out.old }
{
    if !can_send(x) {
        return at;
    }
    if out.len() <= at {
        return at;
    }
    if out.len() - at < statistics_len(x) {
        return at;
    }
    let first = put::put_byte(out, at, 9);
    put_values(out, first, x.into())
}
