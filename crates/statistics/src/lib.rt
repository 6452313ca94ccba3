#![tactic(auto)]
// The statistics of a stats reply: how many there are, and for each its name and its value in decimal digits.
pub mod put;

ghost use Rattle.std.specs.Prelude.{◌≡◌, ◌<◌, get_or, []};
ghost use Rattle.wire.specs.Codec.{read_at};
ghost use Rattle.field.specs.FieldRead.{as_read};
ghost use Rattle.statistics.specs.Statistics.{titles, statistic, statistics, list_of, as_statistics};

use field::{Cursor, Kind, Read, Refusal};

// The statistics, in the order of their fields.
#[derive(Clone, Copy)]
pub struct Statistics {
    pub time: u64,
    pub current: u64,
    pub total: u64,
    pub stores: u64,
    pub retrievals: u64,
    pub hits: u64,
    pub misses: u64,
    pub removehits: u64,
    pub removemisses: u64,
}

impl Statistics {
    // How many there are, and the greatest length of a name.
    pub const COUNT: usize = 9;

    pub const NAME: u64 = 22;
}

// The nine numbers in their order.
impl From<[u64; Statistics::COUNT]> for Statistics {
    ghost from_gives = { λ ns x. list_of x ≡ ns };

    fn from(ns: [u64; Statistics::COUNT]) -> Statistics {
        let [
            time,
            current,
            total,
            stores,
            retrievals,
            hits,
            misses,
            removehits,
            removemisses,
        ] = ns;
        Statistics {
            time,
            current,
            total,
            stores,
            retrievals,
            hits,
            misses,
            removehits,
            removemisses,
        }
    }
}

// Field by field: no derive makes an array of a struct.
impl From<Statistics> for [u64; Statistics::COUNT] {
    ghost from_gives = { λ x ns. ns ≡ list_of x };

    fn from(x: Statistics) -> [u64; Statistics::COUNT] {
        [
            x.time,
            x.current,
            x.total,
            x.stores,
            x.retrievals,
            x.hits,
            x.misses,
            x.removehits,
            x.removemisses,
        ]
    }
}

// The name at a place among them.
#[tactic(auto, unfolding(crate::specs::Statistics::titles))]
pub(crate) fn title_at(i: usize) -> &'static [u8]
    requires { i < 9 }
    ensures { result.now ≡ get_or titles i [] }
{
    match i {
        0 => b"timeSinceStart",
        1 => b"currentNumberOfEntries",
        2 => b"totalNumberOfEntries",
        3 => b"stores",
        4 => b"retrievals",
        5 => b"hits",
        6 => b"misses",
        7 => b"removeHits",
        _ => b"removeMisses",
    }
}

// A statistic that has to have a name.
fn read_named(s: &[u8], c: Cursor, name: &[u8]) -> Read<u64>
    ensures { as_read result ≡ read_at (statistic name.now) s.now c.at }
{
    let Some((p, next)) = field::read_limited(s, c, Statistics::NAME)? else {
        return Ok(None);
    };
    if name == field::part(s, p) {
        decimal::read_decimal(s, next)
    } else {
        Err(Refusal::Field)
    }
}

// The statistics at the cursor.
pub fn read_statistics(s: &[u8], c: Cursor) -> Read<Statistics>
    ensures { as_statistics result ≡ read_at statistics s.now c.at }
{
    let Some((n, first)) = field::read_number(s, c, Kind::VInt)? else {
        return Ok(None);
    };
    if n != 9 {
        return Err(Refusal::Field);
    }
    let mut ns = [0; Statistics::COUNT];
    let mut here = first;
    for i in 0..Statistics::COUNT {
        let Some((v, next)) = read_named(s, here, title_at(i))? else {
            return Ok(None);
        };
        ns[i] = v;
        here = next;
    }
    Ok(Some((Statistics::from(ns), here)))
}
