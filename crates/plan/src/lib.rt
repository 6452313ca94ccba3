#![tactic(auto)]
// What a request is going to do: the status of its reply, and what becomes of the entries.
ghost use Rattle.std.specs.Prelude.{◌≡◌};
ghost use Rattle.map.specs.Plan as map;
ghost use Rattle.plan.specs.Plan.{as_plan, as_change, as_judged, HoldsAt, held_version, judged_at, is_full, refusal_of};

use field::{EntryVersion, Refusal, Second};
use message::Operation;
use table::Table;

// The row that has a key, with the version of its entry.
#[derive(Clone, Copy)]
pub struct Held {
    pub row: usize,
    pub version: EntryVersion,
}

// What becomes of the entries.
#[derive(Clone, Copy)]
pub enum Change {
    Keep,
    Store,
    Drop,
    Empty,
}

// The status is its number in the reply table, by which `rules` looks it up and a `ReplyHead` has it.
#[derive(Clone, Copy)]
pub struct Plan {
    pub status: u8,
    pub change: Change,
}

// The row that has the key, with its version, if its entry stands at a second. Keys differ, so no other row has the key.
// Memory and second are lent to each function by itself, as to those of `table`: memory of any length is taken.
pub fn held_in(t: &[u8], key: &[u8], second: Second) -> Option<Held>
    ensures { HoldsAt second.0 t.now key.now result }
{
    let row = table::find(t, key)?;
    if !table::stands(t, row, second) {
        return None;
    }
    Some(Held {
        row: row,
        version: table::version_at(t, row),
    })
}

#[tactic(auto, unfolding(map::specs::Plan::plans))]
fn planned(status: u8, change: Change) -> Plan
    ensures { as_plan result ≡ map.plans status (as_change change) }
{
    Plan {
        status: status,
        change: change,
    }
}

// One plan where the key is held, and another where it is not.
fn if_held(held: Option<Held>, present: Plan, absent: Plan) -> Plan
    ensures { as_plan result ≡ map.if_held (held_version held) (as_plan present) (as_plan absent) }
{
    match held {
        Some(_) => present,
        None => absent,
    }
}

// The plan of an operation that asks for a version: the change where the version held is the same one.
fn if_same(held: Option<Held>, asked: EntryVersion, change: Change) -> Plan
    ensures { as_plan result ≡ map.if_same (held_version held) asked.0 (as_change change) }
{
    let Some(held) = held else {
        return planned(0x02, Change::Keep);
    };
    if held.version == asked {
        planned(0x00, change)
    } else {
        planned(0x01, Change::Keep)
    }
}

// The reply table: the status, and what becomes of the entries.
// A match: each operation has a plan of its own, and none is a step that is run here.
#[tactic(auto, unfolding(map::specs::Plan::plan))]
pub fn plan_of(op: Operation, asked: EntryVersion, held: Option<Held>) -> Plan
    ensures { as_plan result ≡ map.plan op asked.0 (held_version held) }
{
    let stored = planned(0x00, Change::Store);
    let kept = planned(0x00, Change::Keep);
    let missed = planned(0x02, Change::Keep);
    match op {
        Operation::Put => stored,
        Operation::PutIfAbsent => if_held(held, planned(0x01, Change::Keep), stored),
        Operation::Replace => if_held(held, stored, planned(0x01, Change::Keep)),
        Operation::ReplaceIfUnmodified => if_same(held, asked, Change::Store),
        Operation::Remove => if_held(held, planned(0x00, Change::Drop), missed),
        Operation::RemoveIfUnmodified => if_same(held, asked, Change::Drop),
        Operation::Get => if_held(held, kept, missed),
        Operation::GetWithVersion => if_held(held, kept, missed),
        Operation::ContainsKey => if_held(held, kept, missed),
        Operation::Clear => planned(0x00, Change::Empty),
        Operation::Stats => kept,
        Operation::Ping => kept,
        Operation::BulkGet => kept,
        Operation::BulkGetKeys => kept,
    }
}

// Whether a key would be added and 128 entries stand at a second. Deadlines are looked at only where so many are held and one may have come.
fn is_full(t: &[u8], held: Option<Held>, second: Second) -> bool
    ensures { result ≡ is_full (judged_at second.0 t.now) (held_version held) }
{
    if held.is_some() {
        return false;
    }
    if table::count(t) < Table::KEYS {
        return false;
    }
    if !table::is_due(t, second) {
        return true;
    }
    Table::KEYS <= table::standing(t, second)
}

// Whether a change may be made at a second: it is refused where it adds a key to a table of which 128 entries stand, and where no version is left for it.
pub fn refusal_of(
    t: &[u8],
    change: Change,
    held: Option<Held>,
    second: Second,
) -> Result<(), Refusal>
    ensures { as_judged result ≡ refusal_of (judged_at second.0 t.now) (held_version held) (as_change change) }
{
    let Change::Store = change else {
        return Ok(());
    };
    if is_full(t, held, second) {
        return Err(Refusal::Full);
    }
    if Table::LAST_VERSION <= table::last(t) {
        return Err(Refusal::Versions);
    }
    Ok(())
}
