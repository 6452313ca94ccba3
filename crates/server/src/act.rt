// Serving a request on a table that is sound, with room for an error reply at least. That it is sound stands in each contract and in no type: a type would have to
// keep it at each write inside a call, and a contract speaks of the table before and behind the call anyway.
ghost use Rattle.std.specs.Prelude.{◌≡◌, List, true, ℕ, ◌+◌, ◌≤◌, ◌<◌, length};
ghost use Rattle.std.proofs.Math.Option.{some};
ghost use Rattle.wire.specs.Codec.{Valid};
ghost use Rattle.wire.specs.Write.{written};
ghost use Rattle.field.specs.Refusal.{number_of};
ghost use Rattle.message.specs.Sent.{as_sent};
ghost use Rattle.message.specs.Request.{request, request_of, request_in};
ghost use Rattle.map.specs.Step as map;
ghost use Rattle.map.specs.Reply.{asked_by};
ghost use Rattle.map.specs.Deadline as expiry;
ghost use Rattle.table.specs.Memory.{state_of, Sound};
ghost use Rattle.table.specs.Found.{entry_at};
ghost use Rattle.table.specs.Change as table;
ghost use Rattle.service.specs.Serve as stream;
ghost use Rattle.service.specs.Stream.{Becomes, Serves};
ghost use Rattle.service.specs.Many.{at};
ghost use Rattle.plan.specs.Plan.{as_change, Holds, HoldsAt, held_at, held_version};
ghost use Rattle.server.specs.CallDone.{as_context, as_verdict, done_of, Says, Sends};
ghost use Rattle.server.specs.Act.{is_plain, value_shown, version_shown, sent_to, less, replaced, Storable, after, Planned, Agreed, Arrives, Replies, Performs, PerformsWithin};

use crate::{Answer, Context, Verdict, bulk};
use field::{EntryVersion, Refusal, Second};
use message::{Asked, Form, Head, Operation, ReplyHead, Request};
use plan::{Change, Held};
use table::Table;

// Nothing sent.
pub(crate) fn unsent(taken: usize, verdict: Verdict<Refusal>) -> Answer
    ensures { Says taken 0 (as_verdict verdict) result }
{
    Answer {
        taken,
        size: 0,
        verdict,
    }
}

// The answer with a reply that was written.
fn ended(w: Result<usize, Refusal>, taken: usize, verdict: Verdict<Refusal>) -> Answer
    ensures { (n : ℕ) → as_sent w ≡ written n → Says taken n (as_verdict verdict) result }
{
    Answer {
        taken,
        size: w.unwrap_or(0),
        verdict,
    }
}

// The error reply of a refusal.
// Its number is 11 at the most: `try_from` would have an answer that cannot be.
pub(crate) fn refuse(out: &mut [u8], id: u64, refusal: Refusal, taken: usize) -> Answer
    requires room_in_bounds { stream.room ≤ length out.old }
    requires id_bound { id < 0x8000_0000_0000_0000 }
    requires refusal_bound { number_of refusal ≤ 11 }
    ensures { Sends (stream.error_pieces (number_of refusal) id) taken (stream.refused (number_of refusal)) out.old out.new result }
{
    let w = reply_writer::write_error(out, id, u16::from(refusal) as u8);
    ended(w, taken, Verdict::Refused(refusal))
}

// The row whose value a reply of the form shows; where it shows none, a row that no table holds.
// What is held, and what is planned, is said of the table as it is, here and below: a type that said it would borrow the table, which then changes.
#[tactic(auto, using(crate::proofs::SendLaws::row_shown, crate::proofs::SendLaws::past_shown))]
fn shown_row(f: Form, held: Option<Held>) -> usize
    ensures { (t k : List ℕ) → Sound t → Holds t k held → (entry_at t result).value ≡ value_shown f (held_at t k) }
{
    match (f, held) {
        (Form::Value(1..) | Form::Versioned, Some(held)) => held.row,
        _ => Table::KEYS,
    }
}

// The version that a reply of the form shows, or 0.
#[tactic(auto, using(crate::proofs::SendLaws::held_shown))]
fn shown_version(f: Form, held: Option<Held>) -> EntryVersion
    ensures { (t k : List ℕ) → Holds t k held → result.0 ≡ version_shown f (held_at t k) }
{
    match (f, held) {
        (Form::Versioned, Some(held)) => held.version,
        _ => EntryVersion(0),
    }
}

// What was asked by a request.
fn asked_by(h: Head) -> Asked
    ensures { (name key value : List ℕ) → result ≡ asked_by (request_of h name key value) }
{
    Asked {
        version: h.version,
        op: u8::from(h.op),
        flag: h.flags % 2 == 1,
    }
}

// Writes the reply of a status, with what it shows of the entry held. Replies to stats, bulkGet and bulkGetKeys show something else.
// The status is its number in the reply table, here and below, as `plan` gives it.
fn write_held(
    out: &mut [u8],
    t: &[u8],
    h: Head,
    status: u8,
    held: Option<Held>,
) -> Result<usize, Refusal>
    ensures { (c : map.Context) (name key value : List ℕ) → is_plain h.op ≡ true → Planned t.now (request_of h name key value) held status → (as_sent result, out.new) ≡ sent_to c (request_of h name key value) (state_of t.now) out.old }
{
    let flag = asked_by(h).flag;
    let op = u8::from(h.op) + 1;
    let old = rules::with_old(h.version, flag);
    let status = rules::reply_status(old, h.op, held.is_some(), status);
    let form = rules::form_of(flag, rules::body_at(old, h.op, op, status));
    let head = ReplyHead {
        id: h.id,
        op,
        status,
        entry: shown_version(form, held),
    };
    let value = table::value_at(t, shown_row(form, held));
    reply_writer::write_formed(out, head, form, value, b"")
}

// Writes the reply of a status: the statistics at the second, the entries listed, or what it shows of the entry held.
// Each arm, here and in `change`, has a contract of its own.
fn write(
    out: &mut [u8],
    t: &[u8],
    h: Head,
    status: u8,
    held: Option<Held>,
    context: Context,
) -> Result<usize, Refusal>
    ensures { (name key value : List ℕ) → stream.room_of h.op ≤ length out.old → Planned t.now (request_of h name key value) held status → (as_sent result, out.new) ≡ sent_to (as_context context) (request_of h name key value) (state_of t.now) out.old }
{
    match h.op {
        Operation::Stats => {
            let x = table::statistics(t, context.second);
            reply_writer::write_statistics(out, asked_by(h), h.id, x)
        }
        Operation::BulkGet => bulk::write_bulk(out, t, asked_by(h), h.id, h.bulk),
        Operation::BulkGetKeys => bulk::write_bulk(out, t, asked_by(h), h.id, 0),
        _ => write_held(out, t, h, status, held),
    }
}

// The reply of a status.
fn respond(
    out: &mut [u8],
    t: &[u8],
    h: Head,
    status: u8,
    held: Option<Held>,
    context: Context,
    taken: usize,
) -> Answer
    requires room_in_bounds { stream.room_of h.op ≤ length out.old }
    ensures { (name key value : List ℕ) → Planned t.now (request_of h name key value) held status → Replies t.now (request_of h name key value) (as_context context) taken out.old out.new result }
{
    let w = write(out, t, h, status, held, context);
    ended(w, taken, Verdict::Served)
}

// Notes a call in the table: what has expired at the present second goes, the call is counted, by its operation and by what is held of what stands, and
// its second is the first one where none was served before.
fn note_call(t: &mut [u8], h: Head, held: Option<Held>, context: Context)
    ensures { (name key value : List ℕ) → Sound t.old → HoldsAt (map.present (as_context context) (state_of t.old)) t.old key held → Becomes t.old (some (map.arrive (as_context context) (request_of h name key value) (state_of t.old))) t.new }
{
    table::arrive(t, h.op, held.is_none(), context.second);
}

// Where the key is held once entries have gone: at another place, of the same version.
fn moved(t: &[u8], key: &[u8], held: Option<Held>) -> Option<Held>
    ensures { held_version held ≡ map.version_of (held_at t.now key.now) → Holds t.now key.now result }
{
    let row = table::find(t, key)?;
    let version = held?.version;
    Some(Held { row, version })
}

// What a call that is not refused does before its step. It answers where the key is held then: as before where no entry can have expired.
fn arrive(t: &mut [u8], h: Head, key: &[u8], held: Option<Held>, context: Context) -> Option<Held>
    ensures { (name k value : List ℕ) → key.now ≡ k → Sound t.old → HoldsAt (map.present (as_context context) (state_of t.old)) t.old k held → Arrives t.old (request_of h name k value) (as_context context) t.new result }
{
    let due = table::is_due(t, table::present(t, context.second));
    note_call(t, h, held, context);
    if due {
        return moved(t, key, held);
    }
    held
}

// The table without the row held.
#[tactic(auto, using(crate::proofs::StepLaws::row_dropped, crate::proofs::StepLaws::none_dropped))]
fn drop_row(t: &mut [u8], held: Option<Held>)
    ensures { (k : List ℕ) → Sound t.old → Holds t.old k held → table.Changed t.old t.new (less k (state_of t.old)) }
{
    if let Some(held) = held {
        table::remove(t, held.row);
    }
}

// The longest lifespan that is counted from the present second, in seconds.
const THIRTY_DAYS: u64 = 2_592_000;

// The deadline of what a request writes: none where it has no lifespan, the present second plus a lifespan of at most 30 days, and a longer one as it is.
#[tactic(auto, unfolding(map::specs::Deadline::deadline))]
fn deadline(h: Head, present: Second) -> Second
    requires { present.0 + h.lifespan < 0x2_0000_0000 }
    ensures { (name key value : List ℕ) → result.0 ≡ expiry.deadline present.0 (request_of h name key value) }
{
    if h.lifespan == 0 {
        return Second(0);
    }
    if h.flags / 2 % 2 == 1 {
        return Second(0);
    }
    if h.lifespan <= THIRTY_DAYS {
        return Second(present.0 + h.lifespan);
    }
    Second(h.lifespan)
}

// Sets the value and the deadline under a key, with the next version: of the row held, or of a row that is added.
#[tactic(auto, using(crate::proofs::StepLaws::row_stored, crate::proofs::StepLaws::none_stored))]
fn store(t: &mut [u8], held: Option<Held>, key: &[u8], value: &[u8], deadline: Second)
    requires { Storable t.old key.now value.now held }
    ensures { table.Changed t.old t.new (replaced key.now value.now deadline.0 (state_of t.old)) }
{
    match held {
        Some(held) => table::renew(t, held.row, value, deadline),
        None => table::add(t, key, value, deadline),
    };
}

// Makes the change that is planned. The present second is the latest one, since the call is noted.
fn change(input: &[u8], r: Request, t: &mut [u8], c: Change, held: Option<Held>)
    requires { Agreed t.old (request_in input.now r) held (as_change c) }
    ensures { table.Changed t.old t.new (after (request_in input.now r) (state_of t.old) (as_change c)) }
{
    match c {
        Change::Keep => {}
        Change::Store => {
            let until = deadline(r.head, table::latest(t));
            store(t, held, r.key_in(input), r.value_in(input), until);
        }
        Change::Drop => drop_row(t, held),
        Change::Empty => {
            table::clear(t);
        }
    }
}

// A request that was read, which took n bytes, with the room that it asks for. It is judged by what stands at the present second, on the table as it is: a
// call that is refused changes nothing. The reply comes before the change, since an old value stands in the table.
pub(crate) fn perform(
    input: &[u8],
    r: Request,
    n: usize,
    t: &mut [u8],
    context: Context,
    out: &mut [u8],
) -> Answer
    requires sound { Sound t.old }
    requires room_in_bounds { stream.room_of r.head.op ≤ length out.old }
    requires valid { Valid request (request_in input.now r) }
    ensures { Performs t.old (request_in input.now r) (as_context context) n out.old (done_of result out.new t.new) }
{
    let h = r.head;
    if r.name_in(input).len() != 0 {
        return refuse(out, h.id, Refusal::Cache, n);
    }
    let key = r.key_in(input);
    let present = table::present(t, context.second);
    let held = plan::held_in(t, key, present);
    let p = plan::plan_of(h.op, h.entry, held);
    if let Err(refusal) = plan::refusal_of(t, p.change, held, present) {
        return refuse(out, h.id, refusal, n);
    }
    let held = arrive(t, h, key, held, context);
    let a = respond(out, t, h, p.status, held, context, n);
    change(input, r, t, p.change, held);
    a
}

// The reply room that an operation asks for.
#[tactic(auto, unfolding(service::specs::Serve::room_of))]
fn room_of(op: Operation) -> usize
    ensures { result ≡ stream.room_of op }
{
    match op {
        Operation::BulkGet | Operation::BulkGetKeys => Answer::BULK_ROOM,
        _ => Answer::ROOM,
    }
}

// A request that was read: one that asks for more room than there is takes its bytes and is refused 12, before all that its call would be refused for.
fn perform_within(
    input: &[u8],
    r: Request,
    n: usize,
    t: &mut [u8],
    context: Context,
    out: &mut [u8],
) -> Answer
    requires sound { Sound t.old }
    requires room_in_bounds { stream.room ≤ length out.old }
    requires valid { Valid request (request_in input.now r) }
    ensures { PerformsWithin t.old (request_in input.now r) (as_context context) n out.old (done_of result out.new t.new) }
{
    if out.len() < room_of(r.head.op) {
        return unsent(n, Verdict::Refused(Refusal::Room));
    }
    perform(input, r, n, t, context, out)
}

// The request at the front of the input.
pub(crate) fn serve_sound(input: &[u8], t: &mut [u8], context: Context, out: &mut [u8]) -> Answer
    requires sound { Sound t.old }
    requires room_in_bounds { stream.room ≤ length out.old }
    ensures { Serves input.now t.old (at (as_context context) out.old) (done_of result out.new t.new) }
{
    match request_reader::read_request(input) {
        Ok(Some((r, n))) => perform_within(input, r, n, t, context, out),
        Ok(None) => unsent(0, Verdict::More),
        Err(refusal) => refuse(out, request_reader::read_id(input), refusal, 0),
    }
}
