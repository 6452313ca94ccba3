#![tactic(auto)]
// The tables of the protocol: the served versions with their flags and operations, the arguments of each operation, and the reply table with the fields
// of each body.
// A version, an operation's code and a status are any byte here: what is not served, awaited or allowed is judged, and refused, by these functions.
ghost use Rattle.std.specs.Prelude.{◌≡◌, ◌&&◌};
ghost use Rattle.message.specs.Edition.{early};
ghost use Rattle.message.specs.Arguments.{shape_of};
ghost use Rattle.message.specs.Request.{is_version, edition_at};
ghost use Rattle.message.specs.ReplyTable.{body_at, table, allowed, has_old, status_with_old, reply_status};
ghost use Rattle.message.specs.Payload.{form_of, old_form};
ghost use Rattle.message.specs.Reply.{statuses_of, is_awaited, awaited};
ghost use Rattle.rules.specs.Awaited.{as_awaited};
ghost use Rattle.rules.specs.Body.{as_allowed, as_rows};
ghost use Rattle.rules.specs.Shape.{as_shape};

use field::Refusal;
use message::{Asked, Form, Operation, Reply};

// Which arguments an operation is sent.
#[derive(Clone, Copy)]
pub enum Shape {
    Keyed,
    Writes,
    WritesIf,
    KeyedIf,
    Bare,
    // A number, up to a greatest one.
    Bulk(u64),
}

#[tactic(auto, unfolding(message::specs::Arguments::shape_of))]
pub fn shape_of(op: Operation) -> Shape
    ensures { as_shape result ≡ shape_of op }
{
    match op {
        Operation::Put => Shape::Writes,
        Operation::Get => Shape::Keyed,
        Operation::PutIfAbsent => Shape::Writes,
        Operation::Replace => Shape::Writes,
        Operation::ReplaceIfUnmodified => Shape::WritesIf,
        Operation::Remove => Shape::Keyed,
        Operation::RemoveIfUnmodified => Shape::KeyedIf,
        Operation::ContainsKey => Shape::Keyed,
        Operation::GetWithVersion => Shape::Keyed,
        Operation::Clear => Shape::Bare,
        Operation::Stats => Shape::Bare,
        Operation::Ping => Shape::Bare,
        Operation::BulkGet => Shape::Bulk(0xffff_ffff),
        Operation::BulkGetKeys => Shape::Bulk(2),
    }
}

#[tactic(auto, unfolding(message::specs::Edition::edition_of))]
pub fn is_served(version: u8) -> bool
    ensures { result ≡ is_version version }
{
    match version {
        10 => true,
        11 => true,
        12 => true,
        20 => true,
        _ => false,
    }
}

// The greatest flags of a version.
#[tactic(auto, unfolding(message::specs::Edition::edition_of))]
pub fn greatest_flags(version: u8) -> u64
    ensures { result ≡ (edition_at version).flags }
{
    match version {
        10 => 1,
        11 => 1,
        12 => 7,
        20 => 31,
        _ => 0,
    }
}

// "bulkGetKeys (0x1D) from 12 on": every other operation is in all served versions.
fn is_early(op: Operation) -> bool
    ensures { result ≡ early op }
{
    u8::from(op) != 0x1d
}

// Does a version have an operation?
pub fn serves(version: u8, op: Operation) -> bool
    ensures { result ≡ (edition_at version).serves op }
{
    match version {
        10 => is_early(op),
        11 => is_early(op),
        _ => true,
    }
}

// Does the request header of a version end with a transaction type?
pub fn has_transaction(version: u8) -> bool
    ensures { result ≡ (edition_at version).transaction }
{
    version != 20
}

// Does the status of a reply say whether an old value follows, by the version and whether flag 0x0001 was set?
#[tactic(auto, using(message::proofs::Editions::old_statuses_is))]
pub fn with_old(version: u8, flag: bool) -> bool
    ensures { result ≡ ((edition_at version).old_statuses && flag) }
{
    version == 20 && flag
}

// What reply is awaited: that to an operation. "An unserved version gives the reader 3 before all else", and then an operation not served 4.
pub fn awaited_by(a: Asked) -> Result<Operation, Refusal>
    ensures { as_awaited a.version result ≡ awaited a }
{
    if !is_served(a.version) {
        return Err(Refusal::Version);
    }
    let op = Operation::try_from(a.op)?;
    if !serves(a.version, op) {
        return Err(Refusal::Operation);
    }
    Ok(op)
}

// What a reply carries behind its marker.
#[derive(Clone, Copy)]
pub enum Body {
    Nothing,
    Old,
    OldNone,
    Value,
    Versioned,
    Text,
    Statistics,
    Entries,
    Keys,
}

// "The reply's code is the request's plus 1; 0x50 is the error reply."
pub fn is_awaited(o: Operation, op: u8) -> bool
    ensures { result ≡ is_awaited o op }
{
    op == u8::from(o) + 1 || op == 0x50
}

// The body of a status in rows, each a status and what follows it.
fn body_in(status: u8, rows: &[(u8, Body)]) -> Option<Body>
    ensures { as_allowed result ≡ body_at status (as_rows rows.now) }
{
    for (s, body) in rows {
        if *s == status {
            return Some(*body);
        }
    }
    None
}

// The reply table: the rows of an operation, by whether the status says that an old value follows.
// `old` is a condition of the definition `table`, as `old` and `flag` are of `reply_status` and `old_form`: no step is handed over by it.
fn rows_of(old: bool, o: Operation) -> &'static [(u8, Body)]
    ensures { as_rows result.now ≡ table old o }
{
    match o {
        Operation::Put if old => &[(0x00, Body::Nothing), (0x03, Body::Value)],
        Operation::Put => &[(0x00, Body::Old)],
        Operation::PutIfAbsent if old => &[(0x00, Body::Nothing), (0x04, Body::Value)],
        Operation::PutIfAbsent => &[(0x00, Body::OldNone), (0x01, Body::Old)],
        Operation::Replace if old => &[(0x03, Body::Value), (0x01, Body::Nothing)],
        Operation::Replace => &[(0x00, Body::Old), (0x01, Body::OldNone)],
        Operation::Remove if old => &[(0x03, Body::Value), (0x02, Body::Nothing)],
        Operation::Remove => &[(0x00, Body::Old), (0x02, Body::OldNone)],
        Operation::ReplaceIfUnmodified | Operation::RemoveIfUnmodified if old => {
            &[
                (0x03, Body::Value),
                (0x04, Body::Value),
                (0x02, Body::Nothing),
            ]
        }
        Operation::ReplaceIfUnmodified | Operation::RemoveIfUnmodified => {
            &[
                (0x00, Body::Old),
                (0x01, Body::OldNone),
                (0x02, Body::OldNone),
            ]
        }
        Operation::Get => &[(0x00, Body::Value), (0x02, Body::Nothing)],
        Operation::GetWithVersion => &[(0x00, Body::Versioned), (0x02, Body::Nothing)],
        Operation::ContainsKey => &[(0x00, Body::Nothing), (0x02, Body::Nothing)],
        Operation::Clear => &[(0x00, Body::Nothing)],
        Operation::Stats => &[(0x00, Body::Statistics)],
        Operation::Ping => &[(0x00, Body::Nothing)],
        Operation::BulkGet => &[(0x00, Body::Entries)],
        Operation::BulkGetKeys => &[(0x00, Body::Keys)],
    }
}

// Is it an operation with an old value?
fn has_old(op: Operation) -> bool
    ensures { result ≡ has_old op }
{
    match op {
        Operation::Put => true,
        Operation::PutIfAbsent => true,
        Operation::Replace => true,
        Operation::ReplaceIfUnmodified => true,
        Operation::Remove => true,
        Operation::RemoveIfUnmodified => true,
        _ => false,
    }
}

fn status_with_old(status: u8) -> u8
    ensures { result ≡ status_with_old status }
{
    match status {
        0x00 => 0x03,
        0x01 => 0x04,
        _ => status,
    }
}

// The status of the reply, of the one planned.
#[tactic(auto, unfolding(message::specs::ReplyTable::reply_status))]
pub fn reply_status(old: bool, op: Operation, held: bool, status: u8) -> u8
    ensures { result ≡ reply_status old op held status }
{
    if old && held && has_old(op) {
        return status_with_old(status);
    }
    status
}

// The body of a status of a reply: of an error reply, or by the reply table; none where the status is not allowed.
pub fn body_at(old: bool, o: Operation, op: u8, status: u8) -> Option<Body>
    ensures { as_allowed result ≡ body_at status (statuses_of old o op) }
{
    if op != 0x50 {
        return body_in(status, rows_of(old, o));
    }
    match status {
        0x81..=0x86 => Some(Body::Text),
        _ => None,
    }
}

// The fields of a body: an old value is sent only if the flag was set. Where there is none, there are no fields.
pub fn form_of(flag: bool, b: Option<Body>) -> Form
    ensures { result ≡ form_of flag (allowed (as_allowed b)) }
{
    match b {
        None => Form::Nothing,
        Some(Body::Nothing) => Form::Nothing,
        Some(Body::Old) => old_form(flag, Reply::VALUE),
        Some(Body::OldNone) => old_form(flag, 0),
        Some(Body::Value) => Form::Value(Reply::VALUE),
        Some(Body::Versioned) => Form::Versioned,
        Some(Body::Text) => Form::Text,
        Some(Body::Statistics) => Form::Statistics,
        Some(Body::Entries) => Form::Listed(true),
        Some(Body::Keys) => Form::Listed(false),
    }
}

fn old_form(flag: bool, lim: u64) -> Form
    ensures { result ≡ old_form flag lim }
{
    if flag {
        Form::Value(lim)
    } else {
        Form::Nothing
    }
}
