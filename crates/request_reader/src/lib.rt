#![tactic(auto)]
// The reader of a request.
ghost use Rattle.std.specs.Prelude.{◌≡◌};
ghost use Rattle.wire.specs.Codec.{read_at, mapped};
ghost use Rattle.field.specs.FieldRead.{as_read, as_version};
ghost use Rattle.message.specs.Arguments.{shape_of, args_of};
ghost use Rattle.message.specs.Request.{request, edition_at};
ghost use Rattle.message.specs.Start.{start, id_in};
ghost use Rattle.request_reader.specs.RequestRead.{as_request, request_at, front, options};
ghost use Rattle.request_reader.specs.Parts.{options_at, args_at, together_of, sends_of, transaction_in, part_in, int_in, entry_in, bulk_in};

use field::{Cursor, EntryVersion, Kind, Read, Refusal, Span};
use message::{Head, Operation, Request};
use rules::Shape;

// The fields up to the operation, those from the name on, and the arguments. A number that the operation does not send is 0, and so is a part's start and
// length.
// The version is a byte here and in the functions that are given it, as in `message::Head`.
#[derive(Clone, Copy)]
struct Front {
    id: u64,
    version: u8,
    op: Operation,
}

#[derive(Clone, Copy)]
struct Options {
    name: Span,
    flags: u64,
    intelligence: u8,
    topology: u64,
}

#[derive(Clone, Copy)]
struct Args {
    key: Span,
    lifespan: u64,
    idle: u64,
    entry: EntryVersion,
    value: Span,
    bulk: u64,
}

// The magic and the message id.
fn read_start(s: &[u8]) -> Read<u64>
    ensures { as_read result ≡ start.dec s.now }
{
    let Some((_, next)) = field::read_between(s, Cursor { at: 0 }, 0xa0, 0xa0, Refusal::Magic)?
    else {
        return Ok(None);
    };
    field::read_number(s, next, Kind::VLong)
}

// The message id that an error reply answers to.
#[tactic(auto, unfolding(message::specs::Start::id_in))]
pub fn read_id(s: &[u8]) -> u64
    ensures { result ≡ id_in s.now }
{
    match read_start(s) {
        Ok(Some((id, _))) => id,
        _ => 0,
    }
}

#[tactic(auto, using(crate::proofs::Read::at_first))]
fn read_front(s: &[u8]) -> Read<Front>
    ensures { as_read result ≡ front.dec s.now }
{
    let Some((id, c1)) = read_start(s)? else {
        return Ok(None);
    };
    let Some((version, c2)) = field::read_byte(s, c1) else {
        return Ok(None);
    };
    if !rules::is_served(version) {
        return Err(Refusal::Version);
    }
    let Some((code, c3)) = field::read_byte(s, c2) else {
        return Ok(None);
    };
    let op = Operation::try_from(code)?;
    if !rules::serves(version, op) {
        return Err(Refusal::Operation);
    }
    Ok(Some((Front { id, version, op }, c3)))
}

// The transaction type, where the version has one.
// The cursor does not hold the bytes: each contract would then also say that the next cursor holds the same ones.
fn read_transaction(s: &[u8], c: Cursor, version: u8) -> Read<u8>
    ensures { as_read result ≡ transaction_in s.now (edition_at version).transaction c.at }
{
    if rules::has_transaction(version) {
        return field::read_between(s, c, 0, 0, Refusal::Field);
    }
    Ok(Some((0, c)))
}

#[tactic(auto, using(crate::proofs::Read::at_options), unfolding(wire::specs::Number::v_int))]
fn read_options(s: &[u8], c: Cursor, version: u8) -> Read<Options>
    ensures { as_read result ≡ mapped (options_at c.at) (read_at (options version) s.now c.at) }
{
    let Some((name, c1)) = field::read_text(s, c, Request::NAME)? else {
        return Ok(None);
    };
    let Some((flags, c2)) = field::read_number(s, c1, Kind::VInt)? else {
        return Ok(None);
    };
    if rules::greatest_flags(version) < flags {
        return Err(Refusal::Field);
    }
    let Some((intelligence, c3)) = field::read_between(s, c2, 1, 3, Refusal::Field)? else {
        return Ok(None);
    };
    let Some((topology, c4)) = field::read_number(s, c3, Kind::VInt)? else {
        return Ok(None);
    };
    let Some((_, c5)) = read_transaction(s, c4, version)? else {
        return Ok(None);
    };
    let options = Options {
        name,
        flags,
        intelligence,
        topology,
    };
    Ok(Some((options, c5)))
}

// Which arguments an operation is sent: a key; the times and the value of a write; an entry version; and of a number the greatest one.
// Flags, since of a key, a write and a version operations differ only in whether they are sent.
#[derive(Clone, Copy)]
struct Sends {
    key: bool,
    write: bool,
    version: bool,
    bulk: Option<u64>,
}

const NOTHING: Sends = Sends {
    key: false,
    write: false,
    version: false,
    bulk: None,
};

// The one match on the shape: the reader of the arguments goes by what it answers.
fn sent_by(op: Operation) -> Sends
    ensures { result ≡ sends_of (shape_of op) }
{
    match rules::shape_of(op) {
        Shape::Keyed => Sends {
            key: true,
            ..NOTHING
        },
        Shape::Writes => Sends {
            key: true,
            write: true,
            ..NOTHING
        },
        Shape::WritesIf => Sends {
            key: true,
            write: true,
            version: true,
            ..NOTHING
        },
        Shape::KeyedIf => Sends {
            key: true,
            version: true,
            ..NOTHING
        },
        Shape::Bare => NOTHING,
        Shape::Bulk(most) => Sends {
            bulk: Some(most),
            ..NOTHING
        },
    }
}

// A key or a value, where it is sent.
// A single generic reader for this, for a vInt and for an entry version would take a blank and a closure at each of five calls.
// It, `read_int` and `read_bulk` are compiled into their caller: a call would hand their answers on through memory, and a get would take 4 in 100 instructions more.
#[inline(always)]
fn read_part(s: &[u8], c: Cursor, sent: bool, lim: u64) -> Read<Span>
    ensures { as_read result ≡ part_in s.now lim sent c.at }
{
    if !sent {
        return Ok(Some((Span { start: 0, len: 0 }, c)));
    }
    field::read_limited(s, c, lim)
}

// A vInt, where it is sent: a lifespan, a max idle.
#[inline(always)]
#[tactic(auto, unfolding(wire::specs::Number::v_int))]
fn read_int(s: &[u8], c: Cursor, sent: bool) -> Read<u64>
    ensures { as_read result ≡ int_in s.now sent c.at }
{
    if !sent {
        return Ok(Some((0, c)));
    }
    field::read_number(s, c, Kind::VInt)
}

fn read_entry(s: &[u8], c: Cursor, sent: bool) -> Option<(EntryVersion, Cursor)>
    ensures { as_version result ≡ entry_in s.now sent c.at }
{
    if !sent {
        return Some((EntryVersion(0), c));
    }
    field::read_version(s, c)
}

// The number of a bulkGet or a bulkGetKeys, where one is sent: one above the greatest is refused.
#[inline(always)]
#[tactic(auto, using(crate::proofs::Read::at_bulk), unfolding(wire::specs::Number::v_int))]
fn read_bulk(s: &[u8], c: Cursor, most: Option<u64>) -> Read<u64>
    ensures { as_read result ≡ bulk_in s.now most c.at }
{
    let Some(most) = most else {
        return Ok(Some((0, c)));
    };
    let Some((n, next)) = field::read_number(s, c, Kind::VInt)? else {
        return Ok(None);
    };
    if most < n {
        return Err(Refusal::Field);
    }
    Ok(Some((n, next)))
}

// The arguments, each where the operation's shape has it.
#[tactic(auto, using(crate::proofs::Read::at_args))]
fn read_args(s: &[u8], c: Cursor, op: Operation) -> Read<Args>
    ensures { as_read result ≡ mapped (args_at c.at) (read_at (args_of (shape_of op)) s.now c.at) }
{
    let sent = sent_by(op);
    let Some((key, c1)) = read_part(s, c, sent.key, Request::KEY)? else {
        return Ok(None);
    };
    let Some((lifespan, c2)) = read_int(s, c1, sent.write)? else {
        return Ok(None);
    };
    let Some((idle, c3)) = read_int(s, c2, sent.write)? else {
        return Ok(None);
    };
    let Some((entry, c4)) = read_entry(s, c3, sent.version) else {
        return Ok(None);
    };
    let Some((value, c5)) = read_part(s, c4, sent.write, Request::VALUE)? else {
        return Ok(None);
    };
    let Some((bulk, end)) = read_bulk(s, c5, sent.bulk)? else {
        return Ok(None);
    };
    let args = Args {
        key,
        lifespan,
        idle,
        entry,
        value,
        bulk,
    };
    Ok(Some((args, end)))
}

// The request of its three parts.
// Field by field, since the numbers of a `Head` come from all three.
fn put_together(front: Front, options: Options, args: Args) -> Request
    ensures { result ≡ together_of front options args }
{
    Request {
        head: Head {
            id: front.id,
            version: front.version,
            op: front.op,
            flags: options.flags,
            intelligence: options.intelligence,
            topology: options.topology,
            lifespan: args.lifespan,
            idle: args.idle,
            entry: args.entry,
            bulk: args.bulk,
        },
        name: options.name,
        key: args.key,
        value: args.value,
    }
}

// The request at the front of the bytes, with the number of bytes that it took; nothing, where more bytes are needed; or the refusal.
#[tactic(auto, using(crate::proofs::Read::at_request))]
pub fn read_request(s: &[u8]) -> Result<Option<(Request, usize)>, Refusal>
    ensures { as_request result ≡ mapped request_at (request.dec s.now) }
{
    let Some((front, c1)) = read_front(s)? else {
        return Ok(None);
    };
    let Some((options, c2)) = read_options(s, c1, front.version)? else {
        return Ok(None);
    };
    let Some((args, end)) = read_args(s, c2, front.op)? else {
        return Ok(None);
    };
    Ok(Some((put_together(front, options, args), end.at)))
}
