// The parts of the reader of a reply.
ghost use Rattle.std.specs.Prelude.{◌≡◌, length};
ghost use Rattle.wire.specs.Codec.{read_at, after, mapped, whole};
ghost use Rattle.wire.specs.Field.{entry_version, limited};
ghost use Rattle.field.specs.FieldRead.{nowhere, span_to, limited_text};
ghost use Rattle.statistics.specs.Statistics.{statistics};
ghost use Rattle.message.specs.Arguments.{value_limit};
ghost use Rattle.message.specs.Listing.{listing};
ghost use Rattle.message.specs.Payload.{text_limit, fields_of};
ghost use Rattle.message.specs.Reply.{message, is_awaited, statuses_of};
ghost use Rattle.reply_reader.specs.ReplyRead.{as_reply, reply_at, reply_with, head_with, with_parts, with_statistics, with_entries, entries_to, bulk_of, listed_of};

use crate::{AnyReply, Entries};
use field::{Cursor, EntryVersion, Kind, Refusal, Span};
use message::{Form, Operation, Reply, ReplyHead};

// What reading a reply finds: the reply with the number of its bytes, or nothing, where more bytes are needed.
type Found = Result<Option<(AnyReply, usize)>, Refusal>;

// Bytes that are not sent stand nowhere.
const NOWHERE: Span = Span { start: 0, len: 0 };

// A body that is a value of at most a length; an entry version and a value; a text.
// The cursor does not hold the bytes: each contract would then also say that the next cursor holds the same ones.
// `read_text` differs in its reader and in the field that it fills: one function for both would take the two as closures.
fn read_value(s: &[u8], c: Cursor, head: ReplyHead, lim: u64) -> Found
    ensures { as_reply result ≡ after (mapped span_to (read_at (limited lim) s.now c.at)) (λ p j. whole (with_parts head p nowhere) j) }
{
    let Some((value, next)) = field::read_limited(s, c, lim)? else {
        return Ok(None);
    };
    let reply = Reply {
        head,
        value,
        text: NOWHERE,
    };
    Ok(Some((AnyReply::Plain(reply), next.at)))
}

fn read_versioned(s: &[u8], c: Cursor, head: ReplyHead) -> Found
    ensures { as_reply result ≡ after (read_at entry_version s.now c.at) (λ e j. after (mapped span_to (read_at (limited value_limit) s.now j)) (λ p l. whole (with_parts (head_with head e) p nowhere) l)) }
{
    let Some((entry, next)) = field::read_version(s, c) else {
        return Ok(None);
    };
    read_value(s, next, ReplyHead { entry, ..head }, Reply::VALUE)
}

fn read_text(s: &[u8], c: Cursor, head: ReplyHead) -> Found
    ensures { as_reply result ≡ after (mapped span_to (read_at (limited_text text_limit) s.now c.at)) (λ p j. whole (with_parts head nowhere p) j) }
{
    let Some((text, next)) = field::read_text(s, c, Reply::TEXT)? else {
        return Ok(None);
    };
    let reply = Reply {
        head,
        value: NOWHERE,
        text,
    };
    Ok(Some((AnyReply::Plain(reply), next.at)))
}

// A body that is the nine statistics.
fn read_statistics(s: &[u8], c: Cursor, head: ReplyHead) -> Found
    ensures { as_reply result ≡ after (read_at statistics s.now c.at) (λ ns j. whole (with_statistics head ns) j) }
{
    let Some((statistics, next)) = statistics::read_statistics(s, c)? else {
        return Ok(None);
    };
    Ok(Some((AnyReply::Statistics(head, statistics), next.at)))
}

// A body of entries, which end the reply.
fn read_listed(s: &[u8], c: Cursor, head: ReplyHead, values: bool) -> Found
    ensures { as_reply result ≡ after (mapped (λ es n. length es) (read_at (listing values) s.now c.at)) (λ k j. whole (with_entries head (entries_to c.at k j)) j) }
{
    let Some((count, next)) = listing::read_entries(s, c, values)? else {
        return Ok(None);
    };
    let part = Span {
        start: c.at,
        len: next.at - c.at,
    };
    Ok(Some((AnyReply::Entries(head, Entries { count, part }), next.at)))
}

// The body behind a header, whose entry version is not read yet.
// A match on the form, each of which has a reader with a contract of its own.
// Compiled into its caller, as `field::read_number` is: a reply without a body would take a quarter longer to read.
#[inline(always)]
fn read_body(s: &[u8], c: Cursor, head: ReplyHead, form: Form) -> Found
    requires a_value { head.entry.0 ≡ 0 }
    requires op_value { bulk_of head.op ≡ listed_of form }
    ensures { as_reply result ≡ mapped reply_at (after (read_at (fields_of form) s.now c.at) (λ p j. whole (reply_with head p) j)) }
{
    match form {
        Form::Nothing => {
            let reply = Reply {
                head,
                value: NOWHERE,
                text: NOWHERE,
            };
            Ok(Some((AnyReply::Plain(reply), c.at)))
        }
        Form::Value(lim) => read_value(s, c, head, lim),
        Form::Versioned => read_versioned(s, c, head),
        Form::Text => read_text(s, c, head),
        Form::Statistics => read_statistics(s, c, head),
        Form::Listed(values) => read_listed(s, c, head, values),
    }
}

// The reply to an operation that is served. `old`: the status says whether an old value follows.
pub(crate) fn read_message(s: &[u8], operation: Operation, old: bool, flag: bool) -> Found
    ensures { as_reply result ≡ mapped reply_at (read_at (message (is_awaited operation) (statuses_of old operation) flag) s.now 0) }
{
    let Some((_, c1)) = field::read_between(s, Cursor { at: 0 }, 0xa1, 0xa1, Refusal::Magic)? else {
        return Ok(None);
    };
    let Some((id, c2)) = field::read_number(s, c1, Kind::VLong)? else {
        return Ok(None);
    };
    let Some((op, c3)) = field::read_byte(s, c2) else {
        return Ok(None);
    };
    if !rules::is_awaited(operation, op) {
        return Err(Refusal::Operation);
    }
    let Some((status, c4)) = field::read_byte(s, c3) else {
        return Ok(None);
    };
    let body = rules::body_at(old, operation, op, status);
    if body.is_none() {
        return Err(Refusal::Field);
    }
    let Some((_, c5)) = field::read_between(s, c4, 0, 0, Refusal::Field)? else {
        return Ok(None);
    };
    let head = ReplyHead {
        id,
        op,
        status,
        entry: EntryVersion(0),
    };
    read_body(s, c5, head, rules::form_of(flag, body))
}
