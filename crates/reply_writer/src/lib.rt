#![tactic(auto)]
// The writers of a reply, whatever was asked.
// Operations and statuses are any byte here: those that are not awaited or not allowed are judged, and refused. An id and room go apart, since the public
// writers are given them so, and each writes them to a codec of its own.
mod counted;
mod header;
mod listed;
mod write;

ghost use Rattle.std.specs.Prelude.{◌≡◌, ◌≤◌};
ghost use Rattle.wire.specs.Write.{send};
ghost use Rattle.message.specs.Sent.{as_sent};
ghost use Rattle.statistics.specs.Statistics.{list_of};
ghost use Rattle.listing.specs.EntryWrite.{listed_in};
ghost use Rattle.message.specs.Reply.{awaited, reply, reply_of, error_reply, statistics_reply, entries_reply};
ghost use Rattle.message.specs.Payload.{fields_of};
ghost use Rattle.message.specs.Refusal.{refusal};
ghost use Rattle.reply_writer.specs.Frame.{framed, error_of, answers_to, sent_head};

use field::{EntryVersion, Refusal};
use message::{Asked, Form, Operation, ReplyHead};
use statistics::Statistics;
use write::Answer;

// The reply to what was asked: its numbers, value and text. What is not sent is 0 or empty. A reply to stats has no written form without its
// statistics: it is 16 here, and `write_statistics` writes it. A reply to bulkGet or bulkGetKeys has no entries here: `write_entries` writes those.
pub fn write_reply(
    out: &mut [u8],
    asked: Asked,
    head: ReplyHead,
    value: &[u8],
    text: &[u8],
) -> Result<usize, Refusal>
    ensures { (as_sent result, out.new) ≡ send (reply asked) (reply_of head value.now text.now) out.old }
{
    let Ok(o) = rules::awaited_by(asked) else {
        return Err(Refusal::Message);
    };
    if !rules::is_awaited(o, head.op) {
        return Err(Refusal::Message);
    }
    let old = rules::with_old(asked.version, asked.flag);
    let b = rules::body_at(old, o, head.op, head.status);
    if b.is_none() {
        return Err(Refusal::Message);
    }
    write_formed(out, head, rules::form_of(asked.flag, b), value, text)
}

// The reply of a form: its numbers, value and text, for one who has judged its operation and status by the reply table. What the form does not send is 0 or
// empty, else it is 16.
pub fn write_formed(
    out: &mut [u8],
    head: ReplyHead,
    form: Form,
    value: &[u8],
    text: &[u8],
) -> Result<usize, Refusal>
    ensures { (as_sent result, out.new) ≡ send (framed (fields_of form)) (reply_of head value.now text.now) out.old }
{
    let answer = Answer {
        head,
        form,
        value,
        text,
    };
    answer.write(out)
}

// Is the reply with an operation awaited, by what was asked?
fn is_reply(asked: Asked, op: u8) -> bool
    ensures { result ≡ answers_to op (awaited asked) }
{
    rules::awaited_by(asked).is_ok_and(|o| rules::is_awaited(o, op))
}

// The reply to stats: the nine statistics. Where something else was asked it is 16.
// This, `write_entries` and `write_bulk_head` judge by `is_reply`, and then each calls another writer.
pub fn write_statistics(
    out: &mut [u8],
    asked: Asked,
    id: u64,
    x: Statistics,
) -> Result<usize, Refusal>
    ensures { (as_sent result, out.new) ≡ send (reply asked) (statistics_reply id (list_of x)) out.old }
{
    if !is_reply(asked, 0x16) {
        return Err(Refusal::Message);
    }
    counted::write_counted(out, id, x)
}

// The reply to bulkGet or to bulkGetKeys. Where something else was asked it is 16. Four numbers name each entry: the start and the length of its key in
// `bytes`, and those of its value.
// They stay numbers in a row, as the C function `fq_write_entries` is given them.
pub fn write_entries(
    out: &mut [u8],
    asked: Asked,
    id: u64,
    bytes: &[u8],
    numbers: &[u64],
) -> Result<usize, Refusal>
    ensures { (as_sent result, out.new) ≡ send (reply asked) (entries_reply asked id (listed_in bytes.now numbers.now)) out.old }
{
    let values = asked.op == u8::from(Operation::BulkGet);
    if !is_reply(asked, listed::bulk_code(values)) {
        return Err(Refusal::Message);
    }
    listed::write_listed(out, id, values, bytes, numbers)
}

// The header of the reply to bulkGet or to bulkGetKeys, at the front: the entries are to be written behind it. Where something else was asked it is 16.
pub fn write_bulk_head(out: &mut [u8], asked: Asked, id: u64) -> Result<usize, Refusal>
    ensures { (as_sent result, out.new) ≡ sent_head asked id out.old }
{
    let values = asked.op == u8::from(Operation::BulkGet);
    if !is_reply(asked, listed::bulk_code(values)) {
        return Err(Refusal::Message);
    }
    listed::write_head(out, id, values)
}

// The error reply of a refusal, whatever was asked. Each arm is a row of the table of errors; rows as data would have to be searched. Any number is answered: one
// that no error reply has is 16.
pub fn write_error(out: &mut [u8], id: u64, k: u8) -> Result<usize, Refusal>
    ensures { (as_sent result, out.new) ≡ send error_reply (refusal k id) out.old }
{
    match k {
        1 => write_text(out, id, 0x81, b"bad magic"),
        2 => write_text(out, id, 0x81, b"bad message id"),
        3 => write_text(out, id, 0x83, b"bad version"),
        4 => write_text(out, id, 0x82, b"bad command"),
        5 => write_text(out, id, 0x84, b"bad number"),
        6 => write_text(out, id, 0x84, b"too long"),
        7 => write_text(out, id, 0x84, b"bad text"),
        8 => write_text(out, id, 0x84, b"bad field"),
        9 => write_text(out, id, 0x85, b"no such cache"),
        10 => write_text(out, id, 0x85, b"full"),
        11 => write_text(out, id, 0x85, b"no versions left"),
        _ => Err(Refusal::Message),
    }
}

// An error reply of a status and a text. It is the same to every request: this is one to a ping.
fn write_text(out: &mut [u8], id: u64, status: u8, text: &[u8]) -> Result<usize, Refusal>
    requires le_status { 0x81 ≤ status }
    requires status_bound { status ≤ 0x86 }
    ensures { (as_sent result, out.new) ≡ send error_reply (error_of id status text.now) out.old }
{
    let a = ReplyHead {
        id,
        op: 0x50,
        status,
        entry: EntryVersion(0),
    };
    let ping = Asked {
        version: 10,
        op: 0x17,
        flag: false,
    };
    write_reply(out, ping, a, &text[0..0], text)
}
