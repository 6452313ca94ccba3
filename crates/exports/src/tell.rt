// Answers as numbers, and numbers told at the front of a list that the caller lends.
ghost use Rattle.std.specs.Prelude.{◌≡◌, ◌<◌, ◌^◌, []};
ghost use Rattle.message.specs.Sent.{as_sent};
ghost use Rattle.listing.specs.EntryRead.{spans_of};
ghost use Rattle.reply_reader.specs.ReplyRead.{answer_of};
ghost use Rattle.exports.specs.Calls.{done_code};
ghost use Rattle.exports.specs.Codes.{sent_code, tell};
ghost use Rattle.exports.specs.Messages.{whole_request, whole_reply, whole_entry};

use field::{Refusal, Span};
use listing::Entry;
use message::{Reply, Request};
use reply_reader::{AnyReply, Entries};
use statistics::Statistics;

// A list that is shorter than the numbers is left as it was.
pub(crate) fn numbers(answer: &mut [u64], ns: &[u64])
    ensures { answer.new ≡ tell ns.now answer.old }
{
    if answer.len() < ns.len() {
        return;
    }
    answer[..ns.len()].copy_from_slice(ns);
}

pub(crate) fn request(answer: &mut [u64], q: Request, n: usize)
    ensures { answer.new ≡ tell (whole_request q n) answer.old }
{
    let h = q.head;
    let ns = [
        n as u64,
        h.id,
        h.version as u64,
        u8::from(h.op) as u64,
        h.flags,
        h.intelligence as u64,
        h.topology,
        h.lifespan,
        h.idle,
        h.entry.0,
        h.bulk,
        q.name.start as u64,
        q.name.len as u64,
        q.key.start as u64,
        q.key.len as u64,
        q.value.start as u64,
        q.value.len as u64,
    ];
    numbers(answer, &ns);
}

// The numbers of a reply: those of its head, where its parts stand, its statistics, and its entries.
fn reply_numbers(answer: &mut [u64], q: Reply, nine: [u64; Statistics::COUNT], e: Entries, n: usize)
    ensures { answer.new ≡ tell (whole_reply (q, (nine, e)) n) answer.old }
{
    let h = q.head;
    let ns = [
        n as u64,
        h.id,
        h.op as u64,
        h.status as u64,
        h.entry.0,
        q.value.start as u64,
        q.value.len as u64,
        q.text.start as u64,
        q.text.len as u64,
        nine[0],
        nine[1],
        nine[2],
        nine[3],
        nine[4],
        nine[5],
        nine[6],
        nine[7],
        nine[8],
        e.count,
        e.part.start as u64,
        e.part.len as u64,
    ];
    numbers(answer, &ns);
}

// A reply that has a value and a text; a stats reply, with the nine; or a bulk reply, with its entries. What a reply has not is 0.
pub(crate) fn reply(answer: &mut [u64], q: AnyReply, n: usize)
    ensures { answer.new ≡ tell (whole_reply (answer_of q) n) answer.old }
{
    let none = Span { start: 0, len: 0 };
    let no_entries = Entries {
        count: 0,
        part: none,
    };
    let bare = |head| Reply {
        head,
        value: none,
        text: none,
    };
    match q {
        AnyReply::Plain(q) => reply_numbers(answer, q, [0; Statistics::COUNT], no_entries, n),
        AnyReply::Statistics(h, x) => reply_numbers(answer, bare(h), x.into(), no_entries, n),
        AnyReply::Entries(h, e) => reply_numbers(answer, bare(h), [0; Statistics::COUNT], e, n),
    }
}

// An entry, or the end of the entries.
pub(crate) fn entry(answer: &mut [u64], entry: Option<Entry>, n: usize)
    ensures { answer.new ≡ tell (whole_entry (spans_of entry) n) answer.old }
{
    let ns = match entry {
        Some(Entry { key, value }) => [
            n as u64,
            1,
            key.start as u64,
            key.len as u64,
            value.start as u64,
            value.len as u64,
        ],
        None => [n as u64, 0, 0, 0, 0, 0],
    };
    numbers(answer, &ns);
}

// The answer of a writer.
// It tells how much was written, and `done` only that something was done.
pub(crate) fn sent(s: Result<usize, Refusal>) -> u64
    requires { sent_code (as_sent s) < 2 ^ 64 }
    ensures { result ≡ sent_code (as_sent s) }
{
    match s {
        Ok(n) => 256 + n as u64,
        Err(refusal) => u16::from(refusal) as u64,
    }
}

// The answer of one who does something, or refuses to.
pub(crate) fn done<T: Drop>(r: Result<T, Refusal>) -> u64
    ensures { result ≡ done_code r }
{
    match r {
        Ok(_) => 256,
        Err(refusal) => u16::from(refusal) as u64,
    }
}
