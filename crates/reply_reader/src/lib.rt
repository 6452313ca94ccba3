#![tactic(auto)]
// The reader of a reply, for any bytes and whatever was asked.
mod read;

ghost use Rattle.std.specs.Prelude.{◌≡◌};
ghost use Rattle.wire.specs.Codec.{mapped};
ghost use Rattle.message.specs.Reply.{reply};
ghost use Rattle.reply_reader.specs.ReplyRead.{as_reply, reply_at};

use field::{Refusal, Span};
use message::{Asked, Reply, ReplyHead};
use statistics::Statistics;

// The entries of a bulk reply: how many they are, and the part of the bytes where they stand, from the first more byte through the byte 0 at the end.
#[derive(Clone, Copy)]
pub struct Entries {
    pub count: u64,
    pub part: Span,
}

// A reply that was read: with a value and a text; a stats reply with the nine; or a bulk reply with its entries.
#[derive(Clone, Copy)]
pub enum AnyReply {
    Plain(Reply),
    Statistics(ReplyHead, Statistics),
    Entries(ReplyHead, Entries),
}

// The reply to what was asked, with the number of bytes that it took; nothing, where more bytes are needed; or the refusal.
pub fn read_reply(s: &[u8], asked: Asked) -> Result<Option<(AnyReply, usize)>, Refusal>
    ensures { as_reply result ≡ mapped reply_at ((reply asked).dec s.now) }
{
    let operation = rules::awaited_by(asked)?;
    let old = rules::with_old(asked.version, asked.flag);
    read::read_message(s, operation, old, asked.flag)
}
