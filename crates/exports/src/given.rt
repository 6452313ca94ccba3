// The numbers of a message that the caller gives.
ghost use Rattle.std.specs.Prelude.{◌≡◌};
ghost use Rattle.exports.specs.Messages.{is_head, head_with, HeadFits, is_reply_head, reply_head_with, ReplyHeadFits};

use field::EntryVersion;
use message::{Head, Operation, ReplyHead};

// Are they those of a request, but for the operation?
pub(crate) fn is_head(ns: &[u64]) -> bool
    ensures { result ≡ is_head ns.now }
{
    ns.len() >= 10 && ns[1] <= 255 && ns[2] <= 255 && ns[4] <= 255
}

// Those that become a byte are 255 at the most, here, in `reply_head` and in `fq_write_request`: `try_from` would have an answer that cannot be.
pub(crate) fn head(ns: &[u64], op: Operation) -> Head
    requires { HeadFits ns.now }
    ensures { result ≡ head_with ns.now op }
{
    Head {
        id: ns[0],
        version: ns[1] as u8,
        op,
        flags: ns[3],
        intelligence: ns[4] as u8,
        topology: ns[5],
        lifespan: ns[6],
        idle: ns[7],
        entry: EntryVersion(ns[8]),
        bulk: ns[9],
    }
}

// Are they those of a reply?
pub(crate) fn is_reply_head(ns: &[u64]) -> bool
    ensures { result ≡ is_reply_head ns.now }
{
    ns.len() >= 4 && ns[1] <= 255 && ns[2] <= 255
}

pub(crate) fn reply_head(ns: &[u64]) -> ReplyHead
    requires { ReplyHeadFits ns.now }
    ensures { result ≡ reply_head_with ns.now }
{
    ReplyHead {
        id: ns[0],
        op: ns[1] as u8,
        status: ns[2] as u8,
        entry: EntryVersion(ns[3]),
    }
}
