// The writer of a bulk reply: its entries, and then its header.
ghost use Rattle.std.specs.Prelude.{◌≡◌, [], ◌+◌};
ghost use Rattle.wire.specs.Write.{send};
ghost use Rattle.listing.specs.EntryWrite.{listed_in};
ghost use Rattle.message.specs.Operation.{code_of};
ghost use Rattle.message.specs.Sent.{as_sent};
ghost use Rattle.message.specs.Payload.{no_body, listed_body};
ghost use Rattle.message.specs.Reply.{bulk_operation, bulk_reply};
ghost use Rattle.reply_writer.specs.Frame.{framed};

use crate::header;
use field::Refusal;
use message::Operation;

// The operation of a reply to bulkGet, or to bulkGetKeys.
pub(crate) fn bulk_code(values: bool) -> u8
    ensures { result ≡ code_of (bulk_operation values) + 1 }
{
    u8::from(Operation::bulk(values)) + 1
}

// The header alone.
pub(crate) fn write_head(out: &mut [u8], id: u64, values: bool) -> Result<usize, Refusal>
    ensures { (as_sent result, out.new) ≡ send (framed no_body) (bulk_reply values id []) out.old }
{
    header::judge(id, Some(0), out.len())?;
    Ok(header::put_header(out, id, bulk_code(values), 0))
}

// The entries come first, behind the place of the header: where they are not written, nothing is. They are not judged as other bodies are, since their
// length is counted only where they were not written.
pub(crate) fn write_listed(
    out: &mut [u8],
    id: u64,
    values: bool,
    bytes: &[u8],
    numbers: &[u64],
) -> Result<usize, Refusal>
    ensures { (as_sent result, out.new) ≡ send (framed (listed_body values)) (bulk_reply values id (listed_in bytes.now numbers.now)) out.old }
{
    if 0x7fff_ffff_ffff_ffff < id {
        return Err(Refusal::Message);
    }
    let n = header::header_len(id);
    let end = listing::put::put_entries(out, n, bytes, numbers, values);
    if end == n {
        return match listing::put::entries_len(bytes, numbers, values) {
            Some(_) => Err(Refusal::Room),
            None => Err(Refusal::Message),
        };
    }
    header::put_header(out, id, bulk_code(values), 0);
    Ok(end)
}
