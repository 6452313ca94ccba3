// The header of a reply, before any body.
ghost use Rattle.std.specs.Prelude.{◌≡◌, ◌+◌, ◌≤◌, length};
ghost use Rattle.wire.specs.Number.{v_long};
ghost use Rattle.wire.specs.Write.{Wrote};
ghost use Rattle.message.specs.Payload.{no_body};
ghost use Rattle.reply_writer.specs.Frame.{framed, header_of, judged};

use field::{Kind, Refusal, put};

// How many bytes a header takes: magic, operation, status and marker are one each.
pub(crate) fn header_len(id: u64) -> usize
    ensures { (result ≡ 4 + length (v_long.enc id)) × (result ≤ 13) }
{
    4 + put::number_len(id)
}

// Can a reply of an id be written into so much room, before a body of so many bytes? A body that has no written form has no length.
// `write_counted`, `write_head` and `Answer::write` share this and `put_header`; what is left in them is the body of each.
pub(crate) fn judge(id: u64, body: Option<usize>, room: usize) -> Result<(), Refusal>
    ensures { result ≡ judged id body room }
{
    let Some(n) = body else {
        return Err(Refusal::Message);
    };
    if 0x7fff_ffff_ffff_ffff < id {
        return Err(Refusal::Message);
    }
    let header = header_len(id);
    if room < header || room - header < n {
        return Err(Refusal::Room);
    }
    Ok(())
}

// Writes a header at the front.
pub(crate) fn put_header(out: &mut [u8], id: u64, op: u8, status: u8) -> usize
    requires id_bound { id ≤ 0x7fff_ffff_ffff_ffff }
    requires room { 4 + length (v_long.enc id) ≤ length out.old }
    ensures { Wrote (framed no_body) (header_of id op status) out.old out.new 0 result }
{
    let c1 = put::put_byte(out, 0, 0xa1);
    let c2 = put::put_number(out, c1, id, Kind::VLong);
    let c3 = put::put_byte(out, c2, op);
    let c4 = put::put_byte(out, c3, status);
    put::put_byte(out, c4, 0)
}
