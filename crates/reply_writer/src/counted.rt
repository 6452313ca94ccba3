// The writer of a stats reply: it judges, then measures, and then writes.
ghost use Rattle.std.specs.Prelude.{◌≡◌};
ghost use Rattle.wire.specs.Write.{send};
ghost use Rattle.statistics.specs.Statistics.{list_of};
ghost use Rattle.message.specs.Sent.{as_sent};
ghost use Rattle.message.specs.Payload.{statistics_body};
ghost use Rattle.message.specs.Reply.{statistics_reply};
ghost use Rattle.reply_writer.specs.Frame.{framed};

use crate::header;
use field::Refusal;
use statistics::Statistics;

pub(crate) fn write_counted(out: &mut [u8], id: u64, x: Statistics) -> Result<usize, Refusal>
    ensures { (as_sent result, out.new) ≡ send (framed statistics_body) (statistics_reply id (list_of x)) out.old }
{
    // The id first, as in `Answer::write`.
    if 0x7fff_ffff_ffff_ffff < id {
        return Err(Refusal::Message);
    }
    if !statistics::put::can_send(x) {
        return Err(Refusal::Message);
    }
    header::judge(id, Some(statistics::put::statistics_len(x)), out.len())?;
    let at = header::put_header(out, id, 0x16, 0);
    Ok(statistics::put::put_statistics(out, at, x))
}
