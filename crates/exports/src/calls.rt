// The functions behind those that are exported and tell numbers.
ghost use Rattle.std.specs.Prelude.{◌≡◌};
ghost use Rattle.wire.specs.Codec.{mapped};
ghost use Rattle.message.specs.Request.{request};
ghost use Rattle.message.specs.Reply.{asked, reply};
ghost use Rattle.request_reader.specs.RequestRead.{request_at};
ghost use Rattle.reply_reader.specs.ReplyRead.{reply_at};
ghost use Rattle.table.specs.Compare.{compared};
ghost use Rattle.map.specs.Step.{context_of};
ghost use Rattle.service.specs.Many as many;
ghost use Rattle.exports.specs.Calls.{TellsDone, TellsTotal, TellsServed, keys_compared};
ghost use Rattle.exports.specs.Codes.{tell, told};
ghost use Rattle.exports.specs.Messages.{whole_request, whole_reply, whole_entry, entry_from};

use crate::tell;
use field::{Cursor, Refusal};
use message::Asked;

pub(crate) fn read_request(input: &[u8], answer: &mut [u64]) -> u64
    ensures { (result, answer.new) ≡ told whole_request (mapped request_at (request.dec input.now)) answer.old }
{
    match request_reader::read_request(input) {
        Ok(Some((q, n))) => {
            tell::request(answer, q, n);
            256 + n as u64
        }
        Ok(None) => 0,
        Err(refusal) => u16::from(refusal) as u64,
    }
}

pub(crate) fn read_reply(input: &[u8], version: u8, op: u8, flag: bool, answer: &mut [u64]) -> u64
    ensures { (result, answer.new) ≡ told whole_reply (mapped reply_at ((reply (asked version op flag)).dec input.now)) answer.old }
{
    match reply_reader::read_reply(input, Asked { version, op, flag }) {
        Ok(Some((reply, n))) => {
            tell::reply(answer, reply, n);
            256 + n as u64
        }
        Ok(None) => 0,
        Err(refusal) => u16::from(refusal) as u64,
    }
}

pub(crate) fn next_entry(input: &[u8], at: u64, values: bool, answer: &mut [u64]) -> u64
    ensures { (result, answer.new) ≡ told whole_entry (entry_from values input.now at) answer.old }
{
    let at = at as usize;
    match listing::next_entry(input, Cursor { at }, values) {
        Ok(Some((entry, end))) => {
            let n = end.at - at;
            tell::entry(answer, entry, n);
            256 + n as u64
        }
        Ok(None) => 0,
        Err(refusal) => u16::from(refusal) as u64,
    }
}

pub(crate) fn same_key(a: &[u8], b: &[u8], answer: &mut [u64])
    ensures { answer.new ≡ tell (keys_compared (compared a.now b.now)) answer.old }
{
    let c = table::same_key(a, b);
    tell::numbers(answer, &[u64::from(c.equal), c.pairs as u64]);
}

// This and `serve_stream` tell the numbers of another answer each, with a contract of its own.
pub(crate) fn serve(
    input: &[u8],
    table: &mut [u8],
    second: u32,
    reply: &mut [u8],
    answer: &mut [u64],
) -> u64
    ensures { TellsDone input.now table.old (many.at (context_of second) reply.old) reply.new table.new answer.old answer.new result }
{
    let a = server::serve(input, table, second, reply);
    tell::numbers(answer, &[a.taken as u64, a.size as u64]);
    u64::from(a.verdict)
}

pub(crate) fn serve_stream(
    input: &[u8],
    table: &mut [u8],
    second: u32,
    reply: &mut [u8],
    answer: &mut [u64],
) -> u64
    ensures { TellsTotal (context_of second) input.now table.old reply.old reply.new table.new answer.old answer.new result }
{
    let a = server::serve_stream(input, table, second, reply);
    tell::numbers(answer, &[a.taken as u64, a.size as u64, a.calls as u64]);
    u64::from(a.verdict)
}

pub(crate) fn serve_lines(
    input: &[u8],
    table: &mut [u8],
    out: &mut [u8],
    passing: bool,
    last: bool,
    answer: &mut [u64],
) -> u64
    ensures { TellsServed last passing input.now table.old out.old out.new table.new answer.old answer.new result }
{
    match server::serve_lines(input, table, out, passing, last) {
        Ok(a) => {
            let passing = u64::from(a.passing);
            tell::numbers(answer, &[a.taken as u64, a.size as u64, passing]);
            256
        }
        Err(refusal) => u16::from(refusal) as u64,
    }
}
