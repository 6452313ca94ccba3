// Serving the lines of a file of requests on a table that is sound, with room for a line.
ghost use Rattle.std.specs.Prelude.{◌≡◌, Ok, ◌+◌, ◌≤◌, ◌<◌, length};
ghost use Rattle.field.specs.Refusal.{number_of};
ghost use Rattle.hexadecimal.specs.Hex.{line};
ghost use Rattle.wire.specs.Codec.{Valid};
ghost use Rattle.message.specs.Request.{request, request_in};
ghost use Rattle.message.specs.Start.{id_in};
ghost use Rattle.map.specs.Step.{step};
ghost use Rattle.map.specs.Reply.{flat};
ghost use Rattle.service.specs.Serve.{error_pieces};
ghost use Rattle.service.specs.Feed.{line_end, turn_of};
ghost use Rattle.service.specs.Turns.{line_room};
ghost use Rattle.table.specs.Memory.{state_of, Sound};
ghost use Rattle.server.specs.CallDone.{as_context};
ghost use Rattle.server.specs.Lines.{asked, is_due, Formed, Puts, GivesReply, GivesFrame, GivesLine, Counts, TurnDone, TurnsDone};

use crate::{Context, Fed, act};
use field::{Refusal, Second, put};
use message::Request;

// A turn: the bytes taken, the place behind its output, and whether the rest of the line is still to be passed over.
#[derive(Clone, Copy)]
struct Turned {
    taken: usize,
    size: usize,
    passing: bool,
}

// "eight lowercase digits (the second), one space, an even number of lowercase digits": the second, and how many bytes the latter are, which go to the front of
// `frame`; or nothing, where a line has another form.
fn read_form(line: &[u8], frame: &mut [u8]) -> Option<(Second, usize)>
    requires { 512 ≤ length frame.old }
    ensures { Formed line.now frame.new result }
{
    if Fed::LONGEST < line.len() || line.len() < 9 || line[8] != b' ' {
        return None;
    }
    let second = hexadecimal::number(&line[..8])?;
    let n = hexadecimal::decode(&line[9..], frame).ok()?;
    Some((Second(second as u64), n))
}

// Text at a place, and the place behind it.
fn put_text(text: &[u8], out: &mut [u8], at: usize) -> usize
    requires { at + length text.now ≤ length out.old }
    ensures { Puts text.now out.old out.new at result }
{
    put::put_raw(out, at, text)
}

// The error reply of a refusal: it is written at its place, and becomes a line there.
fn send_error(frame: &[u8], refusal: Refusal, out: &mut [u8], at: usize) -> usize
    requires line_room_in_bounds { at + line_room ≤ length out.old }
    requires refusal_bound { number_of refusal ≤ 11 }
    ensures { Puts (line (flat (error_pieces (number_of refusal) (id_in frame.now)))) out.old out.new at result }
{
    let a = act::refuse(&mut out[at..], request_reader::read_id(frame), refusal, 0);
    hexadecimal::make_line(out, at, a.size)
}

// The reply to a request, in the same way.
fn send_reply(
    frame: &[u8],
    r: Request,
    t: &mut [u8],
    context: Context,
    out: &mut [u8],
    at: usize,
) -> usize
    requires sound { Sound t.old }
    requires line_room_in_bounds { at + line_room ≤ length out.old }
    requires valid { Valid request (request_in frame.now r) }
    ensures { GivesReply (request_in frame.now r) (length frame.now) (step (asked (as_context context) frame.now).context (request_in frame.now r) (state_of t.old)) out.old out.new at result t.old t.new }
{
    let a = act::perform(frame, r, frame.len(), t, context, &mut out[at..]);
    hexadecimal::make_line(out, at, a.size)
}

// The bytes of a line: a whole request with nothing behind it is served.
// What is refused 14 or 15 has its line here and in `line_sound`, as bytes of lent room: these are the numbers of no `Refusal`.
fn serve_frame(frame: &[u8], t: &mut [u8], context: Context, out: &mut [u8], at: usize) -> usize
    requires sound { Sound t.old }
    requires line_room_in_bounds { at + line_room ≤ length out.old }
    ensures { GivesFrame (asked (as_context context) frame.now) out.old out.new at result t.old t.new }
{
    // The length is tested inside the arm: behind a guard the other arms know too little of the answer for the proof.
    match request_reader::read_request(frame) {
        Ok(Some((r, n))) => {
            if n != frame.len() {
                return put_text(b"refused 15\n", out, at);
            }
            send_reply(frame, r, t, context, out, at)
        }
        Ok(None) => put_text(b"refused 15\n", out, at),
        Err(refusal) => send_error(frame, refusal, out, at),
    }
}

// A line, without its line end.
// The room is of a fixed size, since nothing is allocated.
pub(crate) fn line_sound(line: &[u8], t: &mut [u8], out: &mut [u8], at: usize) -> usize
    requires sound { Sound t.old }
    requires line_room_in_bounds { at + line_room ≤ length out.old }
    ensures { GivesLine line.now out.old out.new at result t.old t.new }
{
    let mut frame = [0; 512];
    match read_form(line, &mut frame) {
        Some((second, n)) => serve_frame(&frame[..n], t, Context { second }, out, at),
        None => put_text(b"refused 14\n", out, at),
    }
}

// How many bytes stand before the first line end.
fn line_end(s: &[u8]) -> usize
    ensures { result ≡ line_end s.now }
{
    hexadecimal::scan::find(s, 0, 0x0a)
}

// The answer of a turn.
fn counts(taken: usize, size: usize, passing: bool) -> Turned
    ensures { Counts taken size passing result }
{
    Turned {
        taken,
        size,
        passing,
    }
}

// Whether a line is to be served: its end is there, it is too long already, or nothing comes behind its bytes.
fn is_due(end: usize, len: usize, last: bool) -> bool
    ensures { result ≡ is_due end len last }
{
    end < len || Fed::LONGEST < len || last && 0 < len
}

// One turn on what is left of a chunk.
// `passing` is a condition of the definition `turn_of`.
fn turn(s: &[u8], t: &mut [u8], out: &mut [u8], at: usize, passing: bool, last: bool) -> Turned
    requires sound { Sound t.old }
    requires line_room_in_bounds { at + line_room ≤ length out.old }
    ensures { TurnDone (turn_of passing last s.now (state_of t.old)) out.old out.new at result t.old t.new }
{
    let end = line_end(s);
    if passing {
        if end < s.len() {
            return counts(end + 1, at, false);
        }
        return counts(end, at, true);
    }
    if !is_due(end, s.len(), last) {
        return counts(0, at, false);
    }
    let n = line_sound(&s[..end], t, out, at);
    if end < s.len() {
        return counts(end + 1, n, false);
    }
    counts(end, n, Fed::LONGEST < end)
}

// Turns one after the other, as long as there is room for a line.
pub(crate) fn feed(input: &[u8], t: &mut [u8], out: &mut [u8], mut passing: bool, last: bool) -> Fed
    requires sound { Sound t.old }
    requires line_room_in_bounds { line_room ≤ length out.old }
    ensures { TurnsDone last passing input.now t.old out.old (Ok result) out.new t.new }
{
    let mut taken = 0;
    let mut size = 0;
    while Fed::ROOM <= out.len() - size {
        let r = turn(&input[taken..], t, out, size, passing, last);
        if r.taken == 0 {
            break;
        }
        taken += r.taken;
        size = r.size;
        passing = r.passing;
    }
    Fed {
        taken,
        size,
        passing,
    }
}
