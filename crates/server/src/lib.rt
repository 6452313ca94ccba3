#![tactic(auto)]
// The server: one call, a stream of calls, and the lines of a file.
mod act;
mod bulk;
mod context;
mod lines;
mod many;

ghost use Rattle.std.specs.Prelude.{◌≡◌, false, ◌&&◌, ◌||◌, ltb};
ghost use Rattle.map.specs.Step.{context_of};
ghost use Rattle.service.specs.Stream.{Serves};
ghost use Rattle.service.specs.Many.{is_short, at, Streams};
ghost use Rattle.service.specs.Shares.{verdict_code};
ghost use Rattle.server.specs.CallDone.{as_verdict, as_verdict_by, done_of, total_of, Ready, CallsAt};
ghost use Rattle.server.specs.Lines.{ServesLines};
ghost use Rattle.server.specs.Gives.{Begun, ServesMany};

use context::Context;
use field::{Refusal, Second};

// How a call ended, or a stream: full is a stream that needs an emptied reply buffer. A refusal is one of `Refusal`, or any number.
// The four ends are those of the service, each with a number of its own for C callers: no `Option` or `Result` has as many.
#[derive(Clone, Copy)]
pub enum Verdict<R> {
    Served,
    More,
    Refused(R),
    Full,
}

// The same as a number: 256 for served, 0 for more needed, the refusal's, whatever number that is, or 257 for full.
// A function beside the conversion of a `Verdict<Refusal>`, since it answers for every number and not for those of `Refusal` alone.
pub fn verdict_code(v: Verdict<u64>) -> u64
    ensures { result ≡ verdict_code (as_verdict_by (λ k. k) v) }
{
    match v {
        Verdict::Served => 256,
        Verdict::More => 0,
        Verdict::Refused(k) => k,
        Verdict::Full => 257,
    }
}

impl Verdict<Refusal> {
    // The same with the refusal's number.
    fn numbered(self) -> Verdict<u64>
        ensures { as_verdict_by (λ k. k) result ≡ as_verdict self }
    {
        match self {
            Verdict::Served => Verdict::Served,
            Verdict::More => Verdict::More,
            Verdict::Refused(refusal) => Verdict::Refused(u16::from(refusal) as u64),
            Verdict::Full => Verdict::Full,
        }
    }
}

impl From<Verdict<Refusal>> for u64 {
    ghost from_gives = { λ v n. n ≡ verdict_code (as_verdict v) };

    fn from(verdict: Verdict<Refusal>) -> u64 {
        verdict_code(verdict.numbered())
    }
}

// The answer of a call: the bytes of the input that it took, the bytes of the reply, and how it ended.
#[derive(Clone, Copy)]
pub struct Answer {
    pub taken: usize,
    pub size: usize,
    pub verdict: Verdict<Refusal>,
}

impl Answer {
    // The least room of a reply buffer, and that of one which bulk requests are answered in.
    pub const ROOM: usize = 512;

    pub const BULK_ROOM: usize = 41_600;
}

// Serves the request at the front of the input.
pub fn serve(input: &[u8], table: &mut [u8], second: u32, reply: &mut [u8]) -> Answer
    ensures { Serves input.now table.old (at (context_of second) reply.old) (done_of result reply.new table.new) }
{
    if reply.len() < Answer::ROOM {
        return act::unsent(0, Verdict::Refused(Refusal::Room));
    }
    if !soundness::is_table(table) {
        return act::unsent(0, Verdict::Refused(Refusal::Table));
    }
    call_at(input, 0, table, second, reply, 0)
}

// What a stream of calls gives: the bytes taken and sent by all of them, how many there were, and how the last one ended, or that the buffer is full.
#[derive(Clone, Copy)]
pub struct Streamed {
    pub taken: usize,
    pub size: usize,
    pub calls: usize,
    pub verdict: Verdict<Refusal>,
}

fn all_calls(taken: usize, size: usize, calls: usize, verdict: Verdict<Refusal>) -> Streamed
    ensures { result ≡ record { taken = taken; size = size; calls = calls; verdict = verdict } }
{
    Streamed {
        taken,
        size,
        calls,
        verdict,
    }
}

// A call on the input behind what is taken, and on the reply buffer behind what is sent.
fn call_at(
    input: &[u8],
    taken: usize,
    table: &mut [u8],
    second: u32,
    reply: &mut [u8],
    size: usize,
) -> Answer
    requires { Ready input.now taken table.old reply.old size }
    ensures { CallsAt (context_of second) input.now taken table.old reply.old size result reply.new table.new }
{
    act::serve_sound(
        &input[taken..],
        table,
        Context {
            second: Second(second as u64),
        },
        &mut reply[size..],
    )
}

// Whether a call that ended so is refused because what is sent already has left too little room.
fn waits(v: Verdict<Refusal>, used: bool, size: usize) -> bool
    ensures { result ≡ (is_short (as_verdict v) && (used || ltb 0 size)) }
{
    matches!(v, Verdict::Refused(Refusal::Room)) && (used || 0 < size)
}

// Calls one after the other on a table that is sound. used: something is sent already, so that a call that lacks room waits.
// What a call takes and sends says where the next one begins, and whether there is one: no range has its steps.
fn stream_sound(
    input: &[u8],
    table: &mut [u8],
    second: u32,
    reply: &mut [u8],
    used: bool,
) -> Streamed
    requires { Begun used table.old reply.old }
    ensures { Streams (context_of second) used input.now table.old reply.old (total_of result reply.new table.new) }
{
    let mut taken = 0;
    let mut size = 0;
    let mut calls = 0;
    while Answer::ROOM <= reply.len() - size {
        let a = call_at(input, taken, table, second, reply, size);
        if waits(a.verdict, used, size) {
            break;
        }
        taken += a.taken;
        size += a.size;
        calls += 1;
        if a.taken == 0 {
            return all_calls(taken, size, calls, a.verdict);
        }
    }
    all_calls(taken, size, calls, Verdict::Full)
}

// Calls one after the other at one second, each on what the last one left, with one check of the table. "After 1 to 8 a stream is closed. After 9 to 11
// it goes on": it goes on behind a call that took bytes. A call that waits for an emptied buffer has changed nothing, and counts as not made.
pub fn serve_stream(input: &[u8], table: &mut [u8], second: u32, reply: &mut [u8]) -> Streamed
    ensures { Streams (context_of second) false input.now table.old reply.old (total_of result reply.new table.new) }
{
    if reply.len() < Answer::ROOM {
        return all_calls(0, 0, 1, Verdict::Refused(Refusal::Room));
    }
    if !soundness::is_table(table) {
        return all_calls(0, 0, 1, Verdict::Refused(Refusal::Table));
    }
    stream_sound(input, table, second, reply, false)
}

// Serves the streams of several connections, whose inputs stand end to end in `input`, each to one of the ends. Their replies stand end to end at the front
// of `reply`. Three numbers are told of each: the bytes taken of its input, the bytes of its replies, and how its stream ended: 0 for more needed, the
// refusal, or 257 where it waits for an emptied buffer. It answers the bytes sent to all of them, or the refusal for which nothing was done: a list for the answer
// that is too short, ends that are none, too little room, or no table.
// The ends and what is told are numbers in a row, here and in `many`, as the C function `fq_serve_many` is given them.
pub fn serve_many(
    input: &[u8],
    ends: &[u64],
    table: &mut [u8],
    second: u32,
    reply: &mut [u8],
    answer: &mut [u64],
) -> Result<usize, Refusal>
    ensures { ServesMany (context_of second) input.now ends.now table.old reply.old answer.old result reply.new table.new answer.new }
{
    if answer.len() / 3 < ends.len() {
        return Err(Refusal::Room); // of the list
    }
    if !many::are_ends(ends, input.len()) {
        return Err(Refusal::Ends);
    }
    if reply.len() < Answer::ROOM {
        return Err(Refusal::Room); // of the buffer
    }
    if !soundness::is_table(table) {
        return Err(Refusal::Table); // as at any call
    }
    Ok(many::serve_parts(input, ends, table, second, reply, answer))
}

// What serving the lines of a chunk of a file gives: the bytes taken, the bytes of the output, and whether the rest of a line is still to be passed over.
// The flag is told to C callers beside the numbers, here and in `Turned`: both numbers hold with it and without it.
#[derive(Clone, Copy)]
pub struct Fed {
    pub taken: usize,
    pub size: usize,
    pub passing: bool,
}

impl Fed {
    // The least room for the output of a line, and the longest line.
    pub const ROOM: usize = 83_201;

    pub const LONGEST: usize = 1024;
}

// Serves the lines of a chunk of a file, as long as there is room for a line. passing: the rest of the first line is passed over;
// last: nothing comes behind the chunk. Where it is refused, nothing is done.
pub fn serve_lines(
    input: &[u8],
    table: &mut [u8],
    out: &mut [u8],
    passing: bool,
    last: bool,
) -> Result<Fed, Refusal>
    ensures { ServesLines last passing input.now table.old out.old result out.new table.new }
{
    if out.len() < Fed::ROOM {
        return Err(Refusal::Room);
    }
    if !soundness::is_table(table) {
        return Err(Refusal::Table);
    }
    Ok(lines::feed(input, table, out, passing, last))
}
