#![tactic(auto)]
// The library for other languages: each function takes numbers and slices, for any bytes and any lengths. What the number answered means:
// fq_read_request, fq_read_reply, fq_next_entry: 256 and the count of the message's or the entry's bytes, 0 for more needed, or the refusal 1 to 8;
// fq_write_request, fq_write_reply, fq_write_statistics, fq_write_entries: 256 and the count of the bytes written, or 16, 12;
// fq_same_key: 256 for done;
// fq_is_table: whether the memory is a sound table; fq_make: 256 for done, or 13;
// fq_serve: 256 for served, 0 for more needed, or the refusal; fq_serve_stream: the same of the last call, or 257 where the reply buffer has no room
// for another one;
// fq_serve_many: 256 for done, or 12, 258 for ends that are none, 12, 13;
// fq_serve_lines: 256 for done, or 12, 13; fq_store: 256 and the count of the file's bytes, or 13, 12; fq_load: 256 for done, or 17;
// fq_list_keys: 256 and the count of the bytes written, or 13, 9, 12.
// Numbers are told at the front of the list `answer`. A list that has no room for them refuses the call before anything is done: 12.
// Callers in C have no other types: what is given, told and answered are numbers, here and in the modules, and each function has a name and a room of its own.
mod calls;
mod given;
mod tell;

ghost use Rattle.std.specs.Prelude.{◌≡◌};
ghost use Rattle.wire.specs.Codec.{mapped};
ghost use Rattle.message.specs.Request.{request};
ghost use Rattle.message.specs.Reply.{asked, reply};
ghost use Rattle.request_reader.specs.RequestRead.{request_at};
ghost use Rattle.reply_reader.specs.ReplyRead.{reply_at};
ghost use Rattle.field.specs.declared.refusals.Refusal.TheVariants as refusal;
ghost use Rattle.table.specs.Memory.{Sound};
ghost use Rattle.table.specs.Compare.{compared};
ghost use Rattle.table.specs.Found.{Tells as Says};
ghost use Rattle.table.specs.Change.{Left, outcome_of, made};
ghost use Rattle.map.specs.Step.{context_of};
ghost use Rattle.service.specs.Many as many;
ghost use Rattle.exports.specs.Calls.{TellsDone, TellsTotal, TellsMany, TellsServed, TellsStored, TellsLoaded, TellsListed, done_code, keys_compared, Untold};
ghost use Rattle.exports.specs.Codes.{coded, tell, told, in_room, IfRoom};
ghost use Rattle.exports.specs.Messages.{whole_request, whole_reply, whole_entry, entry_from, send_request, send_reply, send_statistics, send_entries};

use message::{Asked, Operation};
use statistics::Statistics;

// How many numbers are told: of a request and of a reply that was read, of an entry of a bulk reply, of two keys, of a call, of calls one after the
// other, and of lines.
#[derive(Clone, Copy)]
pub struct Told {}

impl Told {
    pub const REQUEST: usize = 17;

    pub const REPLY: usize = 21;

    pub const ENTRY: usize = 6;

    pub const KEYS: usize = 2;

    pub const CALL: usize = 2;

    pub const CALLS: usize = 3;

    pub const LINES: usize = 3;
}

// The request at the front of the input. Numbers told: count of bytes, id, version, operation, flags, intelligence, topology, lifespan, max idle, entry
// version, the entry count of bulkGet or the scope of bulkGetKeys, and the start and length of name, key and value.
#[unsafe(no_mangle)]
pub extern "C" fn fq_read_request(input: &[u8], answer: &mut [u64]) -> u64
    ensures { (result, answer.new) ≡ in_room 17 answer.old (told whole_request (mapped request_at (request.dec input.now)) answer.old) }
{
    if answer.len() < Told::REQUEST {
        return 12;
    }
    calls::read_request(input, answer)
}

// The reply at the front of the input, to an operation that was asked in a version with flag 0x0001 or without (flag is this bit alone, and not the number of
// the flags). Numbers told: count of bytes, id, operation, status, entry version, the start and length of value and text, the nine statistics, which are 0
// where it is no stats reply, how many entries there are, and the start and length of their bytes, which are 0 where it is no bulk reply.
#[unsafe(no_mangle)]
pub extern "C" fn fq_read_reply(
    input: &[u8],
    version: u8,
    op: u8,
    flag: bool,
    answer: &mut [u64],
) -> u64
    ensures { (result, answer.new) ≡ in_room 21 answer.old (told whole_reply (mapped reply_at ((reply (asked version op flag)).dec input.now)) answer.old) }
{
    if answer.len() < Told::REPLY {
        return 12;
    }
    calls::read_reply(input, version, op, flag, answer)
}

// Writes a request at the front of `out`. Its numbers: id, version, operation, flags, intelligence, topology, lifespan, max idle, entry version, and
// the entry count of bulkGet or the scope of bulkGetKeys.
#[unsafe(no_mangle)]
pub extern "C" fn fq_write_request(
    out: &mut [u8],
    numbers: &[u64],
    name: &[u8],
    key: &[u8],
    value: &[u8],
) -> u64
    ensures { (result, out.new) ≡ coded (send_request numbers.now name.now key.now value.now out.old) }
{
    if !given::is_head(numbers) {
        return 16;
    }
    let Ok(op) = Operation::try_from(numbers[2] as u8) else {
        return 16;
    };
    let h = given::head(numbers, op);
    tell::sent(request_writer::write_request(out, h, name, key, value))
}

// Writes a reply at the front of `out`. Its numbers: id, operation, status and entry version.
#[unsafe(no_mangle)]
pub extern "C" fn fq_write_reply(
    out: &mut [u8],
    version: u8,
    op: u8,
    flag: bool,
    numbers: &[u64],
    value: &[u8],
    text: &[u8],
) -> u64
    ensures { (result, out.new) ≡ coded (send_reply (asked version op flag) numbers.now value.now text.now out.old) }
{
    if !given::is_reply_head(numbers) {
        return 16;
    }
    let h = given::reply_head(numbers);
    let a = Asked { version, op, flag };
    tell::sent(reply_writer::write_reply(out, a, h, value, text))
}

// The entry of a bulk reply, or the end of its entries, at a place of the input: with its value, or its key alone. Numbers told: count of bytes, 1 for an
// entry or 0 at the end, and the start and length of key and value.
#[unsafe(no_mangle)]
pub extern "C" fn fq_next_entry(input: &[u8], at: u64, values: bool, answer: &mut [u64]) -> u64
    ensures { (result, answer.new) ≡ in_room 6 answer.old (told whole_entry (entry_from values input.now at) answer.old) }
{
    if answer.len() < Told::ENTRY {
        return 12;
    }
    calls::next_entry(input, at, values, answer)
}

// Writes the reply to bulkGet, or to bulkGetKeys where values are not asked for, at the front of `out`. Four numbers name each entry: the start and the
// length of its key, and those of its value, in the bytes; less than four at the end name none.
#[unsafe(no_mangle)]
pub extern "C" fn fq_write_entries(
    out: &mut [u8],
    version: u8,
    id: u64,
    values: bool,
    bytes: &[u8],
    numbers: &[u64],
) -> u64
    ensures { (result, out.new) ≡ coded (send_entries version values id bytes.now numbers.now out.old) }
{
    let a = Asked {
        version,
        op: u8::from(Operation::bulk(values)),
        flag: false,
    };
    tell::sent(reply_writer::write_entries(out, a, id, bytes, numbers))
}

// Compares two keys, by their lengths and then by their bytes from the end. Numbers told: 1 where they are equal or 0, and how many pairs of bytes were
// compared.
#[unsafe(no_mangle)]
pub extern "C" fn fq_same_key(a: &[u8], b: &[u8], answer: &mut [u64]) -> u64
    ensures { (result, answer.new) ≡ in_room 2 answer.old (256, tell (keys_compared (compared a.now b.now)) answer.old) }
{
    if answer.len() < Told::KEYS {
        return 12;
    }
    calls::same_key(a, b, answer);
    256
}

// Writes the reply to stats at the front of `out`, of an id and the nine statistics in the order of their fields. A list of another length is 16.
#[unsafe(no_mangle)]
pub extern "C" fn fq_write_statistics(out: &mut [u8], version: u8, id: u64, numbers: &[u64]) -> u64
    ensures { (result, out.new) ≡ coded (send_statistics version id numbers.now out.old) }
{
    let Ok(nine) = <[u64; Statistics::COUNT]>::try_from(numbers) else {
        return 16;
    };
    let a = Asked {
        version,
        op: 0x15,
        flag: false,
    };
    tell::sent(reply_writer::write_statistics(out, a, id, nine.into()))
}

// Whether the memory is a sound table.
#[unsafe(no_mangle)]
pub extern "C" fn fq_is_table(table: &[u8]) -> bool
    ensures { Says result (Sound table.now) }
{
    soundness::is_table(table)
}

// Makes the memory a fresh table.
#[unsafe(no_mangle)]
pub extern "C" fn fq_make(table: &mut [u8]) -> u64
    ensures { (result ≡ done_code (outcome_of refusal.Table (made table.old))) × Left table.old (made table.old) table.new }
{
    tell::done(table::make(table))
}

// Serves the request at the front of the input: 256 is served. Numbers told: bytes taken, and bytes of the reply.
#[unsafe(no_mangle)]
pub extern "C" fn fq_serve(
    input: &[u8],
    table: &mut [u8],
    second: u32,
    reply: &mut [u8],
    answer: &mut [u64],
) -> u64
    ensures { IfRoom 2 answer.old (Untold result answer.old answer.new reply.old reply.new table.old table.new) (TellsDone input.now table.old (many.at (context_of second) reply.old) reply.new table.new answer.old answer.new result) }
{
    if answer.len() < Told::CALL {
        return 12;
    }
    calls::serve(input, table, second, reply, answer)
}

// Serves the requests of the input one after the other, and answers as the last call does. Numbers told: bytes taken, bytes of the replies, and how
// many calls there were, the last one among them.
#[unsafe(no_mangle)]
pub extern "C" fn fq_serve_stream(
    input: &[u8],
    table: &mut [u8],
    second: u32,
    reply: &mut [u8],
    answer: &mut [u64],
) -> u64
    ensures { IfRoom 3 answer.old (Untold result answer.old answer.new reply.old reply.new table.old table.new) (TellsTotal (context_of second) input.now table.old reply.old reply.new table.new answer.old answer.new result) }
{
    if answer.len() < Told::CALLS {
        return 12;
    }
    calls::serve_stream(input, table, second, reply, answer)
}

// Serves the streams of several connections, whose inputs stand end to end, each to one of the ends: 256 is done, 258 is for ends that do not ascend or are
// behind the input's. Numbers told of each connection: bytes taken of its input, bytes of its replies, which stand end to end at the front of `reply`, and
// how its stream ended, as fq_serve_stream answers it.
#[unsafe(no_mangle)]
pub extern "C" fn fq_serve_many(
    input: &[u8],
    ends: &[u64],
    table: &mut [u8],
    second: u32,
    reply: &mut [u8],
    answer: &mut [u64],
) -> u64
    ensures { TellsMany (context_of second) input.now ends.now table.old reply.old answer.old reply.new table.new answer.new result }
{
    tell::done(server::serve_many(input, ends, table, second, reply, answer))
}

// Serves the lines of a chunk of a file: 256 is served. Numbers told: bytes taken, bytes of the output, and 1 where the rest of a line is still to be
// passed over. Where it is refused, none are told.
#[unsafe(no_mangle)]
pub extern "C" fn fq_serve_lines(
    input: &[u8],
    table: &mut [u8],
    out: &mut [u8],
    passing: bool,
    last: bool,
    answer: &mut [u64],
) -> u64
    ensures { IfRoom 3 answer.old (Untold result answer.old answer.new out.old out.new table.old table.new) (TellsServed last passing input.now table.old out.old out.new table.new answer.old answer.new result) }
{
    if answer.len() < Told::LINES {
        return 12;
    }
    calls::serve_lines(input, table, out, passing, last, answer)
}

// Writes the stored file of a table.
#[unsafe(no_mangle)]
pub extern "C" fn fq_store(table: &[u8], out: &mut [u8]) -> u64
    ensures { TellsStored table.now out.old out.new result }
{
    tell::sent(stored::store(table, out))
}

// Loads a stored file.
#[unsafe(no_mangle)]
pub extern "C" fn fq_load(file: &[u8], table: &mut [u8]) -> u64
    ensures { TellsLoaded file.now table.old table.new result }
{
    tell::done(stored::load(file, table))
}

// Lists the keys that stand at the latest second served and are not before a key, in their order and `most` at the most, as the body of a bulkGetKeys reply.
#[unsafe(no_mangle)]
pub extern "C" fn fq_list_keys(
    table: &[u8],
    name: &[u8],
    key: &[u8],
    most: u64,
    out: &mut [u8],
) -> u64
    ensures { TellsListed table.now name.now key.now most out.old out.new result }
{
    tell::sent(order::list_keys(table, name, key, most, out))
}
