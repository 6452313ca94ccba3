// The bytes that a line is made of, in room for the longest line.
ghost use Rattle.std.specs.Prelude.{◌≡◌, ◌≤◌, length};
ghost use Rattle.wire.specs.Codec.{exactly};
ghost use Rattle.wire.specs.Write.{Wrote, laid};
ghost use Rattle.table.specs.Memory.{state_of};
ghost use Rattle.table.specs.Found.{entry_at};
ghost use Rattle.table.specs.Change.{Answers};
ghost use Rattle.hexadecimal.specs.Hex.{line};
ghost use Rattle.stored.specs.File.{form1, entry_line, head_line, line_of};
ghost use Rattle.stored.specs.StoreLoad.{start_with, restore_to};

use crate::Line;
use field::{Cursor, Second, put};
use message::Request;

// Room for the bytes of a line.
pub(crate) type Room = [u8; Line::MOST];

// Writes the bytes of the first line.
pub(crate) fn write_head(t: &[u8], out: &mut Room) -> usize
    ensures { Wrote (head_line form1) (state_of t.now).last out.old out.new 0 result }
{
    let a = put::put_byte(out, 0, Line::FORM);
    put::put_version(out, a, table::last(t))
}

// Writes the bytes of the line of row i.
pub(crate) fn write_entry(t: &[u8], i: usize, out: &mut Room) -> usize
    ensures { Wrote (entry_line form1) (entry_at t.now i) out.old out.new 0 result }
{
    let a = put::put_version(out, 0, table::version_at(t, i));
    let b = put::put_second(out, a, table::deadline_at(t, i));
    let c = put::put_limited(out, b, table::key_at(t, i), Request::KEY);
    put::put_limited(out, c, table::value_at(t, i), Request::VALUE)
}

// How many characters the line of row i has, its line end counted.
fn entry_len(t: &[u8], i: usize) -> usize
    ensures { (result ≡ length (line ((entry_line form1).enc (entry_at t.now i)))) × (result ≤ 679) }
{
    let k = table::key_at(t, i).len();
    let v = table::value_at(t, i).len();
    let n = 16 + put::number_len(k as u64) + k + put::number_len(v as u64) + v;
    2 * n + 1
}

// The same of the line of an entry that stands at a second; one that has expired has none.
pub(crate) fn line_len(t: &[u8], i: usize, second: Second) -> usize
    ensures { (result ≡ length (line_of form1 second.0 (entry_at t.now i))) × (result ≤ 679) }
{
    if !table::stands(t, i, second) {
        return 0;
    }
    entry_len(t, i)
}

// Writes the digits of bytes and a line end at a place, and answers the place behind them.
pub(crate) fn put_line(s: &[u8], out: &mut [u8], at: usize) -> usize
    ensures { (result, out.new) ≡ laid (line s.now) at out.old }
{
    if out.len() <= at || (out.len() - at - 1) / 2 < s.len() {
        return at;
    }
    put::put_raw(out, at, s);
    hexadecimal::make_line(out, at, s.len())
}

// Starts the table with the last version that the bytes of a first line say.
pub(crate) fn start(s: &[u8], t: &mut [u8]) -> bool
    ensures { Answers t.old (start_with t.old (exactly (length s.now) ((head_line form1).dec s.now))) result t.new }
{
    let Some((form, at1)) = field::read_byte(s, Cursor { at: 0 }) else {
        return false;
    };
    if form != Line::FORM {
        return false;
    }
    let Some((last, at2)) = field::read_version(s, at1) else {
        return false;
    };
    if at2.at != s.len() {
        return false;
    }
    table::start(t, last)
}

// Restores the entry that the bytes of a line say.
pub(crate) fn restore(s: &[u8], t: &mut [u8]) -> bool
    ensures { Answers t.old (restore_to t.old (exactly (length s.now) ((entry_line form1).dec s.now))) result t.new }
{
    let Some((version, at1)) = field::read_version(s, Cursor { at: 0 }) else {
        return false;
    };
    let Some((deadline, at2)) = field::read_second(s, at1) else {
        return false;
    };
    let Ok(Some((key, at3))) = field::read_limited(s, at2, Request::KEY) else {
        return false;
    };
    let Ok(Some((value, at4))) = field::read_limited(s, at3, Request::VALUE) else {
        return false;
    };
    if at4.at != s.len() {
        return false;
    }
    table::restore(
        t,
        field::part(s, key),
        field::part(s, value),
        version,
        deadline,
    )
}
