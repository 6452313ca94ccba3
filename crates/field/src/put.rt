// The writers of a field. Where the field has a written form and there is room for it at a place, its bytes are written there, and the place
// behind them is answered. Else nothing is written, and the same place is answered.
ghost use Rattle.std.specs.Prelude.{◌≡◌, ◌+◌, ◌≤◌, ◌<◌, length};
ghost use Rattle.wire.specs.Codec.{byte, raw};
ghost use Rattle.wire.specs.Number.{v_long};
ghost use Rattle.wire.specs.Field.{big_endian, entry_version, second, limited};
ghost use Rattle.wire.specs.Write.{Wrote, Room, put_at};
ghost use Rattle.field.specs.FieldRead.{codec_of, limited_text};

use crate::{EntryVersion, Kind, Second};

pub fn put_byte(out: &mut [u8], at: usize, b: u8) -> usize
    ensures { (result, out.new) ≡ put_at byte b at out.old }
{
    if at < out.len() {
        out[at] = b;
        at + 1
    } else {
        at
    }
}

// How many bytes a number takes, of either kind.
// The loop of `decimal::decimal_len` is alike, by another base: no definition has the lengths of both, which a shared function would have to say.
pub fn number_len(v: u64) -> usize
    ensures { (result ≡ length (v_long.enc v)) × (result ≤ 9) }
{
    let mut x = v;
    for n in 1..9 {
        if x < 128 {
            return n;
        }
        x /= 128;
    }
    9
}

// A `while`, since what is left of the number tells the end, and not the place. Each byte is below 256: `try_from` would have an answer that cannot be.
// The clause `room` speaks of this writer's own codec. The inner writers of other crates have theirs: a type that held the fact would be one for each.
fn write_number(out: &mut [u8], at: usize, v: u64) -> usize
    requires v_bound { v < 0x8000_0000_0000_0000 }
    requires room { Room v_long v at out.old }
    ensures { Wrote v_long v out.old out.new at result }
{
    let mut i = at;
    let mut x = v;
    while 128 <= x {
        out[i] = (128 + x % 128) as u8;
        x /= 128;
        i += 1;
    }
    out[i] = x as u8;
    i + 1
}

pub fn put_number(out: &mut [u8], at: usize, v: u64, k: Kind) -> usize
    ensures { (result, out.new) ≡ put_at (codec_of k) v at out.old }
{
    if k.greatest() < v {
        return at;
    }
    if out.len() <= at {
        return at;
    }
    if out.len() - at < number_len(v) {
        return at;
    }
    write_number(out, at, v)
}

// A number as eight bytes, highest first.
fn put_eight(out: &mut [u8], at: usize, v: u64) -> usize
    ensures { (result, out.new) ≡ put_at (big_endian 8) v at out.old }
{
    put_raw(out, at, &v.to_be_bytes())
}

// This and `put_second` are one line each over `put_eight`, with a type and a contract of their own.
pub fn put_version(out: &mut [u8], at: usize, v: EntryVersion) -> usize
    ensures { (result, out.new) ≡ put_at entry_version v.0 at out.old }
{
    put_eight(out, at, v.0)
}

pub fn put_second(out: &mut [u8], at: usize, s: Second) -> usize
    ensures { (result, out.new) ≡ put_at second s.0 at out.old }
{
    put_eight(out, at, s.0)
}

// Bytes as they are.
pub fn put_raw(out: &mut [u8], at: usize, s: &[u8]) -> usize
    ensures { (result, out.new) ≡ put_at (raw (length s.now)) s.now at out.old }
{
    if out.len() < at {
        return at;
    }
    if out.len() - at < s.len() {
        return at;
    }
    out[at..at + s.len()].copy_from_slice(s);
    at + s.len()
}

// The length, and the bytes.
pub fn put_limited(out: &mut [u8], at: usize, s: &[u8], lim: u64) -> usize
    ensures { (result, out.new) ≡ put_at (limited lim) s.now at out.old }
{
    let n = s.len() as u64;
    if lim < n {
        return at;
    }
    if 0xffff_ffff < n {
        return at;
    }
    if out.len() <= at {
        return at;
    }
    let room = out.len() - at;
    if room < number_len(n) + s.len() {
        return at;
    }
    let next = put_number(out, at, n, Kind::VInt);
    put_raw(out, next, s)
}

pub fn put_text(out: &mut [u8], at: usize, s: &[u8], lim: u64) -> usize
    ensures { (result, out.new) ≡ put_at (limited_text lim) s.now at out.old }
{
    if !text::is_text(s) {
        return at;
    }
    put_limited(out, at, s, lim)
}
