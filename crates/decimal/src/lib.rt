#![tactic(auto)]
// Numbers as their shortest decimal, in ASCII digits: a length, and the digits.
ghost use Rattle.std.specs.Prelude.{◌≡◌, true, ◌+◌, ◌≤◌, length};
ghost use Rattle.wire.specs.Codec.{read_at};
ghost use Rattle.wire.specs.Write.{put_at};
ghost use Rattle.field.specs.FieldRead.{as_read};
ghost use Rattle.decimal.specs.Decimal.{decimal, digits_of, value_of, is_digit, are_digits, is_shortest};

use field::{Cursor, Read, Refusal};

// The most digits that a decimal has, and the largest vLong.
const DIGITS: u64 = 19;

const LARGEST: u64 = 0x7fff_ffff_ffff_ffff;

// The digits of a decimal: `hexadecimal` has others. By their range, which a wrong program of must-fail changes.
#[tactic(auto, unfolding(crate::specs::Decimal::is_digit))]
fn is_digit(b: u8) -> bool
    ensures { result ≡ is_digit b }
{
    matches!(b, b'0'..=b'9')
}

// Is each byte a digit?
#[tactic(auto, unfolding(crate::specs::Decimal::are_digits))]
fn are_digits(s: &[u8]) -> bool
    ensures { result ≡ are_digits s.now }
{
    s.iter().all(|b| is_digit(*b))
}

// Is there a digit, and no zero in front of another?
#[tactic(auto, unfolding(crate::specs::Decimal::is_shortest))]
fn is_shortest(s: &[u8]) -> bool
    ensures { result ≡ is_shortest s.now }
{
    match s {
        [] => false,
        [_] => true,
        [first, ..] => b'0' < *first,
    }
}

// The number of digits that are at most 19: it fits.
// The digits are bytes in lent room, here, in `is_shortest` and in `put_decimal`: `parse` takes a sign too, and `format!` allocates.
fn value(s: &[u8]) -> u64
    requires s_value { are_digits s.now ≡ true }
    requires s_len_bound { length s.now ≤ 19 }
    ensures { result ≡ value_of s.now }
{
    let mut v: u64 = 0;
    for b in s {
        v = v * 10 + u64::from(*b - b'0');
    }
    v
}

// A length of at most 19, and so many digits, which are judged when all are there.
pub fn read_decimal(s: &[u8], c: Cursor) -> Read<u64>
    ensures { as_read result ≡ read_at decimal s.now c.at }
{
    let Some((p, next)) = field::read_limited(s, c, DIGITS)? else {
        return Ok(None);
    };
    let d = field::part(s, p);
    if !are_digits(d) || !is_shortest(d) {
        return Err(Refusal::Field);
    }
    let v = value(d);
    if LARGEST < v {
        return Err(Refusal::Field);
    }
    Ok(Some((v, next)))
}

// How many bytes a decimal takes: its length's one, and its digits.
// The loop of `field::put::number_len` is alike, by another base and to another definition.
pub fn decimal_len(v: u64) -> usize
    ensures { (result ≡ length (decimal.enc v)) × (result ≡ length (digits_of v) + 1) × (result ≤ 20) }
{
    let mut x = v;
    for n in 1..19 {
        if x < 10 {
            return n + 1;
        }
        x /= 10;
    }
    20
}

// Writes a decimal; the digits from the last to the first.
// A length and a digit are below 256: `try_from` would have an answer that cannot be.
pub fn put_decimal(out: &mut [u8], at: usize, v: u64) -> usize
    ensures { (result, out.new) ≡ put_at decimal v at out.old }
{
    if LARGEST < v {
        return at;
    }
    if out.len() <= at {
        return at;
    }
    let size = decimal_len(v);
    if out.len() - at < size {
        return at;
    }
    out[at] = (size - 1) as u8;
    let mut x = v;
    for i in (0..size - 1).rev() {
        out[at + 1 + i] = b'0' + (x % 10) as u8;
        x /= 10;
    }
    at + size
}
