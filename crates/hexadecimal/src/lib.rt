#![tactic(auto)]
// Bytes as lowercase hexadecimal digits, and lines of them.
pub mod scan;

ghost use Rattle.std.specs.Prelude.{◌≡◌, true, ◌+◌, ◌*◌, ◌/◌, ◌≤◌, ◌<◌, length, get_or};
ghost use Rattle.std.proofs.lemmas.List.Edits.{sets};
ghost use Rattle.wire.specs.Write.{laid};
ghost use Rattle.hexadecimal.specs.Hex.{digit_of, is_digit, digit_value, to_hex, line};
ghost use Rattle.wire.specs.Write.{part};
ghost use Rattle.hexadecimal.specs.Coding.{decoded};
ghost use Rattle.wire.specs.Field.{big_endian};
ghost use Rattle.hexadecimal.specs.Number.{value_of, are_digits, from_digits, as_number};

// Why nothing is decoded: the digits are none or odd in number, or there is too little room for their bytes.
#[derive(Clone, Copy, PartialEq, Eq, Debug, Drop)]
pub enum DecodeError {
    Digits,
    Room,
}

// Is the byte a digit, 0 to 9 or a to f? By two tests, since with `matches!` on its ranges `number` takes more than twice as long.
// `decimal` has other digits.
#[tactic(auto, unfolding(crate::specs::Hex::is_digit))]
pub fn is_digit(b: u8) -> bool
    ensures { result ≡ is_digit b }
{
    if b <= 0x39 {
        return 0x30 <= b;
    }
    0x61 <= b && b <= 0x66
}

// The number of a digit.
// No `to_digit` and `from_digit`, here and in `digit`: they take capital letters too, and are of `char`.
#[tactic(auto, unfolding(crate::specs::Hex::is_digit, crate::specs::Hex::digit_value))]
fn digit_value(b: u8) -> u8
    requires { is_digit b ≡ true }
    ensures { result ≡ digit_value b }
{
    if b <= 0x39 {
        return b - 0x30;
    }
    b - 0x57
}

// The number of a digit, and 0 for any other byte.
#[tactic(auto, unfolding(crate::specs::Number::value_of))]
pub fn value(b: u8) -> u8
    ensures { result ≡ value_of b }
{
    if is_digit(b) {
        return digit_value(b);
    }
    0
}

// The digit of a number below 16.
#[tactic(auto, unfolding(crate::specs::Hex::digit_of))]
fn digit(n: u8) -> u8
    requires { n < 16 }
    ensures { result ≡ digit_of n }
{
    if n < 10 {
        return 0x30 + n;
    }
    0x57 + n
}

// Is each byte a digit? A loop with no way out before its end, since `all` takes five times as long in `decode`.
#[tactic(auto, using(std::proofs::lemmas::List::at_drop_more, std::proofs::lemmas::List::at_drop_all), unfolding(crate::specs::Number::are_digits))]
pub fn are_digits(s: &[u8]) -> bool
    ensures { result ≡ are_digits s.now }
{
    let mut good = true;
    for b in s {
        good &= is_digit(*b);
    }
    good
}

// The byte of the pair of digits with the number i.
#[tactic(auto, using(crate::proofs::Digits::value_below, crate::proofs::Pairs::digit_at))]
fn pair(s: &[u8], i: usize) -> u8
    requires i_in_bounds { i < length s.now / 2 }
    requires s_value { are_digits s.now ≡ true }
    ensures { result ≡ digit_value (get_or s.now (2 * i) 0) * 16 + digit_value (get_or s.now (2 * i + 1) 0) }
{
    let high = digit_value(s[2 * i]);
    let low = digit_value(s[2 * i + 1]);
    high * 16 + low
}

// The bytes of digits, and how many they are. The digits are judged first, then the room; a refusal leaves `out` as it was.
pub fn decode(s: &[u8], out: &mut [u8]) -> Result<usize, DecodeError>
    ensures { (result, out.new) ≡ decoded s.now out.old }
{
    if s.len() % 2 == 1 || !are_digits(s) {
        return Err(DecodeError::Digits);
    }
    let n = s.len() / 2;
    if out.len() < n {
        return Err(DecodeError::Room);
    }
    for (i, b) in out[..n].iter_mut().enumerate() {
        *b = pair(s, i);
    }
    Ok(n)
}

// The digits of bytes, at a place.
fn encode(s: &[u8], out: &mut [u8], at: usize)
    requires { at + 2 * length s.now ≤ length out.old }
    ensures { out.new ≡ sets out.old at (to_hex s.now) }
{
    for (i, b) in s.iter().enumerate() {
        out[at + 2 * i] = digit(b / 16);
        out[at + 2 * i + 1] = digit(b % 16);
    }
}

// The digits of m bytes that stand at a place, at another one: a copy of the bytes is spelt, so that the two may overlap.
// The copy has room of a fixed size, since nothing is allocated. Start and number of both parts are told, since no two slices of one list can be lent where
// they overlap.
fn encode_part(out: &mut [u8], from: usize, m: usize, to: usize)
    requires m_bound { m ≤ 64 }
    requires m_in_bounds { from + m ≤ length out.old }
    requires m_in_bounds_2 { to + 2 * m ≤ length out.old }
    ensures { out.new ≡ sets out.old to (to_hex (part out.old from m)) }
{
    let mut some = [0u8; 64];
    some[..m].copy_from_slice(&out[from..from + m]);
    encode(&some[..m], out, to);
}

// The n bytes at a place become their digits there, which are twice as many, and the place behind them is answered. They are written
// from the last 64 to the first: no byte is written over before it is read. Where there is no room nothing is written, and the same place is answered.
pub fn spread(out: &mut [u8], at: usize, n: usize) -> usize
    ensures { (result, out.new) ≡ laid (to_hex (part out.old at n)) at out.old }
{
    if out.len() < at {
        return at;
    }
    if (out.len() - at) / 2 < n {
        return at;
    }
    // A loop by hand: a block is read and written in one list, so no iterator may lend its blocks.
    let mut i = n;
    while 0 < i {
        let m = i.min(64);
        i -= m;
        encode_part(out, at + i, m, at + 2 * i);
    }
    at + 2 * n
}

// The n bytes at a place become a line there, their digits and a line end, and the place behind it is answered. Where there is no room for the
// line nothing is written, and the same place is answered.
pub fn make_line(out: &mut [u8], at: usize, n: usize) -> usize
    ensures { (result, out.new) ≡ laid (line (part out.old at n)) at out.old }
{
    if out.len() <= at {
        return at;
    }
    if (out.len() - at - 1) / 2 < n {
        return at;
    }
    let end = spread(out, at, n);
    out[end] = 0x0a;
    end + 1
}

// Eight digits as a number, highest first.
pub fn number(s: &[u8]) -> Option<u32>
    ensures { as_number result ≡ from_digits (big_endian 4) s.now }
{
    let mut bytes = [0u8; 4];
    let Ok(4) = decode(s, &mut bytes) else {
        return None;
    };
    Some(u32::from_be_bytes(bytes))
}
