#![tactic(auto)]
// The readers of a field, for any bytes and any place, and the module of its writers.
pub mod put;
mod refusals;

ghost use Rattle.std.specs.Prelude.{◌≡◌, ℕ, take, drop};
ghost use Rattle.wire.specs.Codec.{read_at, byte, mapped};
ghost use Rattle.wire.specs.Field.{big_endian, entry_version, second, limited};
ghost use Rattle.field.specs.FieldRead.{as_read, as_read_by, as_whole, as_version, as_second, codec_of, most_of, top_of, refusal_of, greatest_of, limited_text, between, part_of, span_to};
ghost use Rattle.field.specs.Refusal.{number_of};

pub use refusals::Refusal;

// A place in the bytes that are read.
// It does not hold the bytes: each contract would then also say that the next cursor holds the same ones. So bytes and cursor go apart, here and in the crates
// above.
#[derive(Clone, Copy)]
pub struct Cursor {
    pub at: usize,
}

// A part of the bytes that are read: `len` bytes from `start` on.
#[derive(Clone, Copy)]
pub struct Span {
    pub start: usize,
    pub len: usize,
}

// The version of an entry: a serial number.
// It and `Second` are two structs of a number, as the papers name them, so that neither is taken for the other.
#[derive(Clone, Copy, PartialEq, Eq, PartialOrd, Ord)]
pub struct EntryVersion(pub u64);

// A second: a time.
#[derive(Clone, Copy, PartialEq, Eq, PartialOrd, Ord)]
pub struct Second(pub u64);

// The two kinds of number on the wire.
#[derive(Clone, Copy)]
pub enum Kind {
    VInt,
    VLong,
}

// What a reader finds: the value with the place behind it; nothing, where more bytes are needed; or the refusal.
pub type Read<T> = Result<Option<(T, Cursor)>, Refusal>;

// A match for each constant: the kind is a value, which callers hand on, so its constants are not those of a type.
impl Kind {
    // How many bytes a number of the kind may have before its last possible one.
    fn most(self) -> u64
        ensures { result ≡ most_of self }
    {
        match self {
            Kind::VInt => 4,
            Kind::VLong => 8,
        }
    }

    // The greatest last possible byte.
    fn top(self) -> u64
        ensures { result ≡ top_of self }
    {
        match self {
            Kind::VInt => 0x0f,
            Kind::VLong => 0x7f,
        }
    }

    fn refusal(self) -> Refusal
        ensures { number_of result ≡ refusal_of self }
    {
        match self {
            Kind::VInt => Refusal::Number,
            Kind::VLong => Refusal::MessageId,
        }
    }

    // The greatest number of the kind.
    fn greatest(self) -> u64
        ensures { result ≡ greatest_of self }
    {
        match self {
            Kind::VInt => 0xffff_ffff,
            Kind::VLong => 0x7fff_ffff_ffff_ffff,
        }
    }
}

impl Cursor {
    // So many bytes from the place on, not copied; as many of them as there are.
    pub fn part(self, s: &[u8], len: usize) -> &[u8]
        ensures { result.now ≡ take len (drop self.at s.now) }
    {
        let start = self.at;
        if s.len() <= start {
            return &s[0..0];
        }
        if s.len() - start <= len {
            return &s[start..];
        }
        let end = start + len;
        &s[start..end]
    }
}

// A part of the bytes.
pub fn part(s: &[u8], p: Span) -> &[u8]
    ensures { result.now ≡ part_of s.now p }
{
    let c = Cursor { at: p.start };
    c.part(s, p.len)
}

pub fn read_byte(s: &[u8], c: Cursor) -> Option<(u8, Cursor)>
    ensures { as_whole result ≡ read_at byte s.now c.at }
{
    let b = s.get(c.at)?;
    Some((*b, Cursor { at: c.at + 1 }))
}

// A byte from `low` to `high`; another is refused as the caller says, which may have a number of its own for each refusal.
pub fn read_between<E: Drop>(
    s: &[u8],
    c: Cursor,
    low: u8,
    high: u8,
    refusal: E,
) -> Result<Option<(u8, Cursor)>, E>
    ensures { (number : E → ℕ) → as_read_by number result ≡ read_at (between low high (number refusal)) s.now c.at }
{
    let Some((b, next)) = read_byte(s, c) else {
        return Ok(None);
    };
    if b < low || high < b {
        return Err(refusal);
    }
    Ok(Some((b, next)))
}

// A number of either kind: what is left of the greatest count of bytes is counted down.
// It and `read_limited` are compiled into their callers: a call would hand their answers on through memory, and a request would take two fifths longer to read.
#[inline(always)]
pub fn read_number(s: &[u8], c: Cursor, k: Kind) -> Read<u64>
    ensures { as_read result ≡ read_at (codec_of k) s.now c.at }
{
    let last = k.top();
    let mut left = k.most();
    let mut low: u64 = 0;
    let mut p: u64 = 1;
    let mut acc: u64 = 0;
    for i in c.at..s.len() {
        let b = s[i] as u64;
        if b < low {
            return Err(k.refusal());
        }
        if left == 0 {
            if b <= last {
                return Ok(Some((acc + p * b, Cursor { at: i + 1 })));
            }
            return Err(k.refusal());
        }
        if b < 128 {
            return Ok(Some((acc + p * b, Cursor { at: i + 1 })));
        }
        acc += p * (b - 128);
        p *= 128;
        left -= 1;
        low = 1;
    }
    Ok(None)
}

// Eight bytes as a number, highest first.
fn read_eight(s: &[u8], c: Cursor) -> Option<(u64, Cursor)>
    ensures { as_whole result ≡ read_at (big_endian 8) s.now c.at }
{
    let bytes = s.get(c.at..)?.first_chunk::<8>()?;
    Some((u64::from_be_bytes(*bytes), Cursor { at: c.at + 8 }))
}

// This and `read_second` are one line each over `read_eight`, with a type and a contract of their own.
pub fn read_version(s: &[u8], c: Cursor) -> Option<(EntryVersion, Cursor)>
    ensures { as_version result ≡ read_at entry_version s.now c.at }
{
    let (n, next) = read_eight(s, c)?;
    Some((EntryVersion(n), next))
}

pub fn read_second(s: &[u8], c: Cursor) -> Option<(Second, Cursor)>
    ensures { as_second result ≡ read_at second s.now c.at }
{
    let (n, next) = read_eight(s, c)?;
    Some((Second(n), next))
}

// A length of at most `lim`, and so many bytes.
#[inline(always)]
pub fn read_limited(s: &[u8], c: Cursor, lim: u64) -> Read<Span>
    ensures { as_read result ≡ mapped span_to (read_at (limited lim) s.now c.at) }
{
    let Some((n, next)) = read_number(s, c, Kind::VInt)? else {
        return Ok(None);
    };
    if lim < n {
        return Err(Refusal::Length);
    }
    let at = next.at;
    let len = n as usize;
    if len == 0 {
        return Ok(Some((Span { start: 0, len: 0 }, next)));
    }
    if s.len() - at < len {
        return Ok(None);
    }
    Ok(Some((Span { start: at, len }, Cursor { at: at + len })))
}

// The same of a text, which is judged when all its bytes are there.
pub fn read_text(s: &[u8], c: Cursor, lim: u64) -> Read<Span>
    ensures { as_read result ≡ mapped span_to (read_at (limited_text lim) s.now c.at) }
{
    let Some((p, next)) = read_limited(s, c, lim)? else {
        return Ok(None);
    };
    if !text::is_text(part(s, p)) {
        return Err(Refusal::Text);
    }
    Ok(Some((p, next)))
}
