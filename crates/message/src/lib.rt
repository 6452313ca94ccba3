#![tactic(auto)]
// The messages of the protocol: their types, and the limits that belong to them. Their formats are in specs/, the formats' laws in proofs/.
ghost use Rattle.std.specs.Prelude.{◌≡◌};
ghost use Rattle.field.specs.FieldRead.{part_of};
ghost use Rattle.message.specs.Operation.{code_of, found_by, find_code};
ghost use Rattle.message.specs.Arguments.{name_limit, key_limit, value_limit};
ghost use Rattle.message.specs.Payload.{text_limit};
ghost use Rattle.message.specs.Reply.{bulk_operation};

use field::{EntryVersion, Refusal, Span};

#[derive(Clone, Copy)]
pub enum Operation {
    Put,
    Get,
    PutIfAbsent,
    Replace,
    ReplaceIfUnmodified,
    Remove,
    RemoveIfUnmodified,
    ContainsKey,
    GetWithVersion,
    Clear,
    Stats,
    Ping,
    BulkGet,
    BulkGetKeys,
}

// The numbers of a request. A number that the operation does not send is 0. `bulk` is the number of entries that bulkGet asks for, and the scope of
// bulkGetKeys.
// In `Head`, `Asked` and `ReplyHead` a version, a code of an operation and a status are any byte: the readers and the writers judge them, and refuse those that
// are not served, awaited or allowed.
#[derive(Clone, Copy)]
pub struct Head {
    pub id: u64,
    pub version: u8,
    pub op: Operation,
    pub flags: u64,
    pub intelligence: u8,
    pub topology: u64,
    pub lifespan: u64,
    pub idle: u64,
    pub entry: EntryVersion,
    pub bulk: u64,
}

// A request that was read: its numbers, and where in the bytes its name, key and value stand.
#[derive(Clone, Copy)]
pub struct Request {
    pub head: Head,
    pub name: Span,
    pub key: Span,
    pub value: Span,
}

// What was asked: the version, the operation's code, and whether flag 0x0001 was set.
// The flag is one of the three numbers that were asked; no other field is there or not by it.
#[derive(Clone, Copy)]
pub struct Asked {
    pub version: u8,
    pub op: u8,
    pub flag: bool,
}

// The numbers of a reply. A number that the operation and status do not send is 0.
#[derive(Clone, Copy)]
pub struct ReplyHead {
    pub id: u64,
    pub op: u8,
    pub status: u8,
    pub entry: EntryVersion,
}

// A reply that was read: its numbers, and where in the bytes its value and its text stand.
#[derive(Clone, Copy)]
pub struct Reply {
    pub head: ReplyHead,
    pub value: Span,
    pub text: Span,
}

// The fields of a reply's body: none; bytes of at most a length; an entry version and a value; a text; the
// nine statistics; entries, with their values or their keys alone.
#[derive(Clone, Copy)]
pub enum Form {
    Nothing,
    Value(u64),
    Versioned,
    Text,
    Statistics,
    Listed(bool),
}

// The largest sizes of a request's name, key and value.
#[derive(Clone, Copy)]
pub struct Limits {
    pub name: u64,
    pub key: u64,
    pub value: u64,
}

impl Request {
    pub const NAME: u64 = 32;

    pub const KEY: u64 = 64;

    pub const VALUE: u64 = 256;

    // The limits, as the formats have them.
    pub fn limits() -> Limits
        ensures { (result.name ≡ name_limit) × (result.key ≡ key_limit) × (result.value ≡ value_limit) }
    {
        Limits {
            name: Self::NAME,
            key: Self::KEY,
            value: Self::VALUE,
        }
    }

    // The name, the key and the value, as parts of the bytes that the request was read from.
    // These and those of `Reply` are one line each over `field::part`, with the promise of their own part.
    pub fn name_in(self, s: &[u8]) -> &[u8]
        ensures { result.now ≡ part_of s.now self.name }
    {
        field::part(s, self.name)
    }

    pub fn key_in(self, s: &[u8]) -> &[u8]
        ensures { result.now ≡ part_of s.now self.key }
    {
        field::part(s, self.key)
    }

    pub fn value_in(self, s: &[u8]) -> &[u8]
        ensures { result.now ≡ part_of s.now self.value }
    {
        field::part(s, self.value)
    }
}

impl Reply {
    pub const VALUE: u64 = Request::VALUE;

    pub const TEXT: u64 = 64;

    // The limit of a text, as the formats have it.
    pub fn limit() -> u64
        ensures { result ≡ text_limit }
    {
        Self::TEXT
    }

    pub fn value_in(self, s: &[u8]) -> &[u8]
        ensures { result.now ≡ part_of s.now self.value }
    {
        field::part(s, self.value)
    }

    pub fn text_in(self, s: &[u8]) -> &[u8]
        ensures { result.now ≡ part_of s.now self.text }
    {
        field::part(s, self.text)
    }
}

impl Operation {
    // The operation that asks for the entries, with their values or by their keys alone.
    pub fn bulk(values: bool) -> Operation
        ensures { result ≡ bulk_operation values }
    {
        if values {
            Operation::BulkGet
        } else {
            Operation::BulkGetKeys
        }
    }
}

// The code of an operation in a request.
impl From<Operation> for u8 {
    ghost from_gives = { λ op n. n ≡ code_of op };

    fn from(op: Operation) -> u8 {
        match op {
            Operation::Put => 0x01,
            Operation::Get => 0x03,
            Operation::PutIfAbsent => 0x05,
            Operation::Replace => 0x07,
            Operation::ReplaceIfUnmodified => 0x09,
            Operation::Remove => 0x0b,
            Operation::RemoveIfUnmodified => 0x0d,
            Operation::ContainsKey => 0x0f,
            Operation::GetWithVersion => 0x11,
            Operation::Clear => 0x13,
            Operation::Stats => 0x15,
            Operation::Ping => 0x17,
            Operation::BulkGet => 0x19,
            Operation::BulkGetKeys => 0x1d,
        }
    }
}

// What a code stands for. "Every other code is refused, known to the protocol or not."
impl TryFrom<u8> for Operation {
    type Error = Refusal;

    ghost try_from_gives = { λ code r. r ≡ found_by (find_code code) };

    #[tactic(auto, unfolding(crate::specs::Operation::find_code))]
    fn try_from(code: u8) -> Result<Operation, Refusal> {
        match code {
            0x01 => Ok(Operation::Put),
            0x03 => Ok(Operation::Get),
            0x05 => Ok(Operation::PutIfAbsent),
            0x07 => Ok(Operation::Replace),
            0x09 => Ok(Operation::ReplaceIfUnmodified),
            0x0b => Ok(Operation::Remove),
            0x0d => Ok(Operation::RemoveIfUnmodified),
            0x0f => Ok(Operation::ContainsKey),
            0x11 => Ok(Operation::GetWithVersion),
            0x13 => Ok(Operation::Clear),
            0x15 => Ok(Operation::Stats),
            0x17 => Ok(Operation::Ping),
            0x19 => Ok(Operation::BulkGet),
            0x1d => Ok(Operation::BulkGetKeys),
            _ => Err(Refusal::Operation),
        }
    }
}
