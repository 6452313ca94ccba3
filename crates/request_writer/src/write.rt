// What writing a request goes by: its rules, its length, and its fields in their order.
ghost use Rattle.std.specs.Prelude.{◌≡◌, true, ◌+◌, ◌≤◌, length};
ghost use Rattle.wire.specs.Codec.{Valid};
ghost use Rattle.wire.specs.Number.{v_int};
ghost use Rattle.wire.specs.Field.{entry_version, limited};
ghost use Rattle.wire.specs.Write.{Wrote, put_at};
ghost use Rattle.message.specs.Arguments.{args_of, shape_of, key_limit, value_limit};
ghost use Rattle.message.specs.Request.{request, transaction, edition_at};
ghost use Rattle.request_writer.specs.Parts.{args_in, request_in, as_limits, is_within, keeps_rules, limits, limits_of, size_of, args_size, sent_size, put_sent, Ready};

use field::{EntryVersion, Kind, put};
use message::{Head, Operation, Request};
use rules::Shape;

// What a request is written of: its numbers, its name, its key and its value, which are empty where the operation does not send them.
#[derive(Clone, Copy)]
pub(crate) struct Content<'a> {
    pub head: Head,
    pub name: &'a [u8],
    pub key: &'a [u8],
    pub value: &'a [u8],
}

// The greatest length or number of each argument: 0 where it is not sent.
#[derive(Clone, Copy)]
pub(crate) struct Limits {
    key: u64,
    time: u64,
    entry: u64,
    value: u64,
    bulk: u64,
}

// The same, a number after the other: an arm of `limits_of` is then a row.
fn at_most(key: u64, time: u64, entry: u64, value: u64, bulk: u64) -> Limits
    ensures { as_limits result ≡ limits key time entry value bulk }
{
    Limits {
        key,
        time,
        entry,
        value,
        bulk,
    }
}

// The one match on the shape: what measures and writes goes by the limits.
fn limits_of(op: Operation) -> Limits
    ensures { as_limits result ≡ limits_of (shape_of op) }
{
    match rules::shape_of(op) {
        Shape::Keyed => at_most(Request::KEY, 0, 0, 0, 0),
        Shape::Writes => at_most(Request::KEY, 0xffff_ffff, 0, Request::VALUE, 0),
        Shape::WritesIf => at_most(
            Request::KEY,
            0xffff_ffff,
            0xffff_ffff_ffff_ffff,
            Request::VALUE,
            0,
        ),
        Shape::KeyedIf => at_most(Request::KEY, 0, 0xffff_ffff_ffff_ffff, 0, 0),
        Shape::Bare => at_most(0, 0, 0, 0, 0),
        Shape::Bulk(most) => at_most(0, 0, 0, 0, most),
    }
}

// How many bytes a length and so many bytes take.
fn size(s: &[u8]) -> usize
    ensures { (result ≡ size_of s.now) × (result ≤ length s.now + 9) }
{
    let n = s.len() as u64;
    put::number_len(n) + s.len()
}

// How many bytes an argument takes: one whose limit is 0 is not sent.
fn sent(lim: u64, n: usize) -> usize
    ensures { (result ≡ sent_size lim n) × (result ≤ n) }
{
    if lim == 0 { 0 } else { n }
}

// How many bytes the transaction type takes.
// The version is a byte, here and in `put_transaction`, as in `message::Head`.
#[tactic(auto, using(crate::proofs::Sizes::transaction_size))]
fn transaction_len(version: u8) -> usize
    ensures { (result ≡ length ((transaction (edition_at version).transaction).enc tt)) × (result ≤ 1) }
{
    if rules::has_transaction(version) {
        return 1;
    }
    0
}

// The transaction type, where the version has one.
#[tactic(auto, using(crate::proofs::Puts::put_type, crate::proofs::Puts::put_no_type))]
fn put_transaction(out: &mut [u8], at: usize, version: u8) -> usize
    ensures { (result, out.new) ≡ put_at (transaction (edition_at version).transaction) tt at out.old }
{
    if rules::has_transaction(version) {
        return put::put_byte(out, at, 0);
    }
    at
}

// The writers of an argument, which write it where it is sent.
// One function for the three would take a closure at each of six calls.
fn put_bytes(out: &mut [u8], at: usize, s: &[u8], lim: u64) -> usize
    ensures { (result, out.new) ≡ put_sent lim (limited lim) s.now at out.old }
{
    if lim == 0 {
        return at;
    }
    put::put_limited(out, at, s, lim)
}

#[tactic(auto, unfolding(wire::specs::Number::v_int))]
fn put_count(out: &mut [u8], at: usize, n: u64, lim: u64) -> usize
    ensures { (result, out.new) ≡ put_sent lim v_int n at out.old }
{
    if lim == 0 {
        return at;
    }
    put::put_number(out, at, n, Kind::VInt)
}

fn put_entry(out: &mut [u8], at: usize, v: EntryVersion, lim: u64) -> usize
    ensures { (result, out.new) ≡ put_sent lim entry_version v.0 at out.old }
{
    if lim == 0 {
        return at;
    }
    put::put_version(out, at, v)
}

impl Content<'_> {
    fn keeps_args(self) -> bool
        ensures { result ≡ is_within (limits_of (shape_of self.entry.head.op)) (args_in self.entry) }
    {
        let h = self.head;
        let l = limits_of(h.op);
        self.key.len() as u64 <= l.key
            && h.lifespan <= l.time
            && h.idle <= l.time
            && h.entry.0 <= l.entry
            && self.value.len() as u64 <= l.value
            && h.bulk <= l.bulk
    }

    // Does a request keep the rules?
    pub(crate) fn keeps_rules(self) -> bool
        ensures { result ≡ keeps_rules (request_in self.entry) }
    {
        let h = self.head;
        h.id <= 0x7fff_ffff_ffff_ffff
            && rules::is_served(h.version)
            && rules::serves(h.version, h.op)
            && h.flags <= rules::greatest_flags(h.version)
            && 1 <= h.intelligence
            && h.intelligence <= 3
            && h.topology <= 0xffff_ffff
            && self.name.len() as u64 <= Request::NAME
            && text::is_text(self.name)
            && self.keeps_args()
    }

    // How many bytes the arguments take.
    fn args_len(self) -> usize
        requires key_len_bound { length self.key.now ≤ key_limit }
        requires value_len_bound { length self.value.now ≤ value_limit }
        ensures { (result ≡ args_size (limits_of (shape_of self.entry.head.op)) (args_in self.entry)) × (result ≤ 1000) }
    {
        let h = self.head;
        let l = limits_of(h.op);
        let times = put::number_len(h.lifespan) + put::number_len(h.idle);
        sent(l.key, size(self.key))
            + sent(l.time, times)
            + sent(l.entry, 8)
            + sent(l.value, size(self.value))
            + sent(l.bulk, put::number_len(h.bulk))
    }

    // How many bytes a request takes.
    pub(crate) fn length(self) -> usize
        requires { keeps_rules (request_in self) ≡ true }
        ensures { result ≡ length (request.enc (request_in self.entry)) }
    {
        let h = self.head;
        let id = put::number_len(h.id);
        let n = size(self.name);
        let flags = put::number_len(h.flags);
        let topology = put::number_len(h.topology);
        let t = transaction_len(h.version);
        let a = self.args_len();
        4 + id + n + flags + topology + t + a
    }

    // The arguments in their order, each where it is sent.
    fn put_args(self, out: &mut [u8], at: usize) -> usize
        requires { Ready (args_of (shape_of self.head.op)) (args_in self) at out.old }
        ensures { Wrote (args_of (shape_of self.entry.head.op)) (args_in self.entry) out.old out.new at result }
    {
        let h = self.head;
        let l = limits_of(h.op);
        let a = put_bytes(out, at, self.key, l.key);
        let b = put_count(out, a, h.lifespan, l.time);
        let c = put_count(out, b, h.idle, l.time);
        let d = put_entry(out, c, h.entry, l.entry);
        let e = put_bytes(out, d, self.value, l.value);
        put_count(out, e, h.bulk, l.bulk)
    }

    // Writes a request that keeps the rules, and for which there is room, at the front.
    pub(crate) fn put(self, out: &mut [u8]) -> usize
        requires { Ready request (request_in self) 0 out.old }
        ensures { Wrote request (request_in self.entry) out.old out.new 0 result }
    {
        let h = self.head;
        let a = put::put_byte(out, 0, 0xa0);
        let b = put::put_number(out, a, h.id, Kind::VLong);
        let c = put::put_byte(out, b, h.version);
        let d = put::put_byte(out, c, u8::from(h.op));
        let e = put::put_text(out, d, self.name, Request::NAME);
        let f = put::put_number(out, e, h.flags, Kind::VInt);
        let g = put::put_byte(out, f, h.intelligence);
        let i = put::put_number(out, g, h.topology, Kind::VInt);
        let j = put_transaction(out, i, h.version);
        self.put_args(out, j)
    }
}
