// The writer of a reply whose operation and status were judged: it judges the rest, then measures, and then writes.
ghost use Rattle.std.specs.Prelude.{◌≡◌, ◌&&◌, ◌≤◌, eqb, IfSome};
ghost use Rattle.wire.specs.Codec.{Valid};
ghost use Rattle.wire.specs.Field.{limited};
ghost use Rattle.wire.specs.Write.{Room, Wrote, send};
ghost use Rattle.field.specs.FieldRead.{limited_text};
ghost use Rattle.message.specs.Sent.{as_sent};
ghost use Rattle.message.specs.Arguments.{is_empty};
ghost use Rattle.message.specs.Payload.{fields_of};
ghost use Rattle.reply_writer.specs.Frame.{framed};
ghost use Rattle.reply_writer.specs.Answer.{size_of, size_in, payload_in, reply_in};

use crate::header;
use field::{Refusal, put};
use message::{Form, Reply, ReplyHead};

// A reply to write: its numbers, the form of its body, and its value and its text, which are empty where the form does not send them.
#[derive(Clone, Copy)]
pub(crate) struct Answer<'a> {
    pub head: ReplyHead,
    pub form: Form,
    pub value: &'a [u8],
    pub text: &'a [u8],
}

// Is a number 0, and are there no bytes?
fn is_absent(v: u64, s: &[u8]) -> bool
    ensures { result ≡ (eqb v 0 && is_empty s.now) }
{
    v == 0 && s.is_empty()
}

// How many bytes a length and so many bytes take, and so for a text: none, where they have no written form.
fn limited_len(s: &[u8], lim: u64) -> Option<usize>
    ensures size { result ≡ size_of (limited lim) s.now }
    ensures bound { IfSome result (λ n. n ≤ 0x1_0000_0008) }
{
    let n = s.len() as u64;
    if n <= lim && n <= 0xffff_ffff {
        Some(put::number_len(n) + s.len())
    } else {
        None
    }
}

#[tactic(auto, unfolding(field::specs::FieldRead::limited_text, wire::specs::Codec::guard))]
fn text_len(s: &[u8], lim: u64) -> Option<usize>
    ensures { result ≡ size_of (limited_text lim) s.now }
{
    // The length first, so that no byte of a text that is too long is looked at.
    let n = limited_len(s, lim)?;
    if text::is_text(s) { Some(n) } else { None }
}

impl Answer<'_> {
    // Each form has other fields: a match on it, here and in `put_body`, whose clauses `valid` and `room` speak of the codec of the form.
    // How many bytes the body takes: none, where a field is missing, or there is another. There are no statistics here, so that a body of statistics lacks
    // them, and no entries, so that a list of entries is a byte 0.
    fn body_len(self) -> Option<usize>
        ensures { result ≡ size_in self.entry }
    {
        let v = self.head.entry.0;
        match self.form {
            Form::Nothing if is_absent(v, self.value) && self.text.is_empty() => Some(0),
            Form::Value(lim) if is_absent(v, self.text) => limited_len(self.value, lim),
            Form::Versioned if self.text.is_empty() => {
                Some(8 + limited_len(self.value, Reply::VALUE)?)
            }
            Form::Text if is_absent(v, self.value) => text_len(self.text, Reply::TEXT),
            Form::Listed(_) if is_absent(v, self.value) && self.text.is_empty() => Some(1),
            _ => None,
        }
    }

    // Writes the body, a form an arm as in `body_len`: the arms have no more in common than the fields that they name.
    fn put_body(self, out: &mut [u8], at: usize) -> usize
        requires valid { Valid (fields_of self.form) (payload_in self) }
        requires room { Room (fields_of self.form) (payload_in self) at out.old }
        ensures { Wrote (fields_of self.entry.form) (payload_in self.entry) out.old out.new at result }
    {
        match self.form {
            Form::Nothing => at,
            Form::Value(lim) => put::put_limited(out, at, self.value, lim),
            Form::Versioned => {
                let next = put::put_version(out, at, self.head.entry);
                put::put_limited(out, next, self.value, Reply::VALUE)
            }
            Form::Text => put::put_text(out, at, self.text, Reply::TEXT),
            Form::Statistics => at,
            Form::Listed(_) => put::put_byte(out, at, 0),
        }
    }

    pub(crate) fn write(self, out: &mut [u8]) -> Result<usize, Refusal>
        ensures { (as_sent result, out.new) ≡ send (framed (fields_of self.entry.form)) (reply_in self.entry) out.old }
    {
        let h = self.head;
        // The id first: where it has no written form, nothing else is looked at.
        if 0x7fff_ffff_ffff_ffff < h.id {
            return Err(Refusal::Message);
        }
        header::judge(h.id, self.body_len(), out.len())?;
        let at = header::put_header(out, h.id, h.op, h.status);
        Ok(self.put_body(out, at))
    }
}
