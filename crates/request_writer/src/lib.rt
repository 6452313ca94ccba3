#![tactic(auto)]
// The writer of a request.
mod write;

ghost use Rattle.std.specs.Prelude.{◌≡◌};
ghost use Rattle.wire.specs.Write.{send};
ghost use Rattle.message.specs.Sent.{as_sent};
ghost use Rattle.message.specs.Request.{request, request_of};

use field::Refusal;
use message::Head;
use write::Content;

// Writes a request at the front of `out`, and answers how many bytes it takes; where it is refused, nothing is written.
// The writers of replies judge, measure and write by other rules and other fields: what is the same is the comparison with the room.
pub fn write_request(
    out: &mut [u8],
    h: Head,
    name: &[u8],
    key: &[u8],
    value: &[u8],
) -> Result<usize, Refusal>
    ensures { (as_sent result, out.new) ≡ send request (request_of h name.now key.now value.now) out.old }
{
    let content = Content {
        head: h,
        name,
        key,
        value,
    };
    if !content.keeps_rules() {
        return Err(Refusal::Message);
    }
    if out.len() < content.length() {
        return Err(Refusal::Room);
    }
    Ok(content.put(out))
}
