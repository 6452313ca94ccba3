// Serving the lines of a file, and writing what they give.
ghost use Rattle.std.specs.Prelude.{◌≡◌, true, length};
ghost use Rattle.table.specs.Memory.{Sound};
ghost use Rattle.files.specs.Serving.{Ready};
ghost use Rattle.board.specs.Turn.{Serves, FileServed};

use crate::file::{BUFFER, Turned};
use crate::say::{Failure, STANDARD_OUTPUT};
use crate::{file, say};
use files::{NextServe, Window};
use std::fs::File;

// Does what is to be done next.
// `turn` of `keep` does the steps of another answer, and says another failure.
fn turn(
    rt: &HostRuntime,
    lines: &mut File,
    name: &[u8],
    input: &mut [u8],
    t: &mut [u8],
    out: &mut [u8],
    s: Window,
) -> Turned
    requires { Ready input.old t.old out.old s }
    ensures { Serves input.old t.old s result input.new t.new out.new }
{
    match files::serve_next(input, t, out, s) {
        NextServe::Write(size, after) => {
            if let Err(e) = file::write(&mut rt.stdout(), out, size) {
                say::failed(rt, Failure::Unwritten, STANDARD_OUTPUT, e);
                return Turned::Failed;
            }
            Turned::On(after)
        }
        NextServe::Read(after) => match file::read_on(lines, input, after) {
            Ok(next) => Turned::On(next),
            Err(e) => {
                say::failed(rt, Failure::Unread, name, e);
                Turned::Failed
            }
        },
        NextServe::Done => Turned::Done,
        NextServe::Refused(_) => Turned::Broken(0),
        NextServe::Astray => Turned::Broken(0),
    }
}

// The bytes of the memory for what lines give: the longest line fits, and many short ones.
const OUTPUT: usize = 131_072;

// Serves a file, and answers whether it came to its end. A proved loop has to end, and nothing says that a file does: so the turns are counted,
// up to a number that no run comes to.
// One loop for this and for `build` of `keep` would take the turn as a closure, and what it promises of the memory as a ghost parameter.
pub(crate) fn serve_file(rt: &HostRuntime, lines: &mut File, name: &[u8], t: &mut [u8]) -> bool
    requires { Sound t.old }
    ensures { result ≡ true → FileServed t.old t.new }
{
    let mut input = [0; BUFFER];
    let mut out = [0; OUTPUT];
    let mut s = files::start();
    for _ in 0..u64::MAX {
        let r = turn(rt, lines, name, &mut input, t, &mut out, s);
        let Turned::On(next) = r else {
            return is_done(r);
        };
        s = next;
    }
    false
}

// Whether all was served.
fn is_done(r: Turned) -> bool
    ensures { result ≡ true → r ≡ Turned.Done }
{
    matches!(r, Turned::Done)
}
