// The words that the program was started with. They are bytes, which need not be text.
ghost use Rattle.std.specs.Prelude.{◌≡◌, ◌≤◌, length};

use std::env::FillError;
use std::rt::Env;

// The bytes of room for a word, which holds any path.
pub(crate) const WORD: usize = 4096;

// Whether there is an argument i.
fn is_given(env: &impl Env, i: usize) -> bool {
    let mut none = [0u8; 0];
    match env.arg(i, &mut none) {
        Err(FillError::NotPresent) => false,
        _ => true,
    }
}

// How many arguments there are, the program's own name among them. It counts to seven, since no command has as many.
pub(crate) fn arg_count(env: &impl Env) -> usize {
    for i in 0..7 {
        if !is_given(env, i) {
            return i;
        }
    }
    7
}

// Puts argument i at the start of buf and answers its length, or 0 where it is missing or longer than buf.
pub(crate) fn arg(env: &impl Env, i: usize, buf: &mut [u8]) -> usize
    ensures { result ≤ length buf.new }
{
    match env.arg(i, buf) {
        Ok(n) => n,
        Err(_) => 0,
    }
}
