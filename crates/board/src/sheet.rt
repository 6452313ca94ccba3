// Lists the keys of a stored table by their order.
use crate::arguments::{WORD, arg};
use crate::file::{BUFFER, part};
use crate::say::{Failure, STANDARD_OUTPUT};
use crate::{file, keep, say};
use field::{Cursor, put};
use table::Table;

// The number that a word spells, as its shortest decimal; without a word, the largest one.
fn count_of(word: &[u8], given: bool) -> Option<u64> {
    if !given {
        return Some(u64::MAX);
    }
    let mut spelled = [0; WORD];
    let n = put::put_limited(&mut spelled, 0, word, 19);
    let (most, _) = decimal::read_decimal(part(&spelled, 0, n), Cursor { at: 0 }).ok()??;
    Some(most)
}

// Writes the keys of a table, as the body of a bulkGetKeys reply in a line of digits, or says what is refused.
fn write_keys(rt: &HostRuntime, t: &[u8], name: &[u8], key: &[u8], most: u64) {
    let mut out = [0; BUFFER];
    match order::list_keys(t, name, key, most, &mut out) {
        Ok(n) => {
            let end = hexadecimal::make_line(&mut out, 0, n);
            if let Err(e) = file::write(&mut rt.stdout(), &out, end) {
                say::failed(rt, Failure::Unlisted, STANDARD_OUTPUT, e);
            }
        }
        Err(refusal) => say::not_listed(rt, name, refusal),
    }
}

// Loads the table of a file, and lists its keys.
fn list(rt: &HostRuntime, path: &[u8], name: &[u8], key: &[u8], most: u64) {
    let mut t = [0; Table::SIZE];
    if keep::load_stored(rt, path, &mut t) {
        write_keys(rt, &t, name, key, most);
    }
}

// Lists the keys of the table that the second argument names. The others, where they are given, are a cache's name, a key that the listing begins at, and how
// many keys it has at most.
pub(crate) fn sheet(rt: &HostRuntime, count: usize) {
    let mut path = [0; WORD];
    let mut name = [0; WORD];
    let mut key = [0; WORD];
    let mut word = [0; WORD];
    let n = arg(rt, 2, &mut path);
    let m = arg(rt, 3, &mut name);
    let k = arg(rt, 4, &mut key);
    let w = arg(rt, 5, &mut word);
    let Some(most) = count_of(&word[..w], count > 5) else {
        say::wrong(rt);
        return;
    };
    if n > 0 {
        list(rt, &path[..n], &name[..m], &key[..k], most);
    } else {
        say::wrong(rt);
    }
}
