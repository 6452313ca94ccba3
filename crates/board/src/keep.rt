// The table's file: loading it, and storing the table in its place.
ghost use Rattle.std.specs.Prelude.{length, ◌≡◌, true};
ghost use Rattle.table.specs.Memory.{size, Sound};
ghost use Rattle.board.specs.Turn.{LoadReady, Loads, Builds, Stores};

use crate::file::{BUFFER, Turned};
use crate::say::Failure;
use crate::{file, say};
use field::put;
use files::{NextLoad, NextStore, Window};
use std::fs::File;
use std::io;
use std::io::{Error, ErrorKind};
use std::os::fd::AsRawFd;
use std::random::RandomSource;

// Does what is to be done next.
fn turn(
    rt: &HostRuntime,
    stored: &mut File,
    name: &[u8],
    input: &mut [u8],
    t: &mut [u8],
    s: Window,
) -> Turned
    requires { LoadReady input.old s }
    ensures { Loads input.old t.old s result input.new t.new }
{
    match files::load_next(input, t, s) {
        NextLoad::Read(after) => match file::read_on(stored, input, after) {
            Ok(next) => Turned::On(next),
            Err(e) => {
                say::failed(rt, Failure::NoTable, name, e);
                Turned::Failed
            }
        },
        NextLoad::Done => Turned::Done,
        NextLoad::Broken(line) => Turned::Broken(line),
        NextLoad::Refused(_) => Turned::Broken(0),
        NextLoad::Astray => Turned::Broken(0),
    }
}

// Whether a table was loaded. Where the file stores none, it says so.
fn is_loaded(rt: &HostRuntime, r: Turned, name: &[u8]) -> bool
    ensures { result ≡ true → r ≡ Turned.Done }
{
    match r {
        Turned::Done => true,
        Turned::Broken(line) => {
            say::broken(rt, name, line);
            false
        }
        _ => false,
    }
}

// Builds the table of a file, and answers how that ends. The turns are counted as in serving.
fn build(rt: &HostRuntime, stored: &mut File, name: &[u8], t: &mut [u8]) -> Turned
    ensures { Builds t.old result t.new }
{
    let mut input = [0; BUFFER];
    let mut s = files::start();
    for _ in 0..u64::MAX {
        let r = turn(rt, stored, name, &mut input, t, s);
        let Turned::On(next) = r else {
            return r;
        };
        s = next;
    }
    Turned::Failed
}

// Loads the table of a file that is open, and closes it. It answers whether there is a table.
fn load_open(rt: &HostRuntime, stored: File, path: &[u8], t: &mut [u8]) -> bool
    requires { length t.old ≡ size }
    ensures { result ≡ true → Sound t.new }
{
    let mut stored = stored;
    let r = build(rt, &mut stored, path, t);
    drop(stored);
    is_loaded(rt, r, path)
}

// Loads the table of a file that is to be there. It answers whether there is a table.
// This and `load_file` share `load_open`: to one of them a file that is not there is a failure, and to the other a fresh table.
pub(crate) fn load_stored(rt: &HostRuntime, path: &[u8], t: &mut [u8]) -> bool
    requires { length t.old ≡ size }
    ensures { result ≡ true → Sound t.new }
{
    match file::open_read(rt, path) {
        Ok(stored) => load_open(rt, stored, path, t),
        Err(e) => {
            say::failed(rt, Failure::NoStored, path, e);
            false
        }
    }
}

// Loads the table of a file, a fresh one only where the system says that there is no such file. It answers whether there is a table to serve from.
pub(crate) fn load_file(rt: &HostRuntime, path: &[u8], t: &mut [u8]) -> bool
    requires { length t.old ≡ size }
    ensures { result ≡ true → Sound t.new }
{
    match file::open_read(rt, path) {
        Ok(stored) => load_open(rt, stored, path, t),
        Err(e) => {
            if e.kind() == ErrorKind::NotFound {
                return table::make(t).is_ok();
            }
            say::failed(rt, Failure::NoTable, path, e);
            false
        }
    }
}

// Room for the name of a file beside another: longer than any name that the system takes.
pub(crate) const ROOM: usize = 4160;

// The name of a file beside a table's that is to take its place: the table's, `.new-` and sixteen random digits.
pub(crate) fn beside(rt: &impl RandomSource, path: &[u8], name: &mut [u8]) -> usize {
    let mut seed = [0u8; 8];
    let _ = rt.fill_bytes(&mut seed);
    let a = put::put_raw(name, 0, path);
    let b = put::put_raw(name, a, b".new-");
    put::put_raw(name, b, &seed);
    hexadecimal::spread(name, b, seed.len())
}

// Makes the file that is to take a table's place. Where it can't be made, it says so.
pub(crate) fn make_file(rt: &HostRuntime, name: &[u8]) -> Option<File> {
    let out = match file::create(rt, name) {
        Ok(out) => out,
        Err(e) => {
            say::failed(rt, Failure::NoRoom, name, e);
            return None;
        }
    };
    if out.as_raw_fd() <= rt.stderr().as_raw_fd() {
        say::closed(rt);
        let_go(rt, out, name);
        return None;
    }
    Some(out)
}

// Closes a file that was made, and removes it.
pub(crate) fn let_go(rt: &HostRuntime, out: File, name: &[u8]) {
    drop(out);
    let _ = file::unlink(rt, name);
}

// Whether all lines were written.
fn is_stored(r: NextStore) -> bool
    requires { Stores r }
    ensures { result ≡ true → r ≡ NextStore.Done }
{
    matches!(r, NextStore::Done)
}

// Writes the lines of the table, as many at a time as there is room for, and answers whether they are all written.
fn write_lines(out: &mut File, t: &[u8]) -> io::Result<bool>
    requires { Sound t.now }
{
    let mut lines = [0; BUFFER];
    let mut line = 0;
    loop {
        let r = files::store_next(t, &mut lines, line);
        let NextStore::Write(n, next) = r else {
            return Ok(is_stored(r));
        };
        file::write(out, &lines, n)?;
        line = next;
    }
}

// Writes the table to the file made for it, which takes the table's name when all has reached the disk.
fn store_lines(rt: &HostRuntime, out: File, t: &[u8], name: &[u8], path: &[u8]) -> io::Result<()>
    requires { Sound t.now }
{
    let mut out = out;
    if !write_lines(&mut out, t)? {
        return Err(Error::from(ErrorKind::InvalidData));
    }
    out.sync_all()?;
    drop(out);
    file::rename(rt, name, path)
}

// Stores the table by the file made for it. Where that fails, it says so and the file goes.
pub(crate) fn store_file(rt: &HostRuntime, out: File, t: &[u8], name: &[u8], path: &[u8])
    requires { Sound t.now }
{
    if let Err(e) = store_lines(rt, out, t, name, path) {
        say::failed(rt, Failure::NotStored, path, e);
        let _ = file::unlink(rt, name);
    }
}
