// A file that is read and written through a buffer.
ghost use Rattle.std.specs.Prelude.{◌≡◌, length};
ghost use Rattle.wire.specs.Write as wire;
ghost use Rattle.board.specs.Turn.{ReadsOn};

use field::Span;
use files::Window;
use std::fs::File;
use std::io::{Error, ErrorKind, Read, Write};
use std::{fs, io, str};

// How a turn ends: there is a next one; all is done; the file is not good; or a system call failed, and that was said.
#[derive(Clone, Copy)]
pub(crate) enum Turned {
    On(Window),
    Done,
    Broken(usize),
    Failed,
}

// The bytes of a buffer for a loop that moves much data.
pub(crate) const BUFFER: usize = 65_536;

// len bytes from start on, as far as they are there.
pub(crate) fn part(s: &[u8], start: usize, len: usize) -> &[u8]
    ensures { result.now ≡ wire.part s.now start len }
{
    field::part(s, Span { start, len })
}

// Writes the first n bytes of a buffer.
// What is written, here and in `say`, need not be text: names of files are bytes.
pub(crate) fn write(to: &mut impl Write, buf: &[u8], n: usize) -> io::Result<()> {
    to.write_all(part(buf, 0, n))
}

// Reads on behind the bytes in a window, and answers the window after it.
pub(crate) fn read_on(from: &mut impl Read, buf: &mut [u8], s: Window) -> io::Result<Window>
    ensures { ReadsOn buf.old s result buf.new }
{
    if buf.len() < s.held {
        return Err(Error::from(ErrorKind::InvalidInput));
    }
    let n = from.read(&mut buf[s.held..])?;
    Ok(files::after_read(s, n))
}

// The text of a name: the library takes no name that is none.
fn text_of(name: &[u8]) -> io::Result<&str> {
    match str::from_utf8(name) {
        Ok(text) => Ok(text),
        Err(_) => Err(Error::new(ErrorKind::InvalidFilename, "The name is no text in UTF-8")),
    }
}

// Opens a file to read it.
pub(crate) fn open_read(rt: &HostRuntime, path: &[u8]) -> io::Result<File> {
    File::open(rt, text_of(path)?)
}

// Makes a file that is not there yet, to write it.
pub(crate) fn create(rt: &HostRuntime, name: &[u8]) -> io::Result<File> {
    File::options()
        .write(true)
        .create_new(true)
        .open(rt, text_of(name)?)
}

// Gives a file another's name, whose place it takes.
pub(crate) fn rename(rt: &HostRuntime, name: &[u8], path: &[u8]) -> io::Result<()> {
    fs::rename(rt, text_of(name)?, text_of(path)?)
}

// Removes a file.
pub(crate) fn unlink(rt: &HostRuntime, name: &[u8]) -> io::Result<()> {
    fs::remove_file(rt, text_of(name)?)
}
