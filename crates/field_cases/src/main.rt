#![tactic(auto)]
// Runs the field readers on the cases of standard input, one a line: a letter for the field, and the bytes in hexadecimal digits.
ghost use Rattle.std.specs.Prelude.{◌≡◌, ◌≤◌, length, IfOk};
ghost use Rattle.field_cases.specs.Counts.{IsPrefixLen};

use field::{Cursor, EntryVersion, Kind, Refusal, Span};
use message::Request;
use std::io;
use std::io::Read;

// Puts the bytes that the digits of s spell at the start of out, and answers how many there are. A byte that is no digit counts as 0.
// `hexadecimal::decode` refuses such a byte, and more bytes than there is room for.
fn decode(s: &[u8], out: &mut [u8]) -> usize
    ensures { IsPrefixLen result out.new }
{
    let n = out.len().min(s.len() / 2);
    for i in 0..n {
        out[i] = hexadecimal::value(s[2 * i]) * 16 + hexadecimal::value(s[2 * i + 1]);
    }
    n
}

// What is printed, here and below, are lines of this program's own, which no type's `Display` says.
fn tell(rt: &impl Print, s: &[u8]) -> io::Result<()> {
    rt.write_all(s)
}

// The end of a whole answer: the place behind the field.
fn tell_end(rt: &impl Print, c: Cursor) -> io::Result<()> {
    print!(rt; " {}", c.at)
}

fn tell_refusal(rt: &impl Print, refusal: Refusal) -> io::Result<()> {
    print!(rt; "refused {}", u16::from(refusal))
}

fn tell_number(rt: &impl Print, r: field::Read<u64>) -> io::Result<()> {
    match r {
        Ok(Some((v, c))) => {
            print!(rt; "whole {v}")?;
            tell_end(rt, c)
        }
        Ok(None) => tell(rt, b"more"),
        Err(refusal) => tell_refusal(rt, refusal),
    }
}

fn tell_version(rt: &impl Print, r: Option<(EntryVersion, Cursor)>) -> io::Result<()> {
    match r {
        Some((v, c)) => {
            print!(rt; "whole {}", v.0)?;
            tell_end(rt, c)
        }
        None => tell(rt, b"more"),
    }
}

fn tell_bytes(rt: &impl Print, s: &[u8]) -> io::Result<()> {
    for b in s {
        print!(rt; "{b:02x}")?;
    }
    Ok(())
}

fn tell_span(rt: &impl Print, s: &[u8], r: field::Read<Span>) -> io::Result<()> {
    match r {
        Ok(Some((p, c))) => {
            tell(rt, b"whole ")?;
            tell_bytes(rt, field::part(s, p))?;
            tell_end(rt, c)
        }
        Ok(None) => tell(rt, b"more"),
        Err(refusal) => tell_refusal(rt, refusal),
    }
}

fn tell_text(rt: &impl Print, s: &[u8]) -> io::Result<()> {
    tell(
        rt,
        if text::is_text(s) {
            b"text"
        } else {
            b"no text"
        },
    )
}

// One case: the field that the letter stands for, read at the start of s.
// Each letter has another reader, and what it answers is told by its type.
fn run(rt: &impl Print, letter: u8, s: &[u8]) -> io::Result<()> {
    let c = Cursor { at: 0 };
    match letter {
        b'i' => tell_number(rt, field::read_number(s, c, Kind::VInt))?,
        b'l' => tell_number(rt, field::read_number(s, c, Kind::VLong))?,
        b'e' => tell_version(rt, field::read_version(s, c))?,
        b't' => tell_text(rt, s)?,
        b'n' => tell_span(rt, s, field::read_text(s, c, Request::NAME))?,
        b'k' => tell_span(rt, s, field::read_limited(s, c, Request::KEY))?,
        b'v' => tell_span(rt, s, field::read_limited(s, c, Request::VALUE))?,
        _ => tell(rt, b"not a case")?,
    }
    tell(rt, b"\n")
}

// The room, here and in `main`, is of a fixed size, since nothing is allocated.
fn run_line(rt: &impl Print, line: &[u8]) -> io::Result<()> {
    if line.len() == 0 {
        return Ok(());
    }
    let mut bytes = [0; 4096];
    let n = decode(&line[1..], &mut bytes);
    run(rt, line[0], &bytes[..n])
}

fn run_lines(rt: &impl Print, s: &[u8]) -> io::Result<()> {
    for line in s.split(|b| *b == b'\n') {
        run_line(rt, line)?;
    }
    Ok(())
}

// Reads until buf is full or the input ends, and answers how many bytes there are.
// No `read_exact`: an input that ends early is whole. The step of the loop is what a read gives.
fn read_full(from: &mut impl Read, buf: &mut [u8]) -> io::Result<usize>
    ensures { IfOk result (λ n. IsPrefixLen n buf.new) }
{
    let mut done = 0;
    while done < buf.len() {
        let n = from.read(&mut buf[done..])?;
        if n == 0 {
            break;
        }
        done += n;
    }
    Ok(done)
}

fn main(rt: HostRuntime) -> io::Result<()> {
    let mut input = [0; 65536];
    let n = read_full(&mut rt.stdin(), &mut input)?;
    run_lines(&rt, &input[..n])
}
