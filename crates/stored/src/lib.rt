#![tactic(auto)]
// The stored form of a table: a line at a time, and the whole file.
mod lines;

ghost use Rattle.std.specs.Prelude.{◌≡◌, [], cond, ◌-◌, ◌≤◌, ◌<◌, length};
ghost use Rattle.std.proofs.lemmas.List.Edits.{sets};
ghost use Rattle.wire.specs.Write.{laid};
ghost use Rattle.message.specs.Sent.{as_sent};
ghost use Rattle.field.specs.declared.refusals.Refusal.TheVariants as refusal;
ghost use Rattle.table.specs.Memory.{state_of};
ghost use Rattle.table.specs.Found.{entry_at};
ghost use Rattle.table.specs.Change.{Answers, AnswersBy};
ghost use Rattle.hexadecimal.specs.Hex.{line};
ghost use Rattle.stored.specs.File.{form1, entry_line, file};
ghost use Rattle.stored.specs.StoreLoad.{line_at, Storing, head_loaded, line_loaded, loaded, LoadsLines, Loaded};

use field::Refusal;
use table::Table;

// What a line is made of.
#[derive(Clone, Copy)]
pub struct Line {}

impl Line {
    pub const FORM: u8 = 0x01;

    pub const END: u8 = 0x0a;

    // The characters of the first line, with its line end.
    pub const HEAD: usize = 19;

    // How many bytes a line has at most, before they are spelt.
    pub const MOST: usize = 339;
}

// What loading the lines of a chunk of a stored file answers: the bytes taken, whether the first line has been loaded, and whether each whole
// line was good.
// The two are flags, since `LoadsLines`, `chunks` and `bad-chunk` say all three of good lines and of others.
#[derive(Clone, Copy)]
pub struct Loading {
    pub taken: usize,
    pub begun: bool,
    pub good: bool,
}

// Whether there is a line i, which is that of entry i - 1: the entry stands at the latest second.
fn has_line(t: &[u8], i: usize) -> bool
    requires { 0 < i }
    ensures { line_at form1 (state_of t.now) i ≡ cond result (line ((entry_line form1).enc (entry_at t.now (i - 1)))) [] }
{
    if table::count(t) < i {
        return false;
    }
    table::stands(t, i - 1, table::latest(t))
}

// Writes line i of the stored file at a place, with its line end, and answers the place behind it: the first line, or that of entry i - 1. Where there
// is no such line, as of an entry that has expired at the latest second, or no room for it, nothing is written and the same place is answered.
// The first line has the number 0, as in the definition `line_at`; loading tells it by `begun`, as `loaded` does.
pub fn store_line(t: &[u8], i: usize, out: &mut [u8], at: usize) -> usize
    ensures { (result, out.new) ≡ laid (line_at form1 (state_of t.now) i) at out.old }
{
    let mut room = [0u8; Line::MOST];
    if i == 0 {
        let n = lines::write_head(t, &mut room);
        return lines::put_line(&room[0..n], out, at);
    }
    if !has_line(t, i) {
        return at;
    }
    let n = lines::write_entry(t, i - 1, &mut room);
    lines::put_line(&room[0..n], out, at)
}

// How long the stored file is.
fn file_len(t: &[u8]) -> usize
    ensures { result ≡ length (file form1 (state_of t.now)) }
{
    let n = table::count(t);
    let latest = table::latest(t);
    let mut sum = Line::HEAD;
    for i in 0..n {
        sum += lines::line_len(t, i, latest);
    }
    sum
}

// Writes the lines of the file, for which there is room.
fn write_file(t: &[u8], out: &mut [u8]) -> usize
    requires { length (file form1 (state_of t.now)) ≤ length out.old }
    ensures { (result ≡ length (file form1 (state_of t.now))) × (out.new ≡ sets out.old 0 (file form1 (state_of t.now))) }
{
    let n = table::count(t);
    let mut at = 0;
    for i in 0..=n {
        at = store_line(t, i, out, at);
    }
    at
}

// Writes the stored file of a table. A table that is not sound is 13, then room under the file's length is 12.
pub fn store(t: &[u8], out: &mut [u8]) -> Result<usize, Refusal>
    ensures { Storing form1 t.now out.old (as_sent result) out.new }
{
    if !soundness::is_table(t) {
        return Err(Refusal::Table);
    }
    if out.len() < file_len(t) {
        return Err(Refusal::Room);
    }
    Ok(write_file(t, out))
}

// Loads a line, without its line end: the first line of a file where none is loaded yet, else an entry's line.
fn load_next(line: &[u8], t: &mut [u8], begun: bool) -> bool
    ensures { Answers t.old (loaded form1 begun line.now t.old) result t.new }
{
    let mut room = [0u8; Line::MOST];
    let Ok(n) = hexadecimal::decode(line, &mut room) else {
        return false;
    };
    if begun {
        return lines::restore(&room[0..n], t);
    }
    lines::start(&room[0..n], t)
}

// Starts the table in t with the first line of a stored file, without its line end. Any other line is 17, and leaves t as it was.
// This and `load_line` are one line each over `load_next`, with a contract of their own.
pub fn load_head(line: &[u8], t: &mut [u8]) -> Result<(), Refusal>
    ensures { AnswersBy refusal.File t.old (head_loaded form1 line.now t.old) result t.new }
{
    table::done_or(load_next(line, t, false), Refusal::File)
}

// Adds the entry of a line, without its line end, to the table in t. A line of none, or of one that can't stand there, is 17, and leaves t as it
// was.
pub fn load_line(line: &[u8], t: &mut [u8]) -> Result<(), Refusal>
    ensures { AnswersBy refusal.File t.old (line_loaded form1 line.now t.old) result t.new }
{
    table::done_or(load_next(line, t, true), Refusal::File)
}

// Loads the whole lines of a chunk of a stored file into the table in t, up to the first that is not good. begun: the first line of the file
// has been loaded.
pub fn load_lines(chunk: &[u8], t: &mut [u8], begun: bool) -> Loading
    ensures { LoadsLines form1 begun chunk.now t.old result t.new }
{
    let mut p = Loading {
        taken: 0,
        begun,
        good: true,
    };
    // No range or iterator: where a line begins is known only when the one before it has been found and loaded.
    loop {
        let end = hexadecimal::scan::find(chunk, p.taken, Line::END);
        if end == chunk.len() {
            return p;
        }
        p.good = load_next(&chunk[p.taken..end], t, p.begun);
        if !p.good {
            return p;
        }
        p.begun = true;
        p.taken = end + 1;
    }
}

// Loads a stored file: the table is built in memory of its own, and takes the place of t only when the last line is good. Else it is 17.
pub fn load(file: &[u8], t: &mut [u8]) -> Result<(), Refusal>
    ensures { Loaded form1 file.now t.old result t.new }
{
    if t.len() != Table::SIZE {
        return Err(Refusal::File);
    }
    let mut built = [0u8; Table::SIZE];
    let p = load_lines(file, &mut built, false);
    if !p.good || !p.begun || p.taken != file.len() {
        return Err(Refusal::File);
    }
    t.copy_from_slice(&built);
    Ok(())
}
