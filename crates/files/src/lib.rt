#![tactic(auto)]
// A file through a buffer, as a machine by value: it says what to write, when to read on and where to, and when all is done.
mod buffer;

ghost use Rattle.std.specs.Prelude.{◌≡◌, Ok, List, ℕ, ◌+◌, ◌≤◌, length};
ghost use Rattle.server.specs.Lines.{TurnsDone};
ghost use Rattle.files.specs.Window.{begin, inside, Arrives};
ghost use Rattle.files.specs.Serving.{Ready, ServesNext};
ghost use Rattle.table.specs.Memory.{state_of};
ghost use Rattle.files.specs.Loading.{line_behind, LoadsNext};
ghost use Rattle.files.specs.Storing.{StoresNext};

use field::Refusal;
use server::Fed;

// Where reading a file through a buffer stands: the bytes of the buffer from `from` up to `held` are read and not yet taken. carried: what the bytes
// before hand to those behind; in serving, that the rest of a line is to be passed over; in loading, that the first line is loaded. ended: a read
// brought nothing.
// The flags are conditions of the definitions: both places hold with them and without them. The buffer is none of its fields, since the caller reads into it.
#[derive(Clone, Copy)]
pub struct Window {
    pub from: usize,
    pub held: usize,
    pub carried: bool,
    pub ended: bool,
}

// What is to be done next. Write: write so many bytes of the output, and call again. Read: read into the buffer behind the bytes held, and call
// again with what `after_read` answers. Refused: 12 where a buffer is too short, 13 where the table is not sound. Astray: the window is none of
// this buffer.
// The three answers have other steps each: one type of them would have answers that cannot be. The caller does the step: nothing here asks the system.
#[derive(Clone, Copy)]
pub enum NextServe {
    Write(usize, Window),
    Read(Window),
    Done,
    Refused(Refusal),
    Astray,
}

// The same for loading, which writes nothing. Broken: 17, the file stores no table, with the number of the first line that is not good. Refused: 12
// where the buffer is too short.
#[derive(Clone, Copy)]
pub enum NextLoad {
    Read(Window),
    Done,
    Broken(usize),
    Refused(Refusal),
    Astray,
}

impl NextLoad {
    // The longest line of a stored table, its line end not counted.
    pub const LONGEST: usize = 678;
}

// The same for storing. Write: write so many bytes of the output, and call again for the line that is named. Refused: 12 where there is no room for a
// line, 13 where the table is not sound.
#[derive(Clone, Copy)]
pub enum NextStore {
    Write(usize, usize),
    Done,
    Refused(Refusal),
}

impl NextStore {
    // The least room for the output: the longest line of a stored table, with its line end.
    pub const ROOM: usize = 679;
}

// A file that is not yet read.
pub fn start() -> Window
    ensures { result ≡ begin }
{
    Window {
        from: 0,
        held: 0,
        carried: false,
        ended: false,
    }
}

// The window after a read that brought so many bytes. One that brings none is the file's end.
pub fn after_read(s: Window, got: usize) -> Window
    ensures { Arrives s got result }
{
    if usize::MAX - s.held < got {
        return Window {
            from: s.from,
            held: usize::MAX,
            carried: s.carried,
            ended: false,
        };
    }
    Window {
        from: s.from,
        held: s.held + got,
        carried: s.carried,
        ended: got == 0,
    }
}

// Serves the lines in the window, and says what is to be done next.
pub fn serve_next(buf: &mut [u8], table: &mut [u8], out: &mut [u8], s: Window) -> NextServe
    ensures { ServesNext buf.old table.old out.old s result buf.new table.new out.new }
{
    if s.held < s.from || buf.len() < s.held {
        return NextServe::Astray;
    }
    if buf.len() <= Fed::LONGEST {
        return NextServe::Refused(Refusal::Room);
    }
    match server::serve_lines(&buf[s.from..s.held], table, out, s.carried, s.ended) {
        Ok(f) => go_on(buf, s, f),
        Err(refusal) => NextServe::Refused(refusal),
    }
}

// What is to be done next where lines in the window were served.
fn go_on(buf: &mut [u8], s: Window, f: Fed) -> NextServe
    requires taken_bound { s.from + f.taken ≤ s.held }
    requires held_in_bounds { s.held ≤ length buf.old }
    ensures { (t out out' t' : List ℕ) → Ready buf.old t out s → TurnsDone s.ended s.carried (inside buf.old s) t out (Ok f) out' t' → ServesNext buf.old t out s result buf.new t' out' }
{
    let at = s.from + f.taken;
    if f.size != 0 {
        return NextServe::Write(
            f.size,
            Window {
                from: at,
                held: s.held,
                carried: f.passing,
                ended: s.ended,
            },
        );
    }
    if s.ended {
        return NextServe::Done;
    }
    let n = buffer::move_down(buf, at, s.held);
    NextServe::Read(Window {
        from: 0,
        held: n,
        carried: f.passing,
        ended: false,
    })
}

// The file stores no table: its first line that is not good is the one behind those loaded.
// `begun` is a condition of the definition `line_behind`.
fn broken(table: &[u8], begun: bool) -> NextLoad
    ensures { result ≡ NextLoad.Broken (line_behind begun (state_of table.now)) }
{
    if begun {
        return NextLoad::Broken(table::count(table) + 2);
    }
    NextLoad::Broken(1)
}

// Loads the lines in the window into the table, and says what is to be done next. The table is one only after the last answer, Done.
pub fn load_next(buf: &mut [u8], table: &mut [u8], s: Window) -> NextLoad
    ensures { LoadsNext buf.old table.old s result buf.new table.new }
{
    let from = s.from;
    let held = s.held;
    if held < from {
        return NextLoad::Astray;
    }
    if buf.len() < held {
        return NextLoad::Astray;
    }
    if buf.len() <= NextLoad::LONGEST {
        return NextLoad::Refused(Refusal::Room);
    }
    let p = stored::load_lines(&buf[from..held], table, s.carried);
    if !p.good {
        return broken(table, p.begun);
    }
    let at = from + p.taken;
    if s.ended {
        if !p.begun {
            return broken(table, p.begun);
        }
        if at != held {
            return broken(table, p.begun);
        }
        return NextLoad::Done;
    }
    if NextLoad::LONGEST < held - at {
        return broken(table, p.begun);
    }
    let n = buffer::move_down(buf, at, held);
    NextLoad::Read(Window {
        from: 0,
        held: n,
        carried: p.begun,
        ended: false,
    })
}

// Writes lines of the stored table from a line on, as long as there is room for one, and says what is to be done next. The first line has the number 0.
// No range: the line at which the room ends is answered.
pub fn store_next(table: &[u8], out: &mut [u8], line: usize) -> NextStore
    ensures { StoresNext table.now out.old line result out.new }
{
    if out.len() < NextStore::ROOM {
        return NextStore::Refused(Refusal::Room);
    }
    if !soundness::is_table(table) {
        return NextStore::Refused(Refusal::Table);
    }
    let count = table::count(table);
    if count < line {
        return NextStore::Done;
    }
    let mut at = 0;
    let mut i = line;
    while i <= count && NextStore::ROOM <= out.len() - at {
        at = stored::store_line(table, i, out, at);
        i += 1;
    }
    NextStore::Write(at, i)
}
