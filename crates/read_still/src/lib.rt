// Words in which nothing is expanded: bare bytes, bytes in quotes that stand for themselves there, and bytes behind backslashes. Such a word is read at once,
// and its bytes without quotes are its one field, whatever the tables are. A word with any other byte in it is none of them, though it may say no more.
#![tactic(auto)]

ghost use Rattle.std.specs.Prelude.{true, ◌+◌, ◌≤◌, ◌<◌, length, drop};
ghost use Rattle.stages.specs.Bytes.{span};
ghost use Rattle.read_mode.specs.Modes.{mode_of};
ghost use Rattle.read_run.specs.Literals.{literal_in};
ghost use Rattle.read_still.specs.Walks.{closed_by, escaped_in, quoted_in, Encloses, EndsAt, PutsBehind, PutsStill};

use read_mode::Mode;
use text::Class;

// What is quoted at a place: the line's bytes from `from` to `to`, and it goes on at `next`.
#[derive(Clone, Copy)]
struct Enclosed {
    from: usize,
    to: usize,
    next: usize,
}

// A word in which nothing is expanded: its bytes are the area's first `len`, and the line goes on at `next`.
#[derive(Clone, Copy)]
pub struct StillWord {
    pub len: usize,
    pub next: usize,
}

// What quotes enclose that open before a place, if only bytes that stand for themselves in the mode do up to the next quote.
fn closed_at(line: &[u8], at: usize, mode: Mode, mark: u8) -> Option<Enclosed>
    requires { at ≤ length line.now }
    ensures { Encloses line.now at (closed_by mark (span (literal_in (mode_of mode)) (drop at line.now))) result }
{
    let to = read_run::literals_end(line, at, mode);
    if to >= line.len() || line[to] != mark {
        return None;
    }
    Some(Enclosed {
        from: at,
        to,
        next: to + 1,
    })
}

// What the backslash before a place quotes, if it quotes a byte.
fn escaped_at(line: &[u8], at: usize) -> Option<Enclosed>
    requires { at ≤ length line.now }
    ensures { Encloses line.now at (escaped_in (drop at line.now)) result }
{
    if at >= line.len() || line[at] == b'\n' {
        return None;
    }
    Some(Enclosed {
        from: at,
        to: at + 1,
        next: at + 1,
    })
}

// What is quoted at a place, if something is, and only bytes that stand for themselves.
fn quoted_at(line: &[u8], at: usize) -> Option<Enclosed>
    requires { at < length line.now }
    ensures { Encloses line.now (at + 1) (quoted_in (drop at line.now)) result }
{
    match line[at] {
        b'\'' => closed_at(line, at + 1, Mode::Single(false), b'\''),
        b'"' => closed_at(line, at + 1, Mode::Double(true), b'"'),
        b'\\' => escaped_at(line, at + 1),
        _ => None,
    }
}

// The place behind the word that begins at a place, if nothing is expanded in it.
pub fn still_end(line: &[u8], at: usize) -> Option<usize>
    requires { at ≤ length line.now }
    ensures { EndsAt line.now at result }
{
    let mut i = at;
    loop {
        let run = text::run_end(line, i, Class::BareByte);
        if run >= line.len() || text::in_class(Class::Blank, line[run]) {
            return Some(run);
        }
        match quoted_at(line, run) {
            None => return None,
            Some(quoted) => i = quoted.next,
        }
    }
}

// Puts a text behind the first `used` bytes of an area, and answers how many bytes are used then.
fn put_behind(text: &[u8], area: &mut [u8], used: usize) -> usize
    requires { used + length text.now ≤ length area.old }
    ensures { PutsBehind used text.now area.old area.new result }
{
    text_copy::copy_in(text, &mut area[used..]);
    used + text.len()
}

// The bytes of the word that begins at a place come to the front of an area, if nothing is expanded in it. If it is no such word, some of its bytes may have
// come there.
pub fn put_still(line: &[u8], at: usize, area: &mut [u8]) -> Option<StillWord>
    requires { (at ≤ length line.now) × (length line.now ≤ at + length area.old) }
    ensures { PutsStill line.now at area.old area.new result }
{
    let mut i = at;
    let mut n: usize = 0;
    loop {
        let run = text::run_end(line, i, Class::BareByte);
        n = put_behind(&line[i..run], area, n);
        if run >= line.len() || text::in_class(Class::Blank, line[run]) {
            return Some(StillWord { len: n, next: run });
        }
        let found = quoted_at(line, run)?;
        n = put_behind(&line[found.from..found.to], area, n);
        i = found.next;
    }
}
