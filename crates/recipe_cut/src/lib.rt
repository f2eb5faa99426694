// The program's lines. What it reads comes in blocks and is cut at each newline into a lent line buffer, of which only as many bytes are kept as can
// matter; lines are counted; what it writes for a line is its answer in words, and the message that the line demands.
#![tactic(auto)]

ghost use Rattle.std.specs.Prelude.{◌≡◌, ◌++◌, ◌+◌, ◌≤◌, length, take};
ghost use Rattle.stages.specs.Program.{next_number};
ghost use Rattle.text.specs.Putting.{Puts};
ghost use Rattle.recipe_cut.specs.Lines.{line_kept, kept_of, has_line, LineEnd, Takes};
ghost use Rattle.recipe_cut.specs.Said.{said_by, ok_text, no_text, answer_room, told_by, demand_text, told_room, line_in};

use text::numbers;
use text::refusal::Refusal;

// What came of a line.
#[derive(Clone, Copy)]
pub enum Taken {
    // It ended: how many bytes of it are kept, and the place behind its newline.
    Ended { kept: usize, next: usize },
    // The block ran out first: how many bytes of it are kept so far.
    Open(usize),
}

// The lines that are numbered; those behind them have the last one's number.
const COUNT_LIMIT: usize = 999999999;

// The most bytes that are written for a line: its answer in words, and what is told of it, `line `, a number, `: `, a message and a newline.
pub const WRITTEN_ROOM: usize = numbers::SAID_ROOM + numbers::ROW_LIMIT + numbers::MOST_DIGITS + 8;

// Where the quoted line stands among the words of an acceptance, and where the longest one ends there.
pub const LINE_AT: usize = 3;

pub const LINE_TO: usize = LINE_AT + numbers::LINE_LIMIT;

const NEWLINE: u8 = b'\n';

const BLANK: u8 = b' ';

// The place of the next newline, or the block's end.
fn line_end(block: &[u8], from: usize) -> usize
    requires { from ≤ length block.now }
    ensures { LineEnd block.now from result }
{
    let rest = &block[from..];
    from + rest
        .iter()
        .position(|b| *b == NEWLINE)
        .unwrap_or(rest.len())
}

// Puts bytes of a line behind those that are kept of it, as many as can matter.
fn keep(line: &mut [u8], kept: usize, bytes: &[u8]) -> usize
    requires { (kept ≤ line_kept) × (line_kept ≤ length line.old) }
    ensures { Puts (kept_of (take kept line.old ++ bytes.now)) line.old line.new result }
{
    let n = bytes.len().min(numbers::LINE_KEPT - kept);
    text_copy::copy_in(&bytes[..n], &mut line[kept..]);
    kept + n
}

// Takes what stands of a line in the block from a place on, behind the bytes that are kept of it.
pub fn take_in(line: &mut [u8], kept: usize, block: &[u8], from: usize) -> Taken
    requires { (kept ≤ line_kept) × (line_kept ≤ length line.old) × (from ≤ length block.now) }
    ensures { Takes line.old kept block.now from line.new result }
{
    let end = line_end(block, from);
    let n = keep(line, kept, &block[from..end]);
    if end < block.len() {
        Taken::Ended {
            kept: n,
            next: end + 1,
        }
    } else {
        Taken::Open(n)
    }
}

// Do the bytes behind the last newline make a line?
pub fn is_last_line(line: &[u8]) -> bool
    ensures { result ≡ has_line line.now }
{
    !line.is_empty()
}

// The number of the line behind line n.
pub fn next_number(n: usize) -> usize
    ensures { result ≡ next_number n }
{
    if n < COUNT_LIMIT { n + 1 } else { n }
}

// Writes `ok ` before the quoted line, so many bytes from `LINE_AT` on, and a newline behind it.
fn put_ok(len: usize, out: &mut [u8]) -> usize
    requires { len + 4 ≤ length out.old }
    ensures { Puts (ok_text (line_in len out.old)) out.old out.new result }
{
    text_copy::copy_in(b"ok ", out);
    let end = len + LINE_AT;
    out[end] = NEWLINE;
    end + 1
}

// Writes `no `, the number, a blank, the place and a newline.
fn put_no(number: u8, place: usize, out: &mut [u8]) -> usize
    requires { answer_room ≤ length out.old }
    ensures { Puts (no_text number place) out.old out.new result }
{
    text_copy::copy_in(b"no ", out);
    let a = arith_decimal::put_decimal(&mut out[3..], number as u64);
    let blank = a + 3;
    out[blank] = BLANK;
    let start = blank + 1;
    let b = arith_decimal::put_decimal(&mut out[start..], place as u64);
    let end = start + b;
    out[end] = NEWLINE;
    end + 1
}

// Writes what the program says of an answer around the quoted line, which stands from `LINE_AT` on and has no byte where the line is refused; returns the
// words' length. The bytes behind them stay.
pub fn put_answer(number: u8, place: usize, len: usize, out: &mut [u8]) -> usize
    requires { len + answer_room ≤ length out.old }
    ensures { Puts (said_by number place (line_in len out.old)) out.old out.new result }
{
    if number == numbers::ACCEPTED {
        put_ok(len, out)
    } else {
        put_no(number, place, out)
    }
}

// Writes `line `, the line's number, `: `, the message and a newline.
fn put_demand(line: usize, message: &[u8], out: &mut [u8]) -> usize
    requires { length message.now + told_room ≤ length out.old }
    ensures { Puts (demand_text line message.now) out.old out.new result }
{
    text_copy::copy_in(b"line ", out);
    let a = arith_decimal::put_decimal(&mut out[5..], line as u64);
    let colon = a + 5;
    text_copy::copy_in(b": ", &mut out[colon..]);
    let start = colon + 2;
    text_copy::copy_in(message, &mut out[start..]);
    let end = start + message.len();
    out[end] = NEWLINE;
    end + 1
}

// Writes what the program tells of the answer to a line: the message that is demanded, and nothing for any other answer; returns its length. The bytes
// behind it stay.
pub fn put_told(number: u8, line: usize, message: &[u8], out: &mut [u8]) -> usize
    requires { length message.now + told_room ≤ length out.old }
    ensures { Puts (told_by number line message.now) out.old out.new result }
{
    let is_demand = number == Refusal::Demanded.number();
    if is_demand {
        put_demand(line, message, out)
    } else {
        0
    }
}
