// Reading: the end of a text, the words or the assignments of a line. One reader finds a text's faults, skips an operand that is not used, and says where
// a text ends; it builds nothing, and looks at each byte once for each expansion that it stands in.
#![tactic(auto)]

ghost use Rattle.std.specs.Prelude.{◌≡◌, Bool, true, false, ℕ, ◌≤◌, ◌<◌, length, drop, get_or};
ghost use Rattle.stages.specs.Numbers.{depth_limit};
ghost use Rattle.stages.specs.Bytes.{is_blank};
ghost use Rattle.stages.specs.Syntax.{fresh, word};
ghost use Rattle.stages.specs.Read.{parts, read_line};
ghost use Rattle.stages.specs.Assign.{an_assignment, read_assignments};
ghost use Rattle.read_mode.specs.Modes.{mode_of, open_in};
ghost use Rattle.read_line.specs.Says.{ReadSays, Here, ItemSays, NextSays, AssignmentSays, PieceSays, verdict, verdict_from, verdict_of};

use read_brace::Item;
use read_mode::{Cursor, Mode};
use text::refusal::{Refusal, Refused};
use text::{Class, numbers};

// What a line is made of. By name, and not a closure that reads a piece: the contracts state the verdict on a line by it.
#[derive(Clone, Copy)]
enum Pieces {
    Words,
    Assignments,
}

// Reads an item of a text: answers the place after it, which is that after the text if the item ends it.
#[cycle(read_item_read_text)]
fn read_item(item: Item, text: &[u8], from: Cursor) -> Result<usize, Refusal>
    requires { Here text.now from item }
    ensures { ItemSays item text.now from result }
{
    match item {
        Item::Stop(next) => Ok(next),
        Item::Byte { next, .. } => Ok(next),
        Item::Paren { .. } => Ok(from.at + 1),
        Item::Value { next, .. } => Ok(next),
        Item::Count { next, .. } => Ok(next),
        Item::Quote { mode, next } => read_text(
            text,
            Cursor {
                at: next,
                mode,
                depth: from.depth,
            },
        ),
        Item::Inner { mode, next, .. } => read_text(
            text,
            Cursor {
                at: next,
                mode,
                depth: from.depth - 1,
            },
        ),
        Item::Sum { next } => read_text(
            text,
            Cursor {
                at: next,
                mode: Mode::Arith(0),
                depth: from.depth - 1,
            },
        ),
        Item::Home(to) => Ok(to),
        Item::Total { next } => Ok(next),
        Item::Spread { next, .. } => Ok(next),
    }
}

// Reads a text to its end: runs of bytes that stand for themselves, and the items behind them. Answers the place behind the text.
#[cycle(read_item_read_text)]
pub fn read_text(text: &[u8], from: Cursor) -> Result<usize, Refusal>
    requires { (from.at ≤ length text.now) × (open_in from.mode ≤ from.at) }
    ensures { ReadSays text.now from.at (parts (mode_of from.mode) from.depth (drop from.at text.now)) result }
{
    let mut here = from;
    loop {
        let place = read_run::behind_literals(text, here);
        if read_item::is_end(text, place.at, place.mode) {
            return Ok(place.at + read_item::end_length(place.mode));
        }
        let read = read_item::item_at(text, place);
        let item = read?;
        let next = read_item(item, text, place)?;
        if read_item::is_stop(read) {
            return Ok(next);
        }
        here = Cursor {
            at: next,
            mode: read_item::mode_after(read, place.mode),
            depth: place.depth,
        };
    }
}

// The place of the first byte that is no blank, from `at` on, if there is one: the next word begins there.
pub fn next_word(line: &[u8], at: usize) -> Option<usize>
    requires { at ≤ length line.now }
    ensures { NextSays line.now at result }
{
    let place = text::run_end(line, at, Class::Blank);
    if place < line.len() {
        Some(place)
    } else {
        None
    }
}

// Reads a text to its end in which no expansion is open yet.
fn read_from(line: &[u8], at: usize, mode: Mode) -> Result<usize, Refusal>
    requires { (at ≤ length line.now) × (open_in mode ≤ at) }
    ensures { ReadSays line.now at (parts (mode_of mode) depth_limit (drop at line.now)) result }
{
    read_text(
        line,
        Cursor {
            at,
            mode,
            depth: numbers::DEPTH_LIMIT,
        },
    )
}

// The place of the `=` in the word whose first byte is at `place`, if it is an assignment: a name, and then a `=`.
pub fn assignment_at(line: &[u8], place: usize) -> Option<usize>
    requires { place < length line.now }
    ensures { AssignmentSays line.now place result }
{
    if !text::in_class(Class::NameStart, line[place]) {
        return None;
    }
    let equals = text::run_end(line, place, Class::NameByte);
    if equals >= line.len() || line[equals] != b'=' {
        return None;
    }
    Some(equals)
}

// Reads the assignment whose first byte is at `place`: what does not fit before its value is met first.
fn read_assignment(line: &[u8], place: usize) -> Result<usize, Refusal>
    requires { place < length line.now }
    ensures { ReadSays line.now place (an_assignment (drop place line.now)) result }
{
    let Some(equals) = assignment_at(line, place) else {
        return Err(Refusal::BadSyntax);
    };
    read_from(line, equals + 1, Mode::Value(true))
}

// Reads the word whose first byte is at `place`: one in which nothing is expanded at once.
fn read_word(line: &[u8], place: usize) -> Result<usize, Refusal>
    requires { place < length line.now }
    ensures { ReadSays line.now place (parts (word fresh) depth_limit (drop place line.now)) result }
{
    if let Some(end) = read_still::still_end(line, place) {
        return Ok(end);
    }
    read_from(line, place, Mode::Word(true))
}

// Reads the piece whose first byte is at `place`; an operator or a `#` there begins none.
fn read_piece(pieces: Pieces, line: &[u8], place: usize) -> Result<usize, Refusal>
    requires { (place < length line.now) × (is_blank (get_or line.now place 0) ≡ false) }
    ensures { PieceSays pieces line.now place result }
{
    let b = line[place];
    if text::in_class(Class::Operator, b) || b == b'#' {
        return Err(Refusal::BareOperator);
    }
    match pieces {
        Pieces::Words => read_word(line, place),
        Pieces::Assignments => read_assignment(line, place),
    }
}

// Reads the pieces of the whole line: it is refused for its first fault, at the place of that piece.
fn read_pieces(pieces: Pieces, line: &[u8]) -> Result<(), Refused>
    ensures { verdict_from pieces line.now 0 ≡ verdict_of result }
{
    let mut at: usize = 0;
    while let Some(place) = next_word(line, at) {
        match read_piece(pieces, line, place) {
            Ok(next) => at = next,
            Err(why) => return Err(Refused { why, place }),
        }
    }
    Ok(())
}

// Reads a line of words.
#[tactic(auto, unfolding(stages::specs::Read::read_line))]
pub fn read_line(line: &[u8]) -> Result<(), Refused>
    ensures { verdict (read_line line.now) ≡ verdict_of result }
{
    read_pieces(Pieces::Words, line)
}

// Reads a line of assignments.
#[tactic(auto, unfolding(stages::specs::Assign::read_assignments))]
pub fn read_assignments(line: &[u8]) -> Result<(), Refused>
    ensures { verdict (read_assignments line.now) ≡ verdict_of result }
{
    read_pieces(Pieces::Assignments, line)
}
