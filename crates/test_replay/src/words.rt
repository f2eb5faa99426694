// The words of a case: a line's words stand between single blanks, and each is a number in decimal digits or bytes in hexadecimal ones.
ghost use Rattle.std.specs.Prelude.{◌<◌, ◌≤◌, length};

use text::numbers;

// How many bytes a line, a table, the variables' buffer, the work area, the output and the message's buffer may each have here.
pub const ROOM: usize = 131072;

// The places of a case's words. Its job comes first.
pub const JOB: usize = 0;

// Those of the expander and the normaliser; `=` stands at 12.
pub const LINE: usize = 1;

pub const VARS: usize = 2;

pub const USED: usize = 3;

pub const VARS_BUFFER: usize = 4;

pub const HOMES: usize = 5;

pub const PATHS: usize = 6;

pub const WORK: usize = 7;

pub const OUT: usize = 8;

pub const PARAMS: usize = 9;

pub const MESSAGE: usize = 10;

pub const SHOUT: usize = 11;

pub const NUMBER: usize = 13;

pub const PLACE: usize = 14;

pub const OUT_LENGTH: usize = 15;

pub const OUT_BYTES: usize = 16;

pub const USED_LENGTH: usize = 17;

pub const VARS_BYTES: usize = 18;

pub const MESSAGE_LENGTH: usize = 19;

pub const MESSAGE_BYTES: usize = 20;

// Those of the assigner; `=` stands at 10. Its line, variables, their lengths and homes stand where the expander's do.
pub const ASSIGN_WORK: usize = 6;

pub const ASSIGN_PARAMS: usize = 7;

pub const ASSIGN_MESSAGE: usize = 8;

pub const ASSIGN_SHOUT: usize = 9;

pub const ASSIGN_NUMBER: usize = 11;

pub const ASSIGN_PLACE: usize = 12;

pub const ASSIGN_USED_LENGTH: usize = 13;

pub const ASSIGN_VARS_BYTES: usize = 14;

pub const ASSIGN_MESSAGE_LENGTH: usize = 15;

pub const ASSIGN_MESSAGE_BYTES: usize = 16;

// Those of the quoter; `=` stands at 3.
pub const FIELDS: usize = 1;

pub const QUOTE_OUT: usize = 2;

pub const QUOTE_NUMBER: usize = 4;

pub const QUOTE_PLACE: usize = 5;

pub const QUOTE_LENGTH: usize = 6;

pub const QUOTE_BYTES: usize = 7;

// Those of the insertion and the deletion of a path; `=` stands at 5.
pub const UPDATE_PATHS: usize = 1;

pub const UPDATE_USED: usize = 2;

pub const UPDATE_BUFFER: usize = 3;

pub const UPDATE_PATH: usize = 4;

pub const UPDATE_NUMBER: usize = 6;

pub const UPDATE_PLACE: usize = 7;

pub const UPDATE_USED_LENGTH: usize = 8;

pub const UPDATE_PATHS_BYTES: usize = 9;

// Those of the coster; `=` stands at 4.
pub const COST_PATTERN: usize = 1;

pub const COST_TEXT: usize = 2;

pub const COST_WORK: usize = 3;

pub const COST_NUMBER: usize = 5;

pub const COST_PLACE: usize = 6;

pub const COST_PAIRS: usize = 7;

const BLANK: u8 = b' ';

// The place behind the n-th blank, or the line's end.
fn word_start(line: &[u8], n: usize) -> usize
    ensures { result ≤ length line.now }
{
    let mut left = n;
    for (i, b) in line.iter().enumerate() {
        if left == 0 {
            return i;
        }
        if *b == BLANK {
            left -= 1;
        }
    }
    line.len()
}

// The n-th word, counted from 0; no bytes if the line has fewer.
pub(crate) fn word(line: &[u8], n: usize) -> &[u8] {
    let from = word_start(line, n);
    let rest = &line[from..];
    let end = rest.iter().position(|b| *b == BLANK).unwrap_or(rest.len());
    &rest[..end]
}

// The number of a digit of either base; any other byte gives some number below 16.
fn digit(b: u8) -> u8
    ensures { result < 16 }
{
    if b <= b'9' { b % 16 } else { (b % 16 + 9) % 16 }
}

// Are all of the word's bytes in the set?
fn all_in(word: &[u8], set: &[u8]) -> bool {
    word.iter().all(|b| set.contains(b))
}

// Does the word write bytes, as many as there is room for?
fn is_bytes(word: &[u8]) -> bool {
    let is_hex = !word.is_empty()
        && word.len() % 2 == 0
        && byte_count(word) <= ROOM
        && all_in(word, b"0123456789abcdef");
    is_hex || matches!(word, b"-")
}

// Does the word write a number?
fn is_number(word: &[u8]) -> bool {
    !word.is_empty() && word.len() <= numbers::MOST_DIGITS && all_in(word, b"0123456789")
}

// How many bytes a word of hexadecimal digits writes; none for `-`.
pub(crate) fn byte_count(word: &[u8]) -> usize {
    word.len() / 2
}

// The i-th byte that a word writes, or another one behind its end.
pub(crate) fn byte_at(word: &[u8], i: usize, other: u8) -> u8 {
    if i < word.len() / 2 {
        let at = i * 2;
        digit(word[at]) * 16 + digit(word[at + 1])
    } else {
        other
    }
}

// The number that a word of decimal digits writes; the largest one for what is beyond it.
pub(crate) fn number(word: &[u8]) -> usize {
    let mut n: usize = 0;
    for b in word {
        n = n.saturating_mul(10).saturating_add(digit(*b) as usize);
    }
    n
}

// Is the word of a kind: `j` a job, whose name is looked at elsewhere, `h` bytes, `d` a number, `s` a size that there is room for, `b` 0 or 1, `=` itself?
fn is_of(word: &[u8], kind: u8) -> bool {
    match kind {
        b'j' => true,
        b'h' => is_bytes(word),
        b'd' => is_number(word),
        b's' => is_number(word) && number(word) <= ROOM,
        b'b' => matches!(word, b"0" | b"1"),
        _ => matches!(word, b"="),
    }
}

// Has the line a word of each kind and no more?
pub(crate) fn has_shape(line: &[u8], kinds: &[u8]) -> bool {
    kinds
        .iter()
        .enumerate()
        .all(|(i, kind)| is_of(word(line, i), *kind))
        && word_start(line, kinds.len()) == line.len()
}

// Has the word of bytes as many as the word of a number says?
pub(crate) fn agrees(line: &[u8], length: usize, bytes: usize) -> bool {
    number(word(line, length)) == byte_count(word(line, bytes))
}

// Do the bytes have room in the size?
pub(crate) fn fits(line: &[u8], bytes: usize, size: usize) -> bool {
    byte_count(word(line, bytes)) <= number(word(line, size))
}
