// What an escape of $'...' says: one question for each function, at most four bytes behind the backslash, and none of them recursive. Octal and hexadecimal
// digits are read as arithmetic's constants are.
#![tactic(auto)]

ghost use Rattle.std.specs.Prelude.{◌≡◌, ◌+◌, ◌-◌, ◌≤◌, ◌<◌, suc, length, drop};
ghost use Rattle.stages.specs.Escapes.{digit_run, says_digits, behind_x, escape_at};
ghost use Rattle.read_escape.specs.Says.{SaidAt, LetterAt, DigitsOf, AtMost};

use text::Class;
use text::refusal::Refusal;

// What an escape says: a byte; and the place behind the escape.
#[derive(Clone, Copy)]
pub struct Escaped {
    pub byte: u8,
    pub next: usize,
}

// The greatest byte.
const BYTE_LIMIT: u64 = 255;

// The byte that a sign says behind a backslash, if it says one.
#[tactic(auto, unfolding(stages::specs::Escapes::letter_of, stages::specs::Escapes::letters))]
fn letter_of(b: u8) -> Option<u8>
    ensures { LetterAt b result }
{
    match b {
        b'"' | b'\'' | b'\\' => Some(b),
        b'a' => Some(7),
        b'b' => Some(8),
        b'e' => Some(27),
        b'f' => Some(12),
        b'n' => Some(b'\n'),
        b'r' => Some(b'\r'),
        b't' => Some(b'\t'),
        b'v' => Some(11),
        _ => None,
    }
}

// The end of the part of a text that begins at `from` and has so many bytes at most.
fn part_end(text: &[u8], from: usize, most: usize) -> usize
    requires { (from ≤ length text.now) × (most ≤ 3) }
    ensures { AtMost text.now from most result }
{
    text.len().min(from + most)
}

// What the longest run of digits of a base says that begins at `from`, of so many digits at most; the backslash is at `at`.
fn digits_at(
    text: &[u8],
    at: usize,
    from: usize,
    class: Class,
    base: u64,
    most: usize,
) -> Result<Escaped, Refusal>
    requires { (at < from) × (from ≤ length text.now) × (1 < base) × (base ≤ 16) × (most ≤ 3) × DigitsOf class base }
    ensures { SaidAt text.now at result (says_digits base (from - suc at) (digit_run base most (drop from text.now))) }
{
    let end = part_end(text, from, most);
    let to = from + text::run_end(&text[from..end], 0, class);
    let Ok(n) = arith_constant::in_base(&text[from..to], base, BYTE_LIMIT) else {
        return Err(Refusal::BadSyntax);
    };
    if n == 0 {
        return Err(Refusal::BadSyntax);
    }
    Ok(Escaped {
        byte: n as u8,
        next: to,
    })
}

// What `\x` says, whose backslash is at `at`.
fn behind_x(text: &[u8], at: usize) -> Result<Escaped, Refusal>
    requires { at + 1 < length text.now }
    ensures { SaidAt text.now at result (behind_x (drop (at + 2) text.now)) }
{
    let first = at + 2;
    if first >= text.len() {
        return Err(Refusal::Unended);
    }
    if !text::in_class(Class::HexDigit, text[first]) {
        return Err(Refusal::BadSyntax);
    }
    digits_at(text, at, first, Class::HexDigit, 16, 2)
}

// What the escape says whose backslash is at `at`.
pub fn escape_at(text: &[u8], at: usize) -> Result<Escaped, Refusal>
    requires { at < length text.now }
    ensures { SaidAt text.now at result (escape_at (drop (at + 1) text.now)) }
{
    let from = at + 1;
    if from >= text.len() {
        return Err(Refusal::Unended);
    }
    let b = text[from];
    if b == b'x' {
        return behind_x(text, at);
    }
    if text::in_class(Class::OctalDigit, b) {
        return digits_at(text, at, from, Class::OctalDigit, 8, 3);
    }
    let Some(byte) = letter_of(b) else {
        return Err(Refusal::BadSyntax);
    };
    Ok(Escaped {
        byte,
        next: from + 1,
    })
}
