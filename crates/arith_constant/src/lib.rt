// What a text stands for: constants in three bases, read by one function over base and limit, and the values of names. The escapes of $'...' have their
// digits from it too.
#![tactic(auto)]

ghost use Rattle.std.specs.Prelude.{◌≡◌, ◌<◌, ◌≤◌};
ghost use Rattle.stages.specs.Constants.{digit as digit_of, in_base, behind_zero, constant, number, valued};
ghost use Rattle.arith_int.specs.Answers.{numbered, of_sign};
ghost use Rattle.arith_constant.specs.Answers.{counted, within};

use arith_int::BELOW;
use text::refusal::Refusal;

// The value of a digit, and 99 of any other byte: no Option, since the stages say 99 too, which no base has, so that one test serves for both.
#[tactic(auto, using(crate::proofs::Digits::digits))]
fn digit(b: u8) -> u64
    ensures { result ≡ digit_of b }
{
    match b {
        b'0'..=b'9' => (b - b'0') as u64,
        b'a'..=b'f' => (b - b'a') as u64 + 10,
        b'A'..=b'F' => (b - b'A') as u64 + 10,
        _ => 99,
    }
}

// What the digits of a text stand for at a base: 15 if one is none of the base, before 17 if they pass the limit.
pub fn in_base(text: &[u8], base: u64, limit: u64) -> Result<u64, Refusal>
    requires { (1 < base) × (base ≤ 16) × (16 ≤ limit) }
    ensures { counted result ≡ within limit (in_base base 0 text.now) }
{
    let mut n = Some(0);
    for b in text {
        let d = digit(*b);
        if base <= d {
            return Err(Refusal::NotNumber);
        }
        n = match n {
            Some(k) if k <= (limit - d) / base => Some(k * base + d),
            _ => None,
        };
    }
    n.ok_or(Refusal::Overflow)
}

// Behind a first `0`: octal, or `x` or `X` and a digit or more.
fn behind_zero(text: &[u8], limit: u64) -> Result<u64, Refusal>
    requires { 16 ≤ limit }
    ensures { counted result ≡ within limit (behind_zero text.now) }
{
    if text.len() == 0 {
        return Ok(0);
    }
    if text[0] == b'x' || text[0] == b'X' {
        if text.len() == 1 {
            return Err(Refusal::NotNumber);
        }
        return in_base(&text[1..], 16, limit);
    }
    in_base(text, 8, limit)
}

// A constant: 15 for its form, before 17 above the limit.
fn constant_of(text: &[u8], limit: u64) -> Result<u64, Refusal>
    requires { 16 ≤ limit }
    ensures { counted result ≡ within limit (constant text.now) }
{
    if text.len() == 0 {
        return Err(Refusal::NotNumber);
    }
    if text[0] == b'0' {
        return behind_zero(&text[1..], limit);
    }
    if text[0] < b'1' || b'9' < text[0] {
        return Err(Refusal::NotNumber);
    }
    in_base(text, 10, limit)
}

// The number of a constant behind its sign: 2^63 passes as a constant, and stands only below zero.
pub fn number_of(text: &[u8], below: bool) -> Result<i64, Refusal>
    ensures { numbered result ≡ number (of_sign below) (constant text.now) }
{
    let n = constant_of(text, BELOW)?;
    arith_int::of_magnitude(below, n)
}

// The number that a variable's value stands for: empty is 0, else a constant with at most one sign in front.
pub fn value_of(text: &[u8]) -> Result<i64, Refusal>
    ensures { numbered result ≡ valued text.now }
{
    if text.len() == 0 {
        return Ok(0);
    }
    if text[0] == b'-' {
        return number_of(&text[1..], true);
    }
    if text[0] == b'+' {
        return number_of(&text[1..], false);
    }
    number_of(text, false)
}
