// The short way: a text of decimal constants with `* / % + -` between them is worked out by itself, since it asks for no variable and stores none. Whatever
// else stands there, and whatever is refused, is left to the climber.
ghost use Rattle.std.specs.Prelude.{◌≤◌, length};
ghost use Rattle.stages.proofs.Storeys.{lowest};
ghost use Rattle.arith_eval.specs.Plains.{Signs, IsConstant, PlainFrom, PlainText};

use super::climb::LOWEST;
use arith_int::Op;
use arith_token::level;
use text::Class;

// A value and the place behind it.
#[derive(Clone, Copy)]
pub struct Plain {
    pub value: i64,
    pub next: usize,
}

// What stands behind a value: nothing, or one of the five operators and the place behind it.
#[derive(Clone, Copy)]
pub enum Sign {
    Stop,
    Op(Op, usize),
}

// A number up to this one is in range with any digit more behind it.
const ENOUGH: u64 = 100_000_000_000_000_000;

// One of the five operators at a place or behind the blanks there, with no `=` behind it, or the end; else nothing that is known. An operator that
// ends the text is left to the climber.
fn sign_at(text: &[u8], at: usize) -> Option<Sign>
    requires { at ≤ length text.now }
    ensures { Signs text.now at result }
{
    let i = text::run_end(text, at, Class::Blank);
    if i == text.len() {
        return Some(Sign::Stop);
    }
    let next = i + 1;
    if next == text.len() || text[next] == b'=' {
        return None;
    }
    match text[i] {
        b'*' => Some(Sign::Op(Op::Mul, next)),
        b'/' => Some(Sign::Op(Op::Div, next)),
        b'%' => Some(Sign::Op(Op::Rem, next)),
        b'+' => Some(Sign::Op(Op::Add, next)),
        b'-' => Some(Sign::Op(Op::Sub, next)),
        _ => None,
    }
}

// A decimal constant at a place or behind the blanks there, of so few digits that it is in range; else nothing that is known.
fn constant_at(text: &[u8], at: usize) -> Option<Plain>
    requires { at ≤ length text.now }
    ensures { IsConstant text.now at result }
{
    let from = text::run_end(text, at, Class::Blank);
    if from == text.len() {
        return None;
    }
    let first = text[from];
    if first < b'1' || b'9' < first {
        return None;
    }
    let mut n = (first - b'0') as u64;
    for i in from + 1..text.len() {
        let b = text[i];
        if !text::in_class(Class::Digit, b) {
            if text::in_class(Class::NameByte, b) {
                return None;
            }
            return Some(Plain {
                value: n as i64,
                next: i,
            });
        }
        if ENOUGH < n {
            return None;
        }
        n = n * 10 + (b - b'0') as u64;
    }
    Some(Plain {
        value: n as i64,
        next: text.len(),
    })
}

// All operators of at least a level behind a left side, each with a constant on its right and what binds tighter behind that.
fn plain_from(text: &[u8], at: usize, least: usize, left: i64) -> Option<Plain>
    requires { (at ≤ length text.now) × (lowest ≤ least) }
    ensures { PlainFrom text.now at least left result }
{
    let mut value = left;
    let mut i = at;
    loop {
        let sign = sign_at(text, i)?;
        match sign {
            Sign::Stop => {
                return Some(Plain { value, next: i });
            }
            Sign::Op(op, next) => {
                let binds = level(op);
                if binds < least {
                    return Some(Plain { value, next: i });
                }
                let first = constant_at(text, next)?;
                let right = plain_from(text, first.next, binds + 1, first.value)?;
                value = arith_int::operate(op, value, right.value).ok()?;
                i = right.next;
            }
        }
    }
}

// A whole text, behind which nothing stands.
pub fn plain_text(text: &[u8]) -> Option<i64>
    ensures { PlainText text.now result }
{
    let first = constant_at(text, 0)?;
    let all = plain_from(text, first.next, LOWEST, first.value)?;
    if text::run_end(text, all.next, Class::Blank) != text.len() {
        return None;
    }
    Some(all.value)
}
