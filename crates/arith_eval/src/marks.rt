// What stands at a place, as far as the climber asks: a `?`, a `:`, a `)`, the left side of an assignment.
ghost use Rattle.std.specs.Prelude.{length, ◌≤◌};
ghost use Rattle.arith_eval.specs.Wholes.{Closes, Marks, Beyond, Sets, Targets};

use arith_int::Op;
use arith_token::{Token, token_at};
use text::Class;
use text::refusal::Refusal;

// What `?:` asks of a token.
#[derive(Clone, Copy)]
pub enum Mark {
    Query(usize),
    Colon(usize),
    Other,
}

// A name and the `=` behind it, where the right side begins at `next`.
#[derive(Clone, Copy)]
pub struct Target {
    pub from: usize,
    pub to: usize,
    pub setting: Option<Op>,
    pub next: usize,
}

// The place behind the `)` behind a value.
pub fn closed(text: &[u8], at: usize) -> Result<usize, Refusal>
    requires { at ≤ length text.now }
    ensures { Closes text.now at result }
{
    let token = token_at(text, at)?;
    match token {
        Token::Shuts(next) => Ok(next),
        _ => Err(Refusal::ArithmeticSyntax),
    }
}

// What stands behind a value, as far as `?:` is concerned.
pub fn mark_at(text: &[u8], at: usize) -> Result<Mark, Refusal>
    requires { at ≤ length text.now }
    ensures { Marks text.now at result }
{
    let token = token_at(text, at)?;
    match token {
        Token::Query(next) => Ok(Mark::Query(next)),
        Token::Colon(next) => Ok(Mark::Colon(next)),
        _ => Ok(Mark::Other),
    }
}

// The place behind the `:` behind the side of a `?` that is not needed. No twin of `closed`: what refuses a side and what refuses a parenthesis are two
// rules of the grammar, and one function for both would state each of them for a token that it is handed.
pub fn beyond(text: &[u8], at: usize) -> Result<usize, Refusal>
    requires { at ≤ length text.now }
    ensures { Beyond text.now at result }
{
    let mark = mark_at(text, at)?;
    match mark {
        Mark::Colon(next) => Ok(next),
        _ => Err(Refusal::ArithmeticSyntax),
    }
}

// The `=` behind a name, with an operator before it or without.
fn setting_at(text: &[u8], from: usize, to: usize) -> Option<Target>
    requires { to ≤ length text.now }
    ensures { Sets text.now from to result }
{
    match token_at(text, to) {
        Ok(Token::Gets(setting, next)) => Some(Target {
            from,
            to,
            setting,
            next,
        }),
        _ => None,
    }
}

// The left side of an assignment, which stands only where a whole expression begins: "with a bare name on the left, else 16". A token that is refused
// is met again where the name's value is wanted.
pub fn target_at(text: &[u8], at: usize, first: bool) -> Option<Target>
    requires { at ≤ length text.now }
    ensures { Targets text.now at first result }
{
    if !first {
        return None;
    }
    let from = text::run_end(text, at, Class::Blank);
    if from == text.len() {
        return None;
    }
    if !text::in_class(Class::NameStart, text[from]) {
        return None;
    }
    let to = text::run_end(text, from, Class::NameByte);
    setting_at(text, from, to)
}
