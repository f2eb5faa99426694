// What stands at a place of an arithmetic text. Blanks separate; a constant is judged where it is the next token.
#![tactic(auto)]

ghost use Rattle.std.specs.Prelude.{◌≡◌, ◌≤◌, length};
ghost use Rattle.arith_token.specs.Tokens.{level_of, Lexes, Digit, Symbol, Pairable, Pairs};

use arith_int::Op;
use text::Class;
use text::refusal::Refusal;

// A token, and the place behind it; of a name, where it begins and ends. An assignment stores its right side as it is, or what an operator makes of it
// behind what the name stands for.
#[derive(Clone, Copy)]
pub enum Token {
    Stop,
    Number { value: i64, next: usize },
    Name { from: usize, to: usize },
    Op(Op, usize),
    Opens(usize),
    Shuts(usize),
    Query(usize),
    Colon(usize),
    Gets(Option<Op>, usize),
}

// How tightly an operator binds between two operands, 0 if it does not stand there: "C's precedence".
pub fn level(op: Op) -> usize
    ensures { result ≡ level_of op }
{
    match op {
        Op::Mul | Op::Div | Op::Rem => 12,
        Op::Add | Op::Sub => 11,
        Op::Shl | Op::Shr => 10,
        Op::Lt | Op::Le | Op::Gt | Op::Ge => 9,
        Op::Eq | Op::Ne => 8,
        Op::BitAnd => 7,
        Op::BitXor => 6,
        Op::BitOr => 5,
        Op::LogAnd => 4,
        Op::LogOr => 3,
        Op::LogNot | Op::BitNot => 0,
    }
}

// A constant, from its first digit to the end of the run.
fn constant_at(text: &[u8], at: usize) -> Result<Token, Refusal>
    requires { Digit text.now at }
    ensures { Lexes text.now at result }
{
    let to = text::run_end(text, at, Class::NameByte);
    let value = arith_constant::number_of(&text[at..to], false)?;
    Ok(Token::Number { value, next: to })
}

// The token of two bytes, if this one is behind its first, which is at `at`; else the token that it is without.
fn paired(text: &[u8], at: usize, second: u8, alone: Token, both: Token) -> Token
    requires { Pairable text.now at alone both }
    ensures { Pairs text.now at second alone both result }
{
    let next = at + 1;
    if next < text.len() && text[next] == second {
        both
    } else {
        alone
    }
}

// A token that is neither a constant nor a name: the longest that is written there.
fn symbol_at(text: &[u8], at: usize) -> Result<Token, Refusal>
    requires { Symbol text.now at }
    ensures { Lexes text.now at result }
{
    let next = at + 1;
    let last = at + 2;
    match text[at] {
        b'(' => Ok(Token::Opens(next)),
        b')' => Ok(Token::Shuts(next)),
        b'?' => Ok(Token::Query(next)),
        b':' => Ok(Token::Colon(next)),
        b'^' => Ok(Token::Op(Op::BitXor, next)),
        b'~' => Ok(Token::Op(Op::BitNot, next)),
        b'*' => Ok(paired(
            text,
            at,
            b'=',
            Token::Op(Op::Mul, next),
            Token::Gets(Some(Op::Mul), last),
        )),
        b'/' => Ok(paired(
            text,
            at,
            b'=',
            Token::Op(Op::Div, next),
            Token::Gets(Some(Op::Div), last),
        )),
        b'%' => Ok(paired(
            text,
            at,
            b'=',
            Token::Op(Op::Rem, next),
            Token::Gets(Some(Op::Rem), last),
        )),
        b'+' => Ok(paired(
            text,
            at,
            b'=',
            Token::Op(Op::Add, next),
            Token::Gets(Some(Op::Add), last),
        )),
        b'-' => Ok(paired(
            text,
            at,
            b'=',
            Token::Op(Op::Sub, next),
            Token::Gets(Some(Op::Sub), last),
        )),
        b'<' => {
            let less = paired(
                text,
                at,
                b'=',
                Token::Op(Op::Lt, next),
                Token::Op(Op::Le, last),
            );
            Ok(paired(text, at, b'<', less, Token::Op(Op::Shl, last)))
        }
        b'>' => {
            let more = paired(
                text,
                at,
                b'=',
                Token::Op(Op::Gt, next),
                Token::Op(Op::Ge, last),
            );
            Ok(paired(text, at, b'>', more, Token::Op(Op::Shr, last)))
        }
        b'=' => Ok(paired(
            text,
            at,
            b'=',
            Token::Gets(None, next),
            Token::Op(Op::Eq, last),
        )),
        b'!' => Ok(paired(
            text,
            at,
            b'=',
            Token::Op(Op::LogNot, next),
            Token::Op(Op::Ne, last),
        )),
        b'&' => Ok(paired(
            text,
            at,
            b'&',
            Token::Op(Op::BitAnd, next),
            Token::Op(Op::LogAnd, last),
        )),
        b'|' => Ok(paired(
            text,
            at,
            b'|',
            Token::Op(Op::BitOr, next),
            Token::Op(Op::LogOr, last),
        )),
        _ => Err(Refusal::ArithmeticSyntax),
    }
}

// The token at a place, or behind the blanks there.
pub fn token_at(text: &[u8], at: usize) -> Result<Token, Refusal>
    requires { at ≤ length text.now }
    ensures { Lexes text.now at result }
{
    let i = text::run_end(text, at, Class::Blank);
    if i == text.len() {
        return Ok(Token::Stop);
    }
    if text::in_class(Class::Digit, text[i]) {
        return constant_at(text, i);
    }
    if text::in_class(Class::NameStart, text[i]) {
        let to = text::run_end(text, i, Class::NameByte);
        return Ok(Token::Name { from: i, to });
    }
    symbol_at(text, i)
}
