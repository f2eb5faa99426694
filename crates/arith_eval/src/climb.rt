// One climber reads an expression and works it out, as far as it counts. Where it does not count only reading faults are met, the value says nothing, and
// nothing is stored; where it counts the answer is what the tree that the stage reads comes to. Each call stands further on in the text than its caller.
// `?:` and assignments nest as deep as the text is long, so they are read by loops: a count of the colons that are still to come, and, where it counts, the
// places of the names that wait for their values, are all that they keep.
ghost use Rattle.std.specs.Prelude.{true, false, drop};
ghost use Rattle.stages.specs.Arith.{grow, operand as operandTask, enclosed as enclosedIn, expression as expressionOf, whole_level};
ghost use Rattle.arith_eval.specs.Climbs.{lent_in, Ready, Climbable, Says, sign_of, Continues, Turns};
ghost use Rattle.arith_eval.specs.Wholes.{Skippable, Skips, Steps};

use super::answers::{Climbed, Scope, Step};
use super::marks::{Mark, beyond, closed, mark_at, target_at};
use super::values::{joined, named, needed, stored_all, turned};
use arith_int::{Op, is_sign};
use arith_token::{Token, level, token_at};
use text::refusal::Refusal;

// "More than 32 open parentheses and unary signs, together, is 12."
const TOO_DEEP: Refusal = Refusal::TooDeep;

// The lowest level of an operator between two operands.
pub const LOWEST: usize = 3;

// An operand: a constant, a name, one in parentheses or behind a sign.
#[cycle(enclosed_expression_further_operand_operator_signed_skip_stepped_whole_worked)]
fn operand(
    text: &[u8],
    at: usize,
    scope: Scope,
    vars: &mut [u8],
    places: &mut [u16],
) -> Result<Climbed, Refusal>
    requires { Ready (lent_in scope) text.now at vars.old scope.vars_used places.old }
    ensures { Says (lent_in scope) text.now at vars.old scope.vars_used scope.counts
        (grow (operandTask false, scope.room, drop at text.now)) vars.new result }
{
    let token = token_at(text, at)?;
    match token {
        Token::Number { value, next } => Ok(Climbed {
            value,
            next,
            vars_used: scope.vars_used,
        }),
        Token::Name { from, to } => {
            let used = scope.vars_used;
            let value = named(&text[from..to], scope.counts, &vars[..used], scope.shouts)?;
            Ok(Climbed {
                value,
                next: to,
                vars_used: used,
            })
        }
        Token::Op(op, next) => signed(text, next, op, scope, vars, places),
        Token::Opens(next) => enclosed(text, next, scope, vars, places),
        _ => Err(Refusal::ArithmeticSyntax),
    }
}

// Behind an operator where an operand must stand: only a sign may be there, and it counts toward the 32.
#[cycle(enclosed_expression_further_operand_operator_signed_skip_stepped_whole_worked)]
fn signed(
    text: &[u8],
    at: usize,
    op: Op,
    scope: Scope,
    vars: &mut [u8],
    places: &mut [u16],
) -> Result<Climbed, Refusal>
    requires { Ready (lent_in scope) text.now at vars.old scope.vars_used places.old }
    ensures { Says (lent_in scope) text.now at vars.old scope.vars_used scope.counts
        (sign_of op scope.room (drop at text.now)) vars.new result }
{
    let may = is_sign(op);
    if !may {
        return Err(Refusal::ArithmeticSyntax);
    }
    if scope.room == 0 {
        return Err(TOO_DEEP);
    }
    let inner = Scope {
        room: scope.room - 1,
        ..scope
    };
    let got = operand(text, at, inner, vars, places)?;
    let value = turned(op, got.value, scope.counts)?;
    Ok(Climbed { value, ..got })
}

// Behind a `(`: an expression, and its `)`.
#[cycle(enclosed_expression_further_operand_operator_signed_skip_stepped_whole_worked)]
fn enclosed(
    text: &[u8],
    at: usize,
    scope: Scope,
    vars: &mut [u8],
    places: &mut [u16],
) -> Result<Climbed, Refusal>
    requires { Ready (lent_in scope) text.now at vars.old scope.vars_used places.old }
    ensures { Says (lent_in scope) text.now at vars.old scope.vars_used scope.counts
        (enclosedIn grow scope.room (drop at text.now)) vars.new result }
{
    if scope.room == 0 {
        return Err(TOO_DEEP);
    }
    let inner = Scope {
        room: scope.room - 1,
        ..scope
    };
    let got = whole(text, at, inner, vars, places)?;
    let next = closed(text, got.next)?;
    Ok(Climbed { next, ..got })
}

// A whole expression.
#[cycle(enclosed_expression_further_operand_operator_signed_skip_stepped_whole_worked)]
pub fn whole(
    text: &[u8],
    at: usize,
    scope: Scope,
    vars: &mut [u8],
    places: &mut [u16],
) -> Result<Climbed, Refusal>
    requires { Ready (lent_in scope) text.now at vars.old scope.vars_used places.old }
    ensures { Says (lent_in scope) text.now at vars.old scope.vars_used scope.counts
        (expressionOf grow scope.room whole_level (drop at text.now)) vars.new result }
{
    if scope.counts {
        return worked(text, at, scope, vars, places);
    }
    let next = skip(text, at, true, 0, scope, vars, places)?;
    Ok(Climbed {
        value: 0,
        next,
        vars_used: scope.vars_used,
    })
}

// An expression that does not count, a whole one or what may stand behind a colon, and behind it so many times a colon and a conditional.
#[cycle(enclosed_expression_further_operand_operator_signed_skip_stepped_whole_worked)]
fn skip(
    text: &[u8],
    at: usize,
    begins: bool,
    colons: usize,
    scope: Scope,
    vars: &mut [u8],
    places: &mut [u16],
) -> Result<usize, Refusal>
    requires { Skippable (lent_in scope) text.now at colons vars.old scope.vars_used places.old }
    ensures { Skips text.now at scope.room colons begins vars.old vars.new result }
{
    let idle = Scope {
        counts: false,
        ..scope
    };
    let mut i = at;
    let mut first = begins;
    let mut awaited = colons;
    loop {
        if let Some(target) = target_at(text, i, first) {
            i = target.next;
        } else {
            let got = expression(text, i, LOWEST, idle, vars, places)?;
            let mark = mark_at(text, got.next)?;
            match mark {
                Mark::Query(n) => {
                    awaited += 1;
                    first = true;
                    i = n;
                }
                Mark::Colon(n) => {
                    if awaited == 0 {
                        return Ok(got.next);
                    }
                    awaited -= 1;
                    first = false;
                    i = n;
                }
                Mark::Other => {
                    if awaited == 0 {
                        return Ok(got.next);
                    }
                    return Err(Refusal::ArithmeticSyntax);
                }
            }
        }
    }
}

// A whole expression that counts: in each `?:` only the side is worked out that its condition asks for, and the names of assignments wait until all else is
// worked out. Each takes two bytes of the text at the least.
#[cycle(enclosed_expression_further_operand_operator_signed_skip_stepped_whole_worked)]
fn worked(
    text: &[u8],
    at: usize,
    scope: Scope,
    vars: &mut [u8],
    places: &mut [u16],
) -> Result<Climbed, Refusal>
    requires { Ready (lent_in scope) text.now at vars.old scope.vars_used places.old }
    ensures { Says (lent_in scope) text.now at vars.old scope.vars_used true
        (expressionOf grow scope.room whole_level (drop at text.now)) vars.new result }
{
    let mut i = at;
    let mut first = true;
    let mut awaited = 0;
    let mut waiting = 0;
    let mut used = scope.vars_used;
    loop {
        if let Some(target) = target_at(text, i, first) {
            places[waiting] = i as u16;
            waiting += 1;
            i = target.next;
        } else {
            let inner = Scope {
                counts: true,
                vars_used: used,
                ..scope
            };
            let got = expression(text, i, LOWEST, inner, vars, &mut places[waiting..])?;
            used = got.vars_used;
            let after = Scope {
                vars_used: used,
                ..scope
            };
            let step = stepped(
                text,
                got.next,
                got.value,
                awaited,
                after,
                vars,
                &mut places[waiting..],
            )?;
            match step {
                Step::Last(next) => {
                    let all = stored_all(text, got.value, waiting, after, vars, places)?;
                    return Ok(Climbed {
                        value: all.value,
                        next,
                        vars_used: all.vars_used,
                    });
                }
                Step::Middle(n) => {
                    awaited += 1;
                    first = true;
                    i = n;
                }
                Step::Behind(n) => {
                    first = false;
                    i = n;
                }
            }
        }
    }
}

// Behind a value that counts, so many colons being still to come: a `?` whose one side is needed, or the end, the sides behind those colons being skipped.
#[cycle(enclosed_expression_further_operand_operator_signed_skip_stepped_whole_worked)]
fn stepped(
    text: &[u8],
    at: usize,
    value: i64,
    colons: usize,
    scope: Scope,
    vars: &mut [u8],
    places: &mut [u16],
) -> Result<Step, Refusal>
    requires { Skippable (lent_in scope) text.now at colons vars.old scope.vars_used places.old }
    ensures { Steps text.now at scope.room value colons vars.old vars.new result }
{
    let mark = mark_at(text, at)?;
    match mark {
        Mark::Query(n) => {
            if value != 0 {
                return Ok(Step::Middle(n));
            }
            let side = skip(text, n, true, 0, scope, vars, places)?;
            let behind = beyond(text, side)?;
            Ok(Step::Behind(behind))
        }
        Mark::Colon(n) => {
            if colons == 0 {
                return Ok(Step::Last(at));
            }
            let last = skip(text, n, false, colons - 1, scope, vars, places)?;
            Ok(Step::Last(last))
        }
        Mark::Other => {
            if colons == 0 {
                return Ok(Step::Last(at));
            }
            Err(Refusal::ArithmeticSyntax)
        }
    }
}

// An expression whose operators have at least a level, from the lowest of the table on.
#[cycle(enclosed_expression_further_operand_operator_signed_skip_stepped_whole_worked)]
fn expression(
    text: &[u8],
    at: usize,
    least: usize,
    scope: Scope,
    vars: &mut [u8],
    places: &mut [u16],
) -> Result<Climbed, Refusal>
    requires { Climbable (lent_in scope) text.now at least vars.old scope.vars_used places.old }
    ensures { Says (lent_in scope) text.now at vars.old scope.vars_used scope.counts
        (expressionOf grow scope.room least (drop at text.now)) vars.new result }
{
    let got = operand(text, at, scope, vars, places)?;
    let after = Scope {
        vars_used: got.vars_used,
        ..scope
    };
    further(text, got.next, least, got.value, after, vars, places)
}

// All operators of at least a level behind a left side: "all binary ones from the left".
#[cycle(enclosed_expression_further_operand_operator_signed_skip_stepped_whole_worked)]
fn further(
    text: &[u8],
    at: usize,
    least: usize,
    left: i64,
    scope: Scope,
    vars: &mut [u8],
    places: &mut [u16],
) -> Result<Climbed, Refusal>
    requires { Climbable (lent_in scope) text.now at least vars.old scope.vars_used places.old }
    ensures { Continues (lent_in scope) text.now at vars.old scope.vars_used scope.counts scope.room least left
        vars.new result }
{
    let mut so_far = Climbed {
        value: left,
        next: at,
        vars_used: scope.vars_used,
    };
    loop {
        let inner = Scope {
            vars_used: so_far.vars_used,
            ..scope
        };
        let Some(more) = operator(text, so_far.next, least, so_far.value, inner, vars, places)?
        else {
            return Ok(so_far);
        };
        so_far = more;
    }
}

// One operator behind a left side, and its right side; nothing where none follows that binds tightly enough.
#[cycle(enclosed_expression_further_operand_operator_signed_skip_stepped_whole_worked)]
fn operator(
    text: &[u8],
    at: usize,
    least: usize,
    left: i64,
    scope: Scope,
    vars: &mut [u8],
    places: &mut [u16],
) -> Result<Option<Climbed>, Refusal>
    requires { Climbable (lent_in scope) text.now at least vars.old scope.vars_used places.old }
    ensures { Turns (lent_in scope) text.now at vars.old scope.vars_used scope.counts scope.room least left
        vars.new result }
{
    let token = token_at(text, at)?;
    let Token::Op(op, next) = token else {
        return Ok(None);
    };
    let binds = level(op);
    if binds < least {
        return Ok(None);
    }
    let inner = Scope {
        counts: needed(op, left, scope.counts),
        ..scope
    };
    let right = expression(text, next, binds + 1, inner, vars, places)?;
    let value = joined(op, left, right.value, scope.counts)?;
    Ok(Some(Climbed { value, ..right }))
}
