// What is made of values where a part of the text counts; where it does not, nothing is looked up, worked out or stored.
ghost use Rattle.std.specs.Prelude.{◌≡◌, true, ◌≤◌, length, take};
ghost use Rattle.stages.specs.Images.{is_name, held, lookup};
ghost use Rattle.stages.specs.Arith.{name_number};
ghost use Rattle.table.specs.Places.{Table};
ghost use Rattle.table_store.specs.Holding.{Holds};
ghost use Rattle.arith_int.specs.Answers.{numbered};
ghost use Rattle.arith_token.specs.Tokens.{setting_of};
ghost use Rattle.arith_decimal.specs.Digits.{most_digits};
ghost use Rattle.arith_eval.specs.Climbs.{alone, lent_in, Names, Turned, Joins, is_needed};
ghost use Rattle.arith_eval.specs.Wholes.{updated_in, Puts, Assigns, Storable, Stores};

use super::Worked;
use super::answers::Scope;
use super::marks::target_at;
use arith_int::Op;
use text::numbers;
use text::refusal::Refusal;

// What a name stands for: 0 if empty, else the constant that its value is. An unset one is 0, or refused if the switch is on.
fn name_number(name: &[u8], vars: &[u8], shouts: bool) -> Result<i64, Refusal>
    requires { Table vars.now }
    ensures { numbered result ≡ name_number shouts (lookup name.now (held vars.now)) }
{
    let found = table_find::look_up(vars, name);
    match found {
        Some(part) => arith_constant::value_of(&vars[part.from..part.to]),
        None => {
            if shouts {
                return Err(Refusal::UnsetName);
            }
            Ok(0)
        }
    }
}

// A name: where it counts, what it stands for.
pub fn named(name: &[u8], counts: bool, vars: &[u8], shouts: bool) -> Result<i64, Refusal>
    requires { Table vars.now }
    ensures { Names name.now (held vars.now) shouts counts result }
{
    if !counts {
        return Ok(0);
    }
    name_number(name, vars, shouts)
}

// What a sign makes of a value.
pub fn turned(op: Op, value: i64, counts: bool) -> Result<i64, Refusal>
    ensures { Turned op value counts result }
{
    if !counts {
        return Ok(value);
    }
    arith_int::operate_alone(op, value)
}

// Whether the right side of an operator is to be worked out: "The side of `&&`, `||` .. that is not needed is read for syntax but not evaluated".
pub fn needed(op: Op, left: i64, counts: bool) -> bool
    ensures { result ≡ is_needed op left counts }
{
    counts && arith_int::decided(op, left).is_none()
}

// What an operator makes of two values, of the left one alone where that decides.
pub fn joined(op: Op, left: i64, right: i64, counts: bool) -> Result<i64, Refusal>
    ensures { Joins op left right counts result }
{
    if !counts {
        return Ok(left);
    }
    let early = arith_int::decided(op, left);
    match early {
        Some(z) => Ok(z),
        None => arith_int::operate(op, left, right),
    }
}

// What is to be stored: "then the name is read if the operator needs it".
fn updated(
    name: &[u8],
    setting: Option<Op>,
    value: i64,
    vars: &[u8],
    shouts: bool,
) -> Result<i64, Refusal>
    requires { Table vars.now }
    ensures { numbered result ≡ updated_in shouts (held vars.now) (setting_of setting) name.now value }
{
    match setting {
        None => Ok(value),
        Some(op) => {
            let old = name_number(name, vars, shouts)?;
            arith_int::operate(op, old, value)
        }
    }
}

// Stores the decimal text of a number, which is worked out in `digits`, and gives how many bytes the image of variables has then.
fn put_value(
    name: &[u8],
    value: i64,
    vars: &mut [u8],
    vars_used: usize,
    vars_room: usize,
    digits: &mut [u8],
) -> Result<usize, Refusal>
    requires { (is_name name.now ≡ true) × Holds vars_room vars.old vars_used × (most_digits ≤ length digits.old) }
    ensures { Puts vars_room name.now value (held (take vars_used vars.old)) vars.new result }
{
    let n = arith_decimal::put_signed(digits, value);
    let kept = table_store::store_within(name, &digits[..n], vars, vars_used, vars_room);
    kept.or(Err(Refusal::VariableRoom))
}

// "then the result is stored as its shortest decimal text; it is the value of the assignment".
fn keep(
    name: &[u8],
    value: i64,
    vars: &mut [u8],
    vars_used: usize,
    vars_room: usize,
) -> Result<usize, Refusal>
    requires { (is_name name.now ≡ true) × Holds vars_room vars.old vars_used }
    ensures { Puts vars_room name.now value (held (take vars_used vars.old)) vars.new result }
{
    let mut digits = [0u8; numbers::MOST_DIGITS];
    put_value(name, value, vars, vars_used, vars_room, &mut digits)
}

// An assignment whose name stands at a place, and whose right side is worked out.
fn assigned(
    text: &[u8],
    place: usize,
    value: i64,
    vars: &mut [u8],
    vars_used: usize,
    vars_room: usize,
    shouts: bool,
) -> Result<Worked, Refusal>
    requires { (place ≤ length text.now) × Holds vars_room vars.old vars_used }
    ensures { Assigns (alone vars_room shouts) text.now place value (held (take vars_used vars.old)) vars.new result }
{
    let Some(target) = target_at(text, place, true) else {
        return Err(Refusal::ArithmeticSyntax);
    };
    let name = &text[target.from..target.to];
    let z = updated(name, target.setting, value, &vars[..vars_used], shouts)?;
    let used = keep(name, z, vars, vars_used, vars_room)?;
    Ok(Worked {
        value: z,
        vars_used: used,
    })
}

// The value of a part that counts is stored under the names that wait for it, whose places are the first `waiting` ones, from the last on.
pub fn stored_all(
    text: &[u8],
    value: i64,
    waiting: usize,
    scope: Scope,
    vars: &mut [u8],
    places: &[u16],
) -> Result<Worked, Refusal>
    requires { Storable (lent_in scope) text.now waiting places.now vars.old scope.vars_used }
    ensures { Stores (lent_in scope) text.now value waiting places.now vars.old scope.vars_used vars.new result }
{
    let mut all = Worked {
        value,
        vars_used: scope.vars_used,
    };
    for i in (0..waiting).rev() {
        let place = places[i] as usize;
        all = assigned(
            text,
            place,
            all.value,
            vars,
            all.vars_used,
            scope.vars_room,
            scope.shouts,
        )?;
    }
    Ok(all)
}
