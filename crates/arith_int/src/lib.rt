// Numbers of document 01, "Arithmetic", and document 02, E6: the operations on 64-bit signed numbers, each exact or refused.
#![tactic(auto)]

ghost use Rattle.std.specs.Prelude.{◌≡◌, ◌&&◌, ◌||◌, ◌*◌, ◌^◌, pos, neg_ℤ, nat_abs, ◌+ℤ◌, ◌-ℤ◌, ◌*ℤ◌};
ghost use Rattle.std.specs.Int.Signed.{quot_z, rem_z, shr_z};
ghost use Rattle.stages.specs.Outcome.{done};
ghost use Rattle.stages.specs.Constants.{ranged};
ghost use Rattle.stages.specs.Arith.{divided, shifted, bitwise, xor, apply, is_sign, apply_alone, early as earlyOf, truth as truth_of};
ghost use Rattle.arith_int.specs.Answers.{numbered, op_of, of_sign, Divides, is_count, known};

use text::refusal::Refusal;

// The distance of the smallest number from zero.
pub const BELOW: u64 = 9223372036854775808;

// The distance of the largest.
const ABOVE: u64 = 9223372036854775807;

#[derive(Clone, Copy)]
pub enum Op {
    Mul,
    Div,
    Rem,
    Add,
    Sub,
    Shl,
    Shr,
    Lt,
    Le,
    Gt,
    Ge,
    Eq,
    Ne,
    BitAnd,
    BitXor,
    BitOr,
    LogAnd,
    LogOr,
    LogNot,
    BitNot,
}

// a + b.
fn sum(a: i64, b: i64) -> Result<i64, Refusal>
    ensures { numbered result ≡ ranged (a +ℤ b) }
{
    a.checked_add(b).ok_or(Refusal::Overflow)
}

// -a: only the smallest number has none.
pub fn negate(a: i64) -> Result<i64, Refusal>
    ensures { numbered result ≡ ranged (neg_ℤ a) }
{
    a.checked_neg().ok_or(Refusal::Overflow)
}

// a - b.
fn difference(a: i64, b: i64) -> Result<i64, Refusal>
    ensures { numbered result ≡ ranged (a -ℤ b) }
{
    a.checked_sub(b).ok_or(Refusal::Overflow)
}

// Whether two numbers can be divided: "by zero 18"; "17, as is the smallest number `/` or `%` -1".
fn can_divide(a: i64, b: i64) -> Result<(), Refusal>
    ensures { Divides a b result }
{
    if b == 0 {
        return Err(Refusal::ZeroDivisor);
    }
    if b == -1 && a == i64::MIN {
        return Err(Refusal::Overflow);
    }
    Ok(())
}

// a / b, cut toward zero.
fn quotient(a: i64, b: i64) -> Result<i64, Refusal>
    ensures { numbered result ≡ divided quot_z a b }
{
    can_divide(a, b)?;
    Ok(a / b)
}

// a % b, with the sign of a; refused where the quotient is.
fn remainder(a: i64, b: i64) -> Result<i64, Refusal>
    ensures { numbered result ≡ divided rem_z a b }
{
    can_divide(a, b)?;
    Ok(a % b)
}

// The distance of a from zero.
pub fn magnitude(a: i64) -> u64
    ensures { result ≡ nat_abs a }
{
    a.unsigned_abs()
}

// The number at the distance m from zero, below it or not.
pub fn of_magnitude(below: bool, m: u64) -> Result<i64, Refusal>
    ensures { numbered result ≡ ranged (of_sign below m) }
{
    if m == 0 {
        return Ok(0);
    }
    if below {
        let k = m - 1;
        if ABOVE < k {
            return Err(Refusal::Overflow);
        }
        let i = k as i64;
        return Ok(-1 - i);
    }
    if ABOVE < m {
        return Err(Refusal::Overflow);
    }
    Ok(m as i64)
}

// The number at the distance x * y from zero, below it or not.
fn multiplied(below: bool, x: u64, y: u64) -> Result<i64, Refusal>
    ensures { numbered result ≡ ranged (of_sign below (x * y)) }
{
    let Some(m) = x.checked_mul(y) else {
        return Err(Refusal::Overflow);
    };
    of_magnitude(below, m)
}

// a * b.
#[tactic(auto, using(crate::proofs::Ranges::checked_held))]
fn product(a: i64, b: i64) -> Result<i64, Refusal>
    ensures { numbered result ≡ ranged (a *ℤ b) }
{
    a.checked_mul(b).ok_or(Refusal::Overflow)
}

// Whether a number can be shifted by a count: "A shift count outside 0 to 63 .. is 17".
fn is_count(b: i64) -> bool
    ensures { result ≡ is_count b }
{
    0 <= b && b < 64
}

// a << b: a times 2 to the b, exactly, by the magnitude.
fn shift_left(a: i64, b: i64) -> Result<i64, Refusal>
    ensures { numbered result ≡ shifted (λ z n. ranged (z *ℤ pos (2 ^ n))) a b }
{
    if !is_count(b) {
        return Err(Refusal::Overflow);
    }
    let power = 1u64 << (b as u64);
    multiplied(a < 0, magnitude(a), power)
}

// a >> b: a by 2 to the b, rounded down.
fn shift_right(a: i64, b: i64) -> Result<i64, Refusal>
    ensures { numbered result ≡ shifted (λ z n. done (shr_z z (2 ^ n))) a b }
{
    if !is_count(b) {
        return Err(Refusal::Overflow);
    }
    Ok(a >> b)
}

// The bits that both have.
fn bits_and(a: i64, b: i64) -> i64
    ensures { result ≡ bitwise (λ x y. x && y) a b }
{
    a & b
}

// The bits that one of them has.
fn bits_xor(a: i64, b: i64) -> i64
    ensures { result ≡ bitwise xor a b }
{
    a ^ b
}

// The bits that either has.
fn bits_or(a: i64, b: i64) -> i64
    ensures { result ≡ bitwise (λ x y. x || y) a b }
{
    a | b
}

// "comparisons give 1 or 0"
fn truth(holds: bool) -> i64
    ensures { result ≡ truth_of holds }
{
    i64::from(holds)
}

// What an operator between two numbers makes of them. Never asked of `!` and `~`, which stand before one.
pub fn operate(op: Op, a: i64, b: i64) -> Result<i64, Refusal>
    ensures { numbered result ≡ apply (op_of op) a b }
{
    match op {
        Op::Mul => product(a, b),
        Op::Div => quotient(a, b),
        Op::Rem => remainder(a, b),
        Op::Add => sum(a, b),
        Op::Sub => difference(a, b),
        Op::Shl => shift_left(a, b),
        Op::Shr => shift_right(a, b),
        Op::Lt => Ok(truth(a < b)),
        Op::Le => Ok(truth(a <= b)),
        Op::Gt => Ok(truth(b < a)),
        Op::Ge => Ok(truth(b <= a)),
        Op::Eq => Ok(truth(a == b)),
        Op::Ne => Ok(truth(a != b)),
        Op::BitAnd => Ok(bits_and(a, b)),
        Op::BitXor => Ok(bits_xor(a, b)),
        Op::BitOr => Ok(bits_or(a, b)),
        Op::LogAnd => Ok(truth(b != 0)),
        Op::LogOr => Ok(truth(b != 0)),
        Op::LogNot => Err(Refusal::ArithmeticSyntax),
        Op::BitNot => Err(Refusal::ArithmeticSyntax),
    }
}

// Whether an operator may stand before one operand.
pub fn is_sign(op: Op) -> bool
    ensures { result ≡ is_sign (op_of op) }
{
    matches!(op, Op::Add | Op::Sub | Op::LogNot | Op::BitNot)
}

// What an operator before one number makes of it. Never asked of the others, which stand between two.
pub fn operate_alone(op: Op, a: i64) -> Result<i64, Refusal>
    ensures { numbered result ≡ apply_alone (op_of op) a }
{
    match op {
        Op::Add => Ok(a),
        Op::Sub => negate(a),
        Op::LogNot => Ok(truth(a == 0)),
        Op::BitNot => Ok(-1 - a),
        _ => Err(Refusal::ArithmeticSyntax),
    }
}

// What an operator comes to by its left operand alone, where that decides: "The side of `&&`, `||` .. that is not needed is .. not evaluated".
pub fn decided(op: Op, a: i64) -> Option<i64>
    ensures { known result ≡ earlyOf (op_of op) a }
{
    match op {
        Op::LogAnd => if a == 0 { Some(0) } else { None },
        Op::LogOr => if a == 0 { None } else { Some(1) },
        _ => None,
    }
}
