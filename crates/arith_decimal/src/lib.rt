// The shortest decimal text, written at the front of a lent slice.
#![tactic(auto)]

ghost use Rattle.std.specs.Prelude.{◌<◌, ◌≤◌, length};
ghost use Rattle.stages.specs.Units.{digits, decimal};
ghost use Rattle.stages.specs.Constants.{signed};
ghost use Rattle.text.specs.Putting.{Puts};
ghost use Rattle.arith_decimal.specs.Digits.{most_digits};

use text::numbers;

// Writes the decimal digits of n, of which it has at most k.
fn put_digits(out: &mut [u8], n: u64, k: usize) -> usize
    requires { length (digits k n) ≤ length out.old }
    ensures { Puts (digits k n) out.old out.new result }
{
    if k == 0 {
        return 0;
    }
    if n < 10 {
        out[0] = b'0' + (n as u8);
        return 1;
    }
    let used = put_digits(out, n / 10, k - 1);
    out[used] = b'0' + ((n % 10) as u8);
    used + 1
}

// Writes the shortest decimal text of n, and returns its length.
pub fn put_decimal(out: &mut [u8], n: u64) -> usize
    requires { most_digits ≤ length out.old }
    ensures { Puts (decimal n) out.old out.new result }
{
    put_digits(out, n, numbers::MOST_DIGITS)
}

// Writes the shortest decimal text of z, with `-` in front below zero, and returns its length.
pub fn put_signed(out: &mut [u8], z: i64) -> usize
    requires { most_digits ≤ length out.old }
    ensures { Puts (signed z) out.old out.new result }
{
    let m = arith_int::magnitude(z);
    if z < 0 {
        out[0] = b'-';
        let used = put_digits(&mut out[1..], m, numbers::MOST_DIGITS);
        return used + 1;
    }
    put_digits(out, m, numbers::MOST_DIGITS)
}
