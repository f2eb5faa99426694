// What a part of a text gives: a whole row, worked out, measured and then put at the front of the lent area.
#![tactic(auto)]

ghost use Rattle.std.specs.Prelude.{◌+◌, ◌*◌, ◌≤◌, length};
ghost use Rattle.stages.specs.Numbers.{row_limit};
ghost use Rattle.stages.specs.Units.{marked, expanded_mark};
ghost use Rattle.stages.specs.Constants.{signed};
ghost use Rattle.arith_decimal.specs.Digits.{most_digits};
ghost use Rattle.row.specs.Marks.{mark_of};
ghost use Rattle.expand_add.specs.Added.{AddsTo, EndsExpanded};

use answers::{Onward, Row, Stop};
use row::RowEnd;
use text::numbers;
use text::refusal::Refusal;

pub mod answers;

// The same end of a row, for what is expanded there.
pub fn expanded_end(row: RowEnd) -> RowEnd
    ensures { EndsExpanded row result }
{
    let mark = row.mark;
    RowEnd {
        mark: row::expanded_mark(mark),
        units: row.units,
    }
}

// Adds the bytes of a text, each with the row's mark.
pub fn give_text(text: &[u8], row: RowEnd, on: Onward, area: &mut [u8]) -> Result<Row, Stop>
    requires { (row.units ≤ row_limit) × (2 * row_limit ≤ length area.old + 2 * row.units) }
    ensures { AddsTo row.units on (marked (mark_of row.mark) text.now) area.old area.new result }
{
    let room = numbers::ROW_LIMIT - row.units;
    if text.len() > room {
        return Err(Stop::Refused(Refusal::TooManyUnits));
    }
    let mark = row.mark;
    row::put_marked(text, mark, area);
    Ok(on.row(text.len()))
}

// Adds a value, as what is expanded where literal bytes have the row's mark.
pub fn give_expanded(value: &[u8], row: RowEnd, on: Onward, area: &mut [u8]) -> Result<Row, Stop>
    requires { (row.units ≤ row_limit) × (2 * row_limit ≤ length area.old + 2 * row.units) }
    ensures { AddsTo row.units on (marked (expanded_mark (mark_of row.mark)) value.now) area.old area.new result }
{
    give_text(value, expanded_end(row), on, area)
}

// Adds the decimal text of a number, which is worked out in `digits`.
fn give_signed(
    z: i64,
    row: RowEnd,
    on: Onward,
    digits: &mut [u8],
    area: &mut [u8],
) -> Result<Row, Stop>
    requires { (most_digits ≤ length digits.old) × (row.units ≤ row_limit) × (2 * row_limit ≤ length area.old + 2 * row.units) }
    ensures { AddsTo row.units on (marked (expanded_mark (mark_of row.mark)) (signed z)) area.old area.new result }
{
    let n = arith_decimal::put_signed(digits, z);
    give_expanded(&digits[..n], row, on, area)
}

// Adds the decimal text of a number.
pub fn give_number(z: i64, row: RowEnd, on: Onward, area: &mut [u8]) -> Result<Row, Stop>
    requires { (row.units ≤ row_limit) × (2 * row_limit ≤ length area.old + 2 * row.units) }
    ensures { AddsTo row.units on (marked (expanded_mark (mark_of row.mark)) (signed z)) area.old area.new result }
{
    let mut digits = [0u8; numbers::MOST_DIGITS];
    give_signed(z, row, on, &mut digits, area)
}
