// What an item without a text of its own gives: a unit, a value, a length, how many parameters there are, a tilde's directory.
#![tactic(auto)]

ghost use Rattle.std.proofs.Math.Option.{none};
ghost use Rattle.std.specs.Prelude.{◌≡◌, MatchResult, ◌∷◌, [], ◌+◌, ◌*◌, ◌≤◌, length};
ghost use Rattle.stages.specs.Numbers.{row_limit};
ghost use Rattle.stages.specs.Outcome.{refused, done};
ghost use Rattle.stages.specs.Images.{held, held_texts, or_empty};
ghost use Rattle.stages.specs.Expand.{directory, tilde_row};
ghost use Rattle.stages.specs.Units.{Q, cell, N, marked, expanded_mark, decimal};
ghost use Rattle.text.specs.Refusals.{refusal_number};
ghost use Rattle.arith_decimal.specs.Digits.{most_digits};
ghost use Rattle.row.specs.Marks.{mark_of};
ghost use Rattle.table.specs.Places.{Listed, Table};
ghost use Rattle.read_brace.specs.Shows.{Name, param_of};
ghost use Rattle.expand_param.specs.Holding.{holding_in, sought_in};
ghost use Rattle.expand_add.specs.Added.{Adds};
ghost use Rattle.expand_item.specs.Homes.{Inside, text_at};
ghost use Rattle.expand_item.specs.Sought.{value_row, length_row};

use expand_add::answers::{Onward, Row, Stop};
use read_brace::Param;
use row::{Mark, RowEnd};
use table::Part;
use text::numbers;
use text::refusal::Refusal;

// Adds one unit, with the row's mark.
pub fn give_unit(b: u8, row: RowEnd, on: Onward, area: &mut [u8]) -> Result<Row, Stop>
    requires { (row.units ≤ row_limit) × (2 * row_limit ≤ length area.old + 2 * row.units) }
    ensures { Adds row.units on (done (cell (mark_of row.mark) b ∷ [])) area.new result }
{
    if row.units >= numbers::ROW_LIMIT {
        return Err(Stop::Refused(Refusal::TooManyUnits));
    }
    row::put_unit(area, b, row.mark);
    Ok(on.row(1))
}

// Adds the decimal text of a count, which is worked out in `digits`: two lines as of expand_add's give_signed, with another writer and another stage.
fn give_count(
    n: u64,
    row: RowEnd,
    on: Onward,
    digits: &mut [u8],
    area: &mut [u8],
) -> Result<Row, Stop>
    requires { (most_digits ≤ length digits.old) × (row.units ≤ row_limit) × (2 * row_limit ≤ length area.old + 2 * row.units) }
    ensures { Adds row.units on (done (marked (expanded_mark (mark_of row.mark)) (decimal n))) area.new result }
{
    let n = arith_decimal::put_decimal(digits, n);
    expand_add::give_expanded(&digits[..n], row, on, area)
}

// Adds the value of a parameter, nothing if it is unset.
pub fn give_value(
    text: &[u8],
    param: Param,
    row: RowEnd,
    on: Onward,
    vars: &[u8],
    params: &[u8],
    area: &mut [u8],
) -> Result<Row, Stop>
    requires { Name text.now param.from param.to × Table vars.now × Listed params.now × (row.units ≤ row_limit) ×
        (2 * row_limit ≤ length area.old + 2 * row.units) }
    ensures { Adds row.units on
        (done (marked (expanded_mark (mark_of row.mark))
        (or_empty (holding_in (held_texts params.now) (held vars.now) (param_of text.now param)))))
        area.new result }
{
    let value = expand_param::value_of(text, param, vars, params);
    expand_add::give_expanded(value, row, on, area)
}

// The value of a parameter that is looked up: one that is unset is refused if the switch is on.
fn sought<'a>(
    text: &[u8],
    param: Param,
    vars: &'a [u8],
    params: &'a [u8],
    shouts: bool,
) -> Result<&'a [u8], Refusal>
    requires { Name text.now param.from param.to × Table vars.now × Listed params.now }
    ensures { MatchResult result
        (λ t. sought_in shouts (held_texts params.now) (held vars.now) (param_of text.now param) ≡ done t.now)
        (λ e. sought_in shouts (held_texts params.now) (held vars.now) (param_of text.now param) ≡ refused (refusal_number e)) }
{
    if expand_param::must_shout(text, param, vars, params, shouts) {
        return Err(Refusal::UnsetName);
    }
    Ok(expand_param::value_of(text, param, vars, params))
}

// Adds the value of a parameter in its plain form: one that is unset is refused if the switch is on.
pub fn give_sought(
    text: &[u8],
    param: Param,
    row: RowEnd,
    on: Onward,
    vars: &[u8],
    params: &[u8],
    area: &mut [u8],
    shouts: bool,
) -> Result<Row, Stop>
    requires { Name text.now param.from param.to × Table vars.now × Listed params.now × (row.units ≤ row_limit) ×
        (2 * row_limit ≤ length area.old + 2 * row.units) }
    ensures { Adds row.units on
        (value_row shouts (held_texts params.now) (held vars.now) (param_of text.now param) (mark_of row.mark))
        area.new result }
{
    expand_add::give_expanded(sought(text, param, vars, params, shouts)?, row, on, area)
}

// Adds the length in bytes of a parameter's value, 0 if it is unset. One that is unset is refused if the switch is on.
pub fn give_length(
    text: &[u8],
    param: Param,
    row: RowEnd,
    on: Onward,
    vars: &[u8],
    params: &[u8],
    area: &mut [u8],
    shouts: bool,
) -> Result<Row, Stop>
    requires { Name text.now param.from param.to × Table vars.now × Listed params.now × (row.units ≤ row_limit) ×
        (2 * row_limit ≤ length area.old + 2 * row.units) }
    ensures { Adds row.units on
        (length_row shouts (held_texts params.now) (held vars.now) (param_of text.now param) (mark_of row.mark))
        area.new result }
{
    let value = sought(text, param, vars, params, shouts)?;
    let mut digits = [0u8; numbers::MOST_DIGITS];
    give_count(value.len() as u64, row, on, &mut digits, area)
}

// Adds how many positional parameters there are.
pub fn give_total(row: RowEnd, on: Onward, params: &[u8], area: &mut [u8]) -> Result<Row, Stop>
    requires { Listed params.now × (row.units ≤ row_limit) × (2 * row_limit ≤ length area.old + 2 * row.units) }
    ensures { Adds row.units on (done (marked (expanded_mark (mark_of row.mark)) (decimal (length (held_texts params.now)))))
        area.new result }
{
    let total = table_find::count_texts(params);
    let mut digits = [0u8; numbers::MOST_DIGITS];
    give_count(total as u64, row, on, &mut digits, area)
}

// Adds a directory: an N, then its bytes as Q.
fn give_directory(directory: &[u8], row: RowEnd, on: Onward, area: &mut [u8]) -> Result<Row, Stop>
    requires { (row.units ≤ row_limit) × (2 * row_limit ≤ length area.old + 2 * row.units) }
    ensures { Adds row.units on (done (N ∷ marked Q directory.now)) area.new result }
{
    let room = numbers::ROW_LIMIT - row.units;
    if directory.len() >= room {
        return Err(Stop::Refused(Refusal::TooManyUnits));
    }
    row::put_empty(area);
    row::put_marked(directory, Mark::Q, &mut area[2..]);
    Ok(on.row(directory.len() + 1))
}

// Adds a tilde and its login as they stand, each byte with the row's mark. One function with `give_directory` would take the first unit as a case.
fn give_literal(login: &[u8], row: RowEnd, on: Onward, area: &mut [u8]) -> Result<Row, Stop>
    requires { (row.units ≤ row_limit) × (2 * row_limit ≤ length area.old + 2 * row.units) }
    ensures { Adds row.units on (done (tilde_row login.now (mark_of row.mark) none)) area.new result }
{
    let room = numbers::ROW_LIMIT - row.units;
    if login.len() >= room {
        return Err(Stop::Refused(Refusal::TooManyUnits));
    }
    row::put_unit(area, b'~', row.mark);
    row::put_marked(login, row.mark, &mut area[2..]);
    Ok(on.row(login.len() + 1))
}

// Adds what a login's look-up in an image found: the directory, or the tilde and the login.
fn give_found(
    login: &[u8],
    image: &[u8],
    found: Option<Part>,
    row: RowEnd,
    on: Onward,
    area: &mut [u8],
) -> Result<Row, Stop>
    requires { Inside image.now found × (row.units ≤ row_limit) × (2 * row_limit ≤ length area.old + 2 * row.units) }
    ensures { Adds row.units on (done (tilde_row login.now (mark_of row.mark) (text_at image.now found)))
        area.new result }
{
    match found {
        None => give_literal(login, row, on, area),
        Some(part) => give_directory(&image[part.from..part.to], row, on, area),
    }
}

// Adds a tilde with its login. "Empty login means HOME (even if empty), otherwise the homes table."
pub fn give_home(
    login: &[u8],
    row: RowEnd,
    on: Onward,
    vars: &[u8],
    homes: &[u8],
    area: &mut [u8],
) -> Result<Row, Stop>
    requires { Table vars.now × Table homes.now × (row.units ≤ row_limit) × (2 * row_limit ≤ length area.old + 2 * row.units) }
    ensures { Adds row.units on
        (done (tilde_row login.now (mark_of row.mark)
        (directory (held vars.now) (held homes.now) login.now)))
        area.new result }
{
    if login.len() == 0 {
        return give_found(login, vars, table_find::look_up_home(vars), row, on, area);
    }
    give_found(
        login,
        homes,
        table_find::look_up(homes, login),
        row,
        on,
        area,
    )
}
