// What `$@` and `$*` give to a row: the texts of an image with a gap between them. They are counted first, since the whole is one expansion, and then put at
// the front of the lent area.
#![tactic(auto)]

ghost use Rattle.std.specs.Prelude.{◌≡◌, ◌+◌, ◌*◌, ◌≤◌, length, take};
ghost use Rattle.stages.specs.Numbers.{row_limit};
ghost use Rattle.stages.specs.Outcome.{done};
ghost use Rattle.stages.specs.Images.{held, held_texts};
ghost use Rattle.stages.specs.Units.{Q, marked};
ghost use Rattle.stages.specs.Split.{ifs_now};
ghost use Rattle.stages.specs.Expand.{gap, between, list_row, of_none};
ghost use Rattle.text.specs.Cases.{spread_of};
ghost use Rattle.text.specs.Rows.{row_bytes};
ghost use Rattle.table.specs.Places.{Listed, Table};
ghost use Rattle.row.specs.Marks.{mark_of};
ghost use Rattle.row.specs.Stands.{fronted};
ghost use Rattle.expand_add.specs.Added.{Adds};
ghost use Rattle.expand_list.specs.Lists.{gap_row, Counts};

use expand_add::answers::{Onward, Row, Stop};
use row::{Mark, RowEnd};
use text::numbers;
use text::refusal::Refusal;

// What stands between two texts: a break mark, one with an empty mark behind it, a quoted byte, or nothing.
#[derive(Clone, Copy)]
enum Gap {
    Break,
    BreakEmpty,
    Byte(u8),
    Nothing,
}

// What `"$*"` joins with: "the first byte of IFS as it then stands, a space if IFS is unset, nothing if empty".
fn joint_gap(vars: &[u8]) -> Gap
    requires { Table vars.now }
    ensures { gap_row result ≡ marked Q (take 1 (ifs_now (held vars.now))) }
{
    match table_find::look_up_ifs(vars) {
        None => Gap::Byte(b' '),
        Some(part) if part.from < part.to => Gap::Byte(vars[part.from]),
        Some(_) => Gap::Nothing,
    }
}

// What stands between the parameters of `$@` or `$*` where they get this mark.
fn gap_of(apart: bool, mark: Mark, vars: &[u8]) -> Gap
    requires { Table vars.now }
    ensures { gap_row result ≡ gap (spread_of apart) (mark_of mark) (held vars.now) }
{
    match mark {
        Mark::L | Mark::E => Gap::Break,
        Mark::Q if apart => Gap::BreakEmpty,
        Mark::Q => joint_gap(vars),
    }
}

// How many units a gap has.
fn gap_units(gap: Gap) -> usize
    ensures { result ≡ length (gap_row gap) }
{
    match gap {
        Gap::Break => 1,
        Gap::BreakEmpty => 2,
        Gap::Byte(_) => 1,
        Gap::Nothing => 0,
    }
}

// Puts a gap at the front.
fn put_gap(gap: Gap, area: &mut [u8])
    requires { 2 * length (gap_row gap) ≤ length area.old }
    ensures { area.new ≡ fronted (row_bytes (gap_row gap)) area.old }
{
    match gap {
        Gap::Break => row::put_break(area),
        Gap::BreakEmpty => {
            row::put_break(area);
            row::put_empty(&mut area[2..]);
        }
        Gap::Byte(b) => row::put_unit(area, b, Mark::Q),
        Gap::Nothing => {}
    }
}

// How many units the texts of an image take with a gap of so many units between them.
fn list_units(params: &[u8], gap: usize) -> usize
    requires { Listed params.now × (gap ≤ 2) }
    ensures { Counts params.now gap result }
{
    let mut units: usize = 0;
    let mut before: usize = 0;
    let mut at: usize = 1;
    while let Ok(Some(end)) = table::text_at(params, at) {
        units += before + (end - at - 2);
        before = gap;
        at = end;
    }
    units
}

// Puts the texts of an image at the front, each byte with the mark and a gap between them.
fn put_list(params: &[u8], gap: Gap, mark: Mark, area: &mut [u8])
    requires { Listed params.now × (2 * length (between (gap_row gap) (mark_of mark) (held_texts params.now)) ≤ length area.old) }
    ensures { area.new ≡ fronted (row_bytes (between (gap_row gap) (mark_of mark) (held_texts params.now))) area.old }
{
    let mut before = Gap::Nothing;
    let mut at: usize = 1;
    let mut to: usize = 0;
    while let Ok(Some(end)) = table::text_at(params, at) {
        put_gap(before, &mut area[to..]);
        let text = to + 2 * gap_units(before);
        row::put_marked(&params[at + 2..end], mark, &mut area[text..]);
        to = text + 2 * (end - at - 2);
        before = gap;
        at = end;
    }
}

// Adds `$@` or `$*` of the parameters, as what is expanded where literal bytes have the row's mark: one expansion, of which all or nothing is put.
pub fn give_list(
    apart: bool,
    row: RowEnd,
    on: Onward,
    vars: &[u8],
    params: &[u8],
    area: &mut [u8],
) -> Result<Row, Stop>
    requires table { Table vars.now × Listed params.now }
    requires units_le_row_limit { (row.units ≤ row_limit) × (2 * row_limit ≤ length area.old + 2 * row.units) }
    ensures { Adds row.units on
        (done (list_row (spread_of apart) (mark_of row.mark) (held_texts params.now) (held vars.now)))
        area.new result }
{
    let mark = row::expanded_mark(row.mark);
    let gap = gap_of(apart, mark, vars);
    let units = list_units(params, gap_units(gap));
    let room = numbers::ROW_LIMIT - row.units;
    if units > room {
        return Err(Stop::Refused(Refusal::TooManyUnits));
    }
    put_list(params, gap, mark, area);
    Ok(on.row(units))
}

// Does `$@` of no parameters come here? In quotes with nothing else it leaves no field.
pub fn is_of_none(apart: bool, params: &[u8]) -> bool
    requires { Listed params.now }
    ensures { result ≡ of_none (spread_of apart) (held_texts params.now) }
{
    apart && !matches!(table::text_at(params, 1), Ok(Some(_)))
}
