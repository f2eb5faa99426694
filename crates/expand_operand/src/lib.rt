// What is done with an operand's row, which stands at the front of the area: it is stored, it is the pattern of a removal, it is an arithmetic text, it is
// the message of a refusal, or it is the expansion itself.
#![tactic(auto)]

ghost use Rattle.std.specs.Prelude.{◌≡◌, Bool, false, ℕ, ◌*◌, ◌≤◌, length, take};
ghost use Rattle.stages.specs.Numbers.{row_limit};
ghost use Rattle.stages.specs.Bytes.{Text};
ghost use Rattle.stages.specs.Images.{held, held_texts, or_empty};
ghost use Rattle.stages.specs.Syntax.{var};
ghost use Rattle.stages.specs.Units.{bytes};
ghost use Rattle.text.specs.Cases.{side_of, reach_of};
ghost use Rattle.text.specs.Rows.{row_of};
ghost use Rattle.row.specs.Marks.{mark_of};
ghost use Rattle.table.specs.Around.{lent_of};
ghost use Rattle.table.specs.Places.{Listed, Table};
ghost use Rattle.read_brace.specs.Shows.{Name, param_of};
ghost use Rattle.expand_param.specs.Holding.{holding_in};
ghost use Rattle.expand_add.specs.Added.{Adds, admitted};
ghost use Rattle.expand_form.specs.Plans.{settled, finished};
ghost use Rattle.expand_add.specs.Steps.{placed, summed};
ghost use Rattle.expand_operand.specs.Operands.{Storable, row_at, storing, cut_of, Pattern, TriedSays, Demands};
ghost use Rattle.table_store.specs.Holding.{Holds, StoresIn};
ghost use Rattle.expand_add.specs.Answers.{Finishes};

use expand_add::answers::{Extent, Onward, Row, Stop};
use expand_form::{Unused, Used};
use pattern_settle::{FEW_SETS, SETS_ROOM, SettleError};
use pattern_unit::Width;
use read_brace::Param;
use row::RowEnd;
use table_store::NoRoom;
use text::numbers::ROW_LIMIT;
use text::refusal::Refusal;

// The cells of a short pattern: few patterns have more units, and a small table is quickly made.
const FEW_CELLS: usize = 64;

// An operand that was expanded: its row has so many units, the text goes on at `next`, and `of_none` says whether `$@` of no parameters came in it.
#[derive(Clone, Copy)]
pub struct Operand {
    pub units: usize,
    pub next: usize,
    pub of_none: bool,
}

// A removal: of a suffix or a prefix, the longest or the shortest, whose pattern is the units of the area's first `end` bytes.
#[derive(Clone, Copy)]
struct Removal {
    suffix: bool,
    long: bool,
    end: usize,
}

// A row of so many units is added after those before it, if they are not too many.
fn admit(units: usize, row: RowEnd, on: Onward) -> Result<Row, Stop>
    requires { row.units ≤ row_limit }
    ensures { result ≡ admitted row.units on units }
{
    if units > ROW_LIMIT - row.units {
        return Err(Stop::Refused(Refusal::TooManyUnits));
    }
    Ok(on.row(units))
}

// Stores the bytes without marks of the row at the front of the area under the name: the row of an operand, or of an assignment's value.
pub fn store_operand(
    name: &[u8],
    units: usize,
    vars: &mut [u8],
    extent: Extent,
    work: &mut [u8],
) -> Result<usize, NoRoom>
    requires { Storable (var name.now) work.old units × Holds extent.vars_room vars.old extent.vars_used }
    ensures { StoresIn extent.vars_room name.now (bytes (row_at work.old units))
        (held (take extent.vars_used vars.old)) vars.new result }
{
    let end = 2 * units;
    let n = row::strip_marks(&mut work[..end]);
    table_store::store_within(name, &work[..n], vars, extent.vars_used, extent.vars_room)
}

// "if missing, the operand's bytes without marks are stored; then the value is given, whatever quotes the operand had": no `$@` of no parameters comes of it.
fn assign(
    name: &[u8],
    operand: Operand,
    row: RowEnd,
    vars: &mut [u8],
    extent: Extent,
    work: &mut [u8],
) -> Result<Row, Stop>
    requires { Storable (var name.now) work.old operand.units × Holds extent.vars_room vars.old extent.vars_used ×
        (row.units ≤ row_limit) × (2 * row_limit ≤ length work.old) }
    ensures { Finishes extent.vars_room row.units
        (placed row.units (storing extent.vars_room name.now (mark_of row.mark) (row_at work.old operand.units)
        (held (take extent.vars_used vars.old)))) operand.next work.new vars.new result }
{
    let Ok(vars_used) = store_operand(name, operand.units, vars, extent, work) else {
        return Err(Stop::Refused(Refusal::VariableRoom));
    };
    let value = table_find::value_of(&vars[..vars_used], name);
    let on = Onward {
        next: operand.next,
        vars_used,
        of_none: false,
    };
    expand_add::give_expanded(value, row, on, work)
}

// What is left of a value by a removal, whose pattern is settled in lent tables. Where its sets are too many for the table, nothing is done.
fn cut_settled(
    value: &[u8],
    removal: Removal,
    row: RowEnd,
    on: Onward,
    work: &mut [u8],
    cells: &mut [u16],
    sets: &mut [u64],
) -> Option<Result<Row, Stop>>
    requires { Pattern work.old removal.end × (row.units ≤ row_limit) × (2 * row_limit ≤ length work.old) ×
        (removal.end ≤ 2 * length cells.old) × (length cells.old ≤ row_limit) }
    ensures { TriedSays row.units on
        (cut_of (side_of removal.suffix) (reach_of removal.long) value.now (mark_of row.mark) (row_of (take removal.end work.old)))
        removal.end work.old
        work.new (length sets.old) result }
{
    match pattern_settle::settle(&work[..removal.end], false, Width::Marked, cells, sets) {
        Err(SettleError::BadClass) => Some(Err(Stop::Refused(Refusal::BracketClass))),
        Err(SettleError::NoRoom) => None,
        Ok(settled) => {
            let cells = &cells[..settled.count];
            let left = pattern_remove::removed(value, cells, sets, removal.suffix, removal.long);
            Some(expand_add::give_text(left, expand_add::expanded_end(row), on, work))
        }
    }
}

// The same with so many cells and words for sets.
fn cut_with<const CELLS: usize, const SETS: usize>(
    value: &[u8],
    removal: Removal,
    row: RowEnd,
    on: Onward,
    work: &mut [u8],
) -> Option<Result<Row, Stop>>
    requires { Pattern work.old removal.end × (row.units ≤ row_limit) × (2 * row_limit ≤ length work.old) × (removal.end ≤ 2 * CELLS) ×
        (CELLS ≤ row_limit) × (SETS ≤ SETS_ROOM) }
    ensures { TriedSays row.units on
        (cut_of (side_of removal.suffix) (reach_of removal.long) value.now (mark_of row.mark) (row_of (take removal.end work.old)))
        removal.end work.old
        work.new SETS result }
{
    let mut cells = [0u16; CELLS];
    let mut sets = [0u64; SETS];
    cut_settled(value, removal, row, on, work, &mut cells, &mut sets)
}

// The same with a table of a few sets, and as many cells as the pattern asks for.
fn cut_by_few(
    value: &[u8],
    removal: Removal,
    row: RowEnd,
    on: Onward,
    work: &mut [u8],
) -> Option<Result<Row, Stop>>
    requires { Pattern work.old removal.end × (row.units ≤ row_limit) × (2 * row_limit ≤ length work.old) }
    ensures { TriedSays row.units on
        (cut_of (side_of removal.suffix) (reach_of removal.long) value.now (mark_of row.mark) (row_of (take removal.end work.old)))
        removal.end work.old
        work.new FEW_SETS result }
{
    if removal.end <= 2 * FEW_CELLS {
        return cut_with::<FEW_CELLS, FEW_SETS>(value, removal, row, on, work);
    }
    cut_with::<ROW_LIMIT, FEW_SETS>(value, removal, row, on, work)
}

// The same without tables. The second one, with room for the sets of every row, is never too small: a set has three units at the least.
fn cut_value(
    value: &[u8],
    removal: Removal,
    row: RowEnd,
    on: Onward,
    work: &mut [u8],
) -> Result<Row, Stop>
    requires { Pattern work.old removal.end × (row.units ≤ row_limit) × (2 * row_limit ≤ length work.old) }
    ensures { Adds row.units on
        (cut_of (side_of removal.suffix) (reach_of removal.long) value.now (mark_of row.mark) (row_of (take removal.end work.old)))
        work.new result }
{
    if let Some(answer) = cut_by_few(value, removal, row, on, work) {
        return answer;
    }
    cut_with::<ROW_LIMIT, SETS_ROOM>(value, removal, row, on, work).unwrap()
}

// What is left of a parameter's value by a removal whose pattern the operand's row is. The value is read after the operand's own stores.
fn cut(
    text: &[u8],
    param: Param,
    removal: Removal,
    row: RowEnd,
    on: Onward,
    vars: &[u8],
    params: &[u8],
    work: &mut [u8],
) -> Result<Row, Stop>
    requires { Name text.now param.from param.to × Table vars.now × Listed params.now × (removal.end ≤ 2 * row_limit) ×
        (row.units ≤ row_limit) × (2 * row_limit ≤ length work.old) }
    ensures { Adds row.units on
        (cut_of (side_of removal.suffix) (reach_of removal.long)
        (or_empty (holding_in (held_texts params.now) (held vars.now) (param_of text.now param)))
        (mark_of row.mark) (row_of (take removal.end work.old)))
        work.new result }
{
    let end = pattern_row::drop_empty(&mut work[..removal.end]);
    let full = Removal { end, ..removal };
    let value = expand_param::value_of(text, param, vars, params);
    cut_value(value, full, row, on, work)
}

// The number of the arithmetic text that the row is. What the text stores is stored.
pub fn sum_up(
    units: usize,
    next: usize,
    row: RowEnd,
    vars: &mut [u8],
    extent: Extent,
    work: &mut [u8],
) -> Result<Row, Stop>
    requires { Holds extent.vars_room vars.old extent.vars_used × (units ≤ row_limit) × (row.units ≤ row_limit) ×
        (2 * row_limit ≤ length work.old) }
    ensures { (homes params : Text) → Finishes extent.vars_room row.units
        (placed row.units (summed (lent_of extent.vars_room extent.shouts homes params) (mark_of row.mark)
        (row_at work.old units, held (take extent.vars_used vars.old), false)))
        next work.new vars.new result }
{
    let end = 2 * units;
    let n = row::strip_marks(&mut work[..end]);
    let worked = arith_eval::evaluate_text(
        &work[..n],
        vars,
        extent.vars_used,
        extent.vars_room,
        extent.shouts,
    )?;
    let on = Onward {
        next,
        vars_used: worked.vars_used,
        of_none: false,
    };
    expand_add::give_number(worked.value, row, on, work)
}

// The operand's bytes without marks are the message, where its row stood.
fn demand(units: usize, work: &mut [u8]) -> Stop
    requires { 2 * units ≤ length work.old }
    ensures { Demands (bytes (row_at work.old units)) work.new result }
{
    let end = 2 * units;
    let n = row::strip_marks(&mut work[..end]);
    Stop::Demanded { at: 0, len: n }
}

// What is given where the operand is not used.
pub fn settle(
    unused: Unused,
    text: &[u8],
    param: Param,
    row: RowEnd,
    on: Onward,
    vars: &[u8],
    params: &[u8],
    work: &mut [u8],
) -> Result<Row, Stop>
    requires { Name text.now param.from param.to × Table vars.now × Listed params.now × (row.units ≤ row_limit) ×
        (2 * row_limit ≤ length work.old) }
    ensures { (room : ℕ) (shouts : Bool) (homes : Text) → Adds row.units on
        (settled unused (lent_of room shouts homes params.now) (param_of text.now param) (mark_of row.mark) (held vars.now))
        work.new result }
{
    match unused {
        Unused::Value => expand_item::give_value(text, param, row, on, vars, params, work),
        Unused::Nothing => Ok(on.row(0)),
    }
}

// What is given where the operand is used, or demanded. A number is never stored: reading refuses that.
pub fn finish(
    used: Used,
    text: &[u8],
    param: Param,
    operand: Operand,
    row: RowEnd,
    vars: &mut [u8],
    extent: Extent,
    params: &[u8],
    work: &mut [u8],
) -> Result<Row, Stop>
    requires { Name text.now param.from param.to × Listed params.now × Storable (param_of text.now param) work.old operand.units ×
        Holds extent.vars_room vars.old extent.vars_used × (row.units ≤ row_limit) × (2 * row_limit ≤ length work.old) }
    ensures { (homes : Text) → Finishes extent.vars_room row.units
        (placed row.units (finished used (lent_of extent.vars_room extent.shouts homes params.now) (param_of text.now param)
        (mark_of row.mark) (row_at work.old operand.units, held (take extent.vars_used vars.old), operand.of_none)))
        operand.next work.new vars.new result }
{
    let vars_used = extent.vars_used;
    let on = Onward {
        next: operand.next,
        vars_used,
        of_none: operand.of_none,
    };
    match used {
        Used::Given => admit(operand.units, row, on),
        Used::Stored if param.numbered => Err(Stop::Refused(Refusal::Unserved)),
        Used::Stored => {
            assign(
                &text[param.from..param.to],
                operand,
                row,
                vars,
                extent,
                work,
            )
        }
        Used::Removed { suffix, long } => {
            let removal = Removal {
                suffix,
                long,
                end: 2 * operand.units,
            };
            let on = Onward {
                of_none: false,
                ..on
            };
            cut(
                text,
                param,
                removal,
                row,
                on,
                &vars[..vars_used],
                params,
                work,
            )
        }
        Used::Demanded => Err(demand(operand.units, work)),
    }
}
