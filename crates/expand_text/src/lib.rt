// The expander, which calls itself: a text is a row of items, and an item may hold a text. Every call is on a later place of the text; the depth falls at
// each operand and arithmetic text, so that there is room for each open row.
#![tactic(auto)]

ghost use Rattle.std.specs.Prelude.{◌≡◌, ◌+◌, ◌*◌, ◌^◌, ◌<◌, ◌≤◌, length, take, drop};
ghost use Rattle.stages.specs.Numbers.{row_limit};
ghost use Rattle.stages.specs.Images.{held};
ghost use Rattle.stages.specs.Syntax.{arith};
ghost use Rattle.stages.specs.Read.{parts};
ghost use Rattle.stages.specs.Expand.{expand, parameter};
ghost use Rattle.row.specs.Marks.{mark_of};
ghost use Rattle.table.specs.Places.{Table, Listed};
ghost use Rattle.table.specs.Around.{lent_of};
ghost use Rattle.read_mode.specs.Modes.{mode_of, form_of};
ghost use Rattle.read_brace.specs.Shows.{Name, param_of};
ghost use Rattle.read_item.specs.After.{ItemAt};
ghost use Rattle.expand_add.specs.Steps.{placed, quoted, summing};
ghost use Rattle.table_store.specs.Holding.{Holds};
ghost use Rattle.expand_add.specs.Answers.{Ready, Says};
ghost use Rattle.expand_form.specs.Plans.{plan_of, missing_held};
ghost use Rattle.expand_operand.specs.Operands.{IsNamed};
ghost use Rattle.expand_text.specs.Items.{ItemSays, PutsRun, is_removal, message_at, behind, units_in_quotes};

use expand_add::answers::{Extent, Onward, Row, Stop};
use expand_form::{Plan, operand_mark, plan_of};
use expand_item::{give_home, give_length, give_sought, give_total, give_unit};
use expand_list::{give_list, is_of_none};
use expand_operand::{Operand, finish, settle, sum_up};
use read_brace::{Item, Param};
use read_item::{end_length, is_end, is_stop, item_at, mode_after};
use read_mode::{Cursor, Form, Mode};
use read_run::behind_literals;
use row::{Mark, RowEnd};
use text::numbers::ROW_LIMIT;
use text::refusal::Refusal;

// How many units quotes give whose text gave so many: an N before them, but nothing at all where `$@` of no parameters came and no unit.
fn units_in_quotes(count: usize, of_none: bool) -> usize
    requires { count ≤ row_limit }
    ensures { result ≡ units_in_quotes of_none count }
{
    if of_none && count == 0 { 0 } else { count + 1 }
}

// Why expanding stopped, where a message that is demanded stands so many bytes further behind.
fn behind(stop: Stop, front: usize) -> Stop
    requires { front + message_at stop < 2 ^ 64 }
    ensures { result ≡ behind front stop }
{
    if let Stop::Demanded { at, len } = stop {
        return Stop::Demanded {
            at: front + at,
            len,
        };
    }
    stop
}

// The text of a quote that is open: an N, and after it its bytes as Q. An N that is taken back stands behind the row. A message that the text demands
// waits behind the N.
#[cycle(expand_inner_expand_item_expand_quote_expand_sum_expand_text)]
fn expand_quote(
    text: &[u8],
    from: Cursor,
    units: usize,
    vars: &mut [u8],
    extent: Extent,
    homes: &[u8],
    params: &[u8],
    work: &mut [u8],
) -> Result<Row, Stop>
    requires { Ready text.now from.at from.mode from.depth units (length work.old) ×
        Holds extent.vars_room vars.old extent.vars_used × Table homes.now × Listed params.now }
    ensures { Says extent.vars_room text.now from.at units
        (λ q. quoted (lent_of extent.vars_room extent.shouts homes.now params.now) q units
        (held (take extent.vars_used vars.old)))
        (parts (mode_of from.mode) from.depth (drop from.at text.now)) work.new vars.new result }
{
    if units >= ROW_LIMIT {
        return Err(Stop::Refused(Refusal::TooManyUnits));
    }
    row::put_empty(work);
    let inside = RowEnd {
        mark: Mark::Q,
        units: units + 1,
    };
    match expand_text(
        text,
        from,
        inside,
        vars,
        extent,
        homes,
        params,
        &mut work[2..],
    ) {
        Ok(given) => {
            // whether the N stays is settled, and quotes around these are not asked for it
            let of_none = false;
            Ok(Row {
                units: units_in_quotes(given.units, given.of_none),
                of_none,
                ..given
            })
        }
        Err(stop) => Err(behind(stop, 2)),
    }
}

// A parameter, and what stands behind its name or its number.
#[derive(Clone, Copy)]
struct Named {
    param: Param,
    form: Form,
}

// Is the form a removal?
fn is_removal(form: Form) -> bool
    ensures { result ≡ is_removal form }
{
    matches!(form, Form::Suffix(_) | Form::Prefix(_))
}

// What a parameter's form asks for. A removal's value is not looked up for that, unless the switch is on.
fn plan_at(
    text: &[u8],
    named: Named,
    vars: &[u8],
    params: &[u8],
    shouts: bool,
) -> Result<Plan, Refusal>
    requires { Name text.now named.param.from named.param.to × Table vars.now × Listed params.now }
    ensures { result ≡ plan_of (form_of named.form)
        (missing_held vars.now params.now (param_of text.now named.param)) shouts }
{
    let Named { param, form } = named;
    if !shouts && is_removal(form) {
        return plan_of(form, None, shouts);
    }
    let found = expand_param::look_up(text, param, vars, params);
    plan_of(form, found, shouts)
}

// A parameter with a form, whose operand is the text. A message that the operand itself demands comes before what the form asks for.
#[cycle(expand_inner_expand_item_expand_quote_expand_sum_expand_text)]
fn expand_inner(
    text: &[u8],
    named: Named,
    from: Cursor,
    row: RowEnd,
    vars: &mut [u8],
    extent: Extent,
    homes: &[u8],
    params: &[u8],
    work: &mut [u8],
) -> Result<Row, Stop>
    requires { Ready text.now from.at from.mode from.depth 0 (length work.old) ×
        Holds extent.vars_room vars.old extent.vars_used × Table homes.now × Listed params.now × (row.units ≤ row_limit) ×
        Name text.now named.param.from named.param.to × IsNamed (param_of text.now named.param) }
    ensures { Says extent.vars_room text.now from.at row.units
        (λ q. placed row.units (parameter (lent_of extent.vars_room extent.shouts homes.now params.now)
        (λ k u. expand (lent_of extent.vars_room extent.shouts homes.now params.now) q k 0 u)
        (param_of text.now named.param) (form_of named.form) (mark_of row.mark) (held (take extent.vars_used vars.old))))
        (parts (mode_of from.mode) from.depth (drop from.at text.now)) work.new vars.new result }
{
    let vars_used = extent.vars_used;
    let param = named.param;
    match plan_at(text, named, &vars[..vars_used], params, extent.shouts)? {
        Plan::Unused(what) => {
            let next = read_line::read_text(text, from)?;
            let on = Onward {
                next,
                vars_used,
                of_none: false,
            };
            settle(what, text, param, row, on, &vars[..vars_used], params, work)
        }
        Plan::Used(what) => {
            let operand = RowEnd {
                mark: operand_mark(what, row.mark),
                units: 0,
            };
            let given = expand_text(text, from, operand, vars, extent, homes, params, work)?;
            let stands = Operand {
                units: given.units,
                next: given.next,
                of_none: given.of_none,
            };
            let stored = Extent {
                vars_used: given.vars_used,
                ..extent
            };
            finish(what, text, param, stands, row, vars, stored, params, work)
        }
    }
}

// An arithmetic text that begins at `at`.
#[cycle(expand_inner_expand_item_expand_quote_expand_sum_expand_text)]
fn expand_sum(
    text: &[u8],
    at: usize,
    depth: usize,
    row: RowEnd,
    vars: &mut [u8],
    extent: Extent,
    homes: &[u8],
    params: &[u8],
    work: &mut [u8],
) -> Result<Row, Stop>
    requires { Ready text.now at (Mode.Arith 0) depth 0 (length work.old) ×
        Holds extent.vars_room vars.old extent.vars_used × Table homes.now × Listed params.now × (row.units ≤ row_limit) }
    ensures { Says extent.vars_room text.now at row.units
        (λ q. placed row.units (summing (lent_of extent.vars_room extent.shouts homes.now params.now) q (mark_of row.mark)
        (held (take extent.vars_used vars.old))))
        (parts (arith 0) depth (drop at text.now)) work.new vars.new result }
{
    let from = Cursor {
        at,
        mode: Mode::Arith(0),
        depth,
    };
    let inside = RowEnd {
        mark: Mark::Q,
        units: 0,
    };
    let summed = expand_text(text, from, inside, vars, extent, homes, params, work)?;
    let after = Extent {
        vars_used: summed.vars_used,
        ..extent
    };
    sum_up(summed.units, summed.next, row, vars, after, work)
}

// The item that stands where the text is read: its own row.
#[cycle(expand_inner_expand_item_expand_quote_expand_sum_expand_text)]
fn expand_item(
    item: Item,
    text: &[u8],
    from: Cursor,
    row: RowEnd,
    vars: &mut [u8],
    extent: Extent,
    homes: &[u8],
    params: &[u8],
    work: &mut [u8],
) -> Result<Row, Stop>
    requires { ItemAt text.now from item × Ready text.now from.at from.mode from.depth row.units (length work.old) ×
        Holds extent.vars_room vars.old extent.vars_used × Table homes.now × Listed params.now }
    ensures { ItemSays (lent_of extent.vars_room extent.shouts homes.now params.now) text.now from row item
        (held (take extent.vars_used vars.old))
        work.new vars.new result }
{
    let vars_used = extent.vars_used;
    match item {
        Item::Stop(next) => Ok(Row {
            units: 0,
            next,
            vars_used,
            of_none: false,
        }),
        Item::Byte { quoted, byte, next } => {
            let literal = RowEnd {
                mark: row::literal_mark(quoted, row.mark),
                ..row
            };
            let on = Onward {
                next,
                vars_used,
                of_none: false,
            };
            give_unit(byte, literal, on, work)
        }
        Item::Paren { byte, parens: _ } => {
            let on = Onward {
                next: from.at + 1,
                vars_used,
                of_none: false,
            };
            give_unit(byte, row, on, work)
        }
        Item::Quote { mode, next } => {
            let inside = Cursor {
                at: next,
                mode,
                depth: from.depth,
            };
            expand_quote(text, inside, row.units, vars, extent, homes, params, work)
        }
        Item::Value { param, next } => {
            let on = Onward {
                next,
                vars_used,
                of_none: false,
            };
            give_sought(
                text,
                param,
                row,
                on,
                &vars[..vars_used],
                params,
                work,
                extent.shouts,
            )
        }
        Item::Count { param, next } => {
            let on = Onward {
                next,
                vars_used,
                of_none: false,
            };
            give_length(
                text,
                param,
                row,
                on,
                &vars[..vars_used],
                params,
                work,
                extent.shouts,
            )
        }
        Item::Total { next } => {
            let on = Onward {
                next,
                vars_used,
                of_none: false,
            };
            give_total(row, on, params, work)
        }
        Item::Spread { apart, next } => {
            let on = Onward {
                next,
                vars_used,
                of_none: is_of_none(apart, params),
            };
            give_list(apart, row, on, &vars[..vars_used], params, work)
        }
        Item::Inner {
            param,
            form,
            mode,
            next,
        } => {
            let operand = Cursor {
                at: next,
                mode,
                depth: from.depth - 1,
            };
            let named = Named { param, form };
            expand_inner(text, named, operand, row, vars, extent, homes, params, work)
        }
        Item::Sum { next } => {
            expand_sum(
                text,
                next,
                from.depth - 1,
                row,
                vars,
                extent,
                homes,
                params,
                work,
            )
        }
        Item::Home(to) => {
            let start = from.at + 1;
            let on = Onward {
                next: to,
                vars_used,
                of_none: false,
            };
            give_home(&text[start..to], row, on, &vars[..vars_used], homes, work)
        }
    }
}

// Adds a run of literal bytes, each with the row's mark, and says whether there is room for all of them; if not, nothing is written.
fn put_run(run: &[u8], row: RowEnd, area: &mut [u8]) -> bool
    requires { (row.units ≤ row_limit) × (2 * row_limit ≤ length area.old + 2 * row.units) }
    ensures { PutsRun (mark_of row.mark) row.units run.now area.old area.new result }
{
    let room = ROW_LIMIT - row.units;
    if run.len() > room {
        return false;
    }
    row::put_marked(run, row.mark, area);
    true
}

// A text that has been read, from its place on, as a row at the front of work, where the row's units before it end. A message that an item demands waits
// behind the units that were given before it.
#[cycle(expand_inner_expand_item_expand_quote_expand_sum_expand_text)]
pub fn expand_text(
    text: &[u8],
    from: Cursor,
    row: RowEnd,
    vars: &mut [u8],
    extent: Extent,
    homes: &[u8],
    params: &[u8],
    work: &mut [u8],
) -> Result<Row, Stop>
    requires { Ready text.now from.at from.mode from.depth row.units (length work.old) ×
        Holds extent.vars_room vars.old extent.vars_used × Table homes.now × Listed params.now }
    ensures { Says extent.vars_room text.now from.at row.units
        (λ t. expand (lent_of extent.vars_room extent.shouts homes.now params.now) t (mark_of row.mark) row.units
        (held (take extent.vars_used vars.old)))
        (parts (mode_of from.mode) from.depth (drop from.at text.now)) work.new vars.new result }
{
    let mark = row.mark;
    let mut n: usize = 0;
    let mut i = from.at;
    let mut inside = from.mode;
    let mut left = extent.vars_used;
    let mut of_none = false;
    loop {
        let passed = behind_literals(
            text,
            Cursor {
                at: i,
                mode: inside,
                depth: from.depth,
            },
        );
        let place = passed.at;
        let mode = passed.mode;
        let here = Cursor {
            at: place,
            mode,
            depth: from.depth,
        };
        let before = RowEnd {
            mark,
            units: row.units + n,
        };
        let front = 2 * n;
        if !put_run(&text[i..place], before, &mut work[front..]) {
            return Err(Stop::Refused(Refusal::TooManyUnits));
        }
        let ran = n + (place - i);
        if is_end(text, place, mode) {
            return Ok(Row {
                units: ran,
                next: place + end_length(mode),
                vars_used: left,
                of_none,
            });
        }
        let read = item_at(text, here);
        let item = read?;
        let end = RowEnd {
            mark,
            units: row.units + ran,
        };
        let held = Extent {
            vars_used: left,
            ..extent
        };
        let start = 2 * ran;
        let given = match expand_item(
            item,
            text,
            here,
            end,
            vars,
            held,
            homes,
            params,
            &mut work[start..],
        ) {
            Ok(given) => given,
            Err(stop) => return Err(behind(stop, start)),
        };
        n = ran + given.units;
        i = given.next;
        left = given.vars_used;
        of_none = of_none || given.of_none;
        if is_stop(read) {
            return Ok(Row {
                units: n,
                next: i,
                vars_used: left,
                of_none,
            });
        }
        inside = mode_after(read, mode);
    }
}
