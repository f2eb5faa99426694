// A line's assignments, one after the other: each value is expanded, and its bytes without marks are stored under the name, so that the next one sees
// them. No value is split, and none is held against paths. Places belong to the loop over the assignments alone.
#![tactic(auto)]

ghost use Rattle.std.specs.Prelude.{take, drop};
ghost use Rattle.stages.specs.Images.{held};
ghost use Rattle.stages.specs.Assign.{an_assignment};
ghost use Rattle.table.specs.Around.{lent_of};
ghost use Rattle.assign_line.specs.Answers.{line_outcome, ValueReady, AssignmentReady, AssignmentSays, LineReady, LineSays};

use expand_add::answers::{Extent, LineStop, Stop};
use read_mode::{Cursor, Mode};
use row::{Mark, RowEnd};
use table_store::NoRoom;
use text::numbers;
use text::refusal::Refusal;

// What one assignment leaves: the variables' image is the first `vars_used` bytes of their buffer, and the line goes on at `next`.
#[derive(Clone, Copy)]
struct Assigned {
    next: usize,
    vars_used: usize,
}

// The assignment at a place, whose `=` stands at `equals`: its value is expanded as one row, and stored. "a store too long is 20".
fn put_value(
    line: &[u8],
    place: usize,
    equals: usize,
    vars: &mut [u8],
    extent: Extent,
    homes: &[u8],
    params: &[u8],
    work: &mut [u8],
) -> Result<Assigned, Stop>
    requires { ValueReady line.now place equals vars.old extent.vars_used extent.vars_room homes.now params.now work.old }
    ensures { AssignmentSays (lent_of extent.vars_room extent.shouts homes.now params.now)
        (an_assignment (drop place line.now)) line.now place (held (take extent.vars_used vars.old))
        vars.new work.new result }
{
    let value = Cursor {
        at: equals + 1,
        mode: Mode::Value(true),
        depth: numbers::DEPTH_LIMIT,
    };
    let start = RowEnd {
        mark: Mark::L,
        units: 0,
    };
    let row = expand_text::expand_text(line, value, start, vars, extent, homes, params, work)?;
    let name = &line[place..equals];
    let left = Extent {
        vars_used: row.vars_used,
        ..extent
    };
    match expand_operand::store_operand(name, row.units, vars, left, work) {
        Ok(vars_used) => Ok(Assigned {
            next: row.next,
            vars_used,
        }),
        Err(NoRoom) => Err(Stop::Refused(Refusal::VariableRoom)),
    }
}

// The assignment at a place. A word that is none is not met here: reading refuses it.
fn put_assignment(
    line: &[u8],
    place: usize,
    vars: &mut [u8],
    extent: Extent,
    homes: &[u8],
    params: &[u8],
    work: &mut [u8],
) -> Result<Assigned, Stop>
    requires { AssignmentReady line.now place vars.old extent.vars_used extent.vars_room homes.now params.now work.old }
    ensures { AssignmentSays (lent_of extent.vars_room extent.shouts homes.now params.now)
        (an_assignment (drop place line.now)) line.now place (held (take extent.vars_used vars.old))
        vars.new work.new result }
{
    let Some(equals) = read_line::assignment_at(line, place) else {
        return Err(Stop::Refused(Refusal::BadSyntax));
    };
    put_value(line, place, equals, vars, extent, homes, params, work)
}

// Works out a line of assignments that has been read: "Assignments take effect left to right, each seen by the next". The image of the variables stands at
// the front of `vars`; the answer is its length.
pub fn assign_line(
    line: &[u8],
    vars: &mut [u8],
    extent: Extent,
    homes: &[u8],
    params: &[u8],
    work: &mut [u8],
) -> Result<usize, LineStop>
    requires { LineReady line.now vars.old extent.vars_used extent.vars_room homes.now params.now work.old }
    ensures { LineSays extent.vars_room
        (line_outcome (lent_of extent.vars_room extent.shouts homes.now params.now) line.now
        (held (take extent.vars_used vars.old))) vars.new work.new result }
{
    let mut at: usize = 0;
    let mut vars_used = extent.vars_used;
    while let Some(place) = read_line::next_word(line, at) {
        let reached = Extent {
            vars_used,
            ..extent
        };
        match put_assignment(line, place, vars, reached, homes, params, work) {
            Err(stop) => return Err(LineStop { stop, place }),
            Ok(left) => {
                at = left.next;
                vars_used = left.vars_used;
            }
        }
    }
    Ok(vars_used)
}
