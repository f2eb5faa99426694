// What a form of a parameter asks for. "Missing" is tested here, once, before the operand is looked at.
#![tactic(auto)]

ghost use Rattle.std.specs.Prelude.{◌≡◌, ◌&&◌};
ghost use Rattle.stages.specs.Outcome.{pick};
ghost use Rattle.stages.specs.Syntax.{no_colon, removal};
ghost use Rattle.text.specs.Cases.{colon_of, side_of, reach_of};
ghost use Rattle.read_mode.specs.Modes.{form_of};
ghost use Rattle.row.specs.Marks.{mark_of};
ghost use Rattle.expand_param.specs.Holding.{missing_in};
ghost use Rattle.expand_form.specs.Plans.{plan_of, operand_mark};

use read_mode::Form;
use row::Mark;
use table::Part;
use text::refusal::Refusal;

// What is to be done for a parameter: "An unused operand is not expanded."
#[derive(Clone, Copy)]
pub enum Plan {
    Unused(Unused),
    Used(Used),
}

// What is given where the operand is not used.
#[derive(Clone, Copy)]
pub enum Unused {
    Value,
    Nothing,
}

// What is done with the operand where it is used.
#[derive(Clone, Copy)]
pub enum Used {
    // it is given
    Given,
    // it is stored, and then the value is given
    Stored,
    // it is the pattern of a removal, and what that leaves of the value is given
    Removed { suffix: bool, long: bool },
    // its bytes are the message of the refusal
    Demanded,
}

// "Missing": unset, or with the colon also empty.
fn is_missing(colon: bool, found: Option<Part>) -> bool
    ensures { result ≡ missing_in found (colon_of colon) }
{
    match found {
        None => true,
        Some(part) => colon && part.from == part.to,
    }
}

// "A removal is refused before its operand is expanded.": of a value that is unset, the switch being on.
fn is_refused(found: Option<Part>, shouts: bool) -> bool
    ensures { result ≡ (shouts && missing_in found no_colon) }
{
    shouts && is_missing(false, found)
}

// What a removal asks for: its operand is used, or it is refused.
fn removal_plan(
    suffix: bool,
    long: bool,
    found: Option<Part>,
    shouts: bool,
) -> Result<Plan, Refusal>
    ensures { result ≡ plan_of (removal (side_of suffix) (reach_of long)) (missing_in found) shouts }
{
    if is_refused(found, shouts) {
        return Err(Refusal::UnsetName);
    }
    Ok(Plan::Used(Used::Removed { suffix, long }))
}

// What a form asks for whose operand is used so where the value is missing, and else the value is given.
fn when_missing(missing: bool, used: Used) -> Plan
    ensures { result ≡ pick missing (Plan.Used used) (Plan.Unused Unused.Value) }
{
    if missing {
        return Plan::Used(used);
    }
    Plan::Unused(Unused::Value)
}

// What a form asks for, where the value was found or not, and the switch is on or off; or it is refused, the value being unset.
pub fn plan_of(form: Form, found: Option<Part>, shouts: bool) -> Result<Plan, Refusal>
    ensures { result ≡ plan_of (form_of form) (missing_in found) shouts }
{
    match form {
        Form::Minus(colon) => Ok(when_missing(is_missing(colon, found), Used::Given)),
        Form::Equals(colon) => Ok(when_missing(is_missing(colon, found), Used::Stored)),
        Form::Query(colon) => Ok(when_missing(is_missing(colon, found), Used::Demanded)),
        Form::Plus(colon) => {
            if is_missing(colon, found) {
                return Ok(Plan::Unused(Unused::Nothing));
            }
            Ok(Plan::Used(Used::Given))
        }
        Form::Suffix(long) => removal_plan(true, long, found, shouts),
        Form::Prefix(long) => removal_plan(false, long, found, shouts),
    }
}

// The mark of the literal bytes of an operand: "Bare literal bytes of an operand of `-` or `+` become E"; those of a pattern stay active.
pub fn operand_mark(used: Used, mark: Mark) -> Mark
    ensures { mark_of result ≡ operand_mark used (mark_of mark) }
{
    match used {
        Used::Given => row::expanded_mark(mark),
        Used::Stored | Used::Demanded => mark,
        Used::Removed { .. } => Mark::L,
    }
}
