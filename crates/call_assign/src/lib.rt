// The job that takes a line of assignments, on a copy: the variables' image is copied, the assignments take effect on the copy, and its new image is handed
// over at the end. So "A refusal undoes all." The copy is an array that one function holds and lends to the next.
#![tactic(auto)]

ghost use Rattle.std.specs.Prelude.{◌≡◌, [], length};
ghost use Rattle.stages.specs.Numbers.{image_limit};
ghost use Rattle.stages.specs.Bytes.{Text};
ghost use Rattle.stages.specs.Call.{assigner};
ghost use Rattle.call_check.specs.Calls.{given};
ghost use Rattle.call_check.specs.Checks.{AssignPassed};
ghost use Rattle.call_deliver.specs.Hands.{Gives};
ghost use Rattle.call_deliver.specs.Awaits.{Awaits};

use call_check::Asked;
use call_deliver::{Answer, Draft};
use expand_add::answers::Extent;
use text::numbers;

// The call once it has passed the checks: the variables are copied, and their new image comes back if no assignment is refused. Apart from `call_run`: other
// buffers, other checks and another worker are lent, and one function over a closure that captures five buffers would be no plainer.
fn on_copy(
    line: &[u8],
    vars: &mut [u8],
    extent: Extent,
    homes: &[u8],
    params: &[u8],
    work: &mut [u8],
    copy: &mut [u8],
) -> Draft
    requires assign_passed { (message : Text) → AssignPassed
        (given line.now vars.old extent.vars_used extent.shouts homes.now params.now [] work.old [] message) }
    requires vars_room_value { (extent.vars_room ≡ length vars.old) × (length copy.old ≡ image_limit) }
    ensures { Awaits
        (λ message. assigner (given line.now vars.old extent.vars_used extent.shouts homes.now params.now []
        work.old [] message)) result vars.new work.new [] }
{
    let used = extent.vars_used;
    text_copy::copy_in(&vars[..used], copy);
    match assign_line::assign_line(line, copy, extent, homes, params, work) {
        Err(stop) => call_deliver::stop(stop, used),
        Ok(left) => Draft {
            answer: call_deliver::accept(0, &copy[..left], vars, used),
            at: 0,
            len: 0,
        },
    }
}

// Holds the variables' copy.
fn with_copy(
    line: &[u8],
    vars: &mut [u8],
    extent: Extent,
    homes: &[u8],
    params: &[u8],
    work: &mut [u8],
) -> Draft
    requires assign_passed { (message : Text) → AssignPassed
        (given line.now vars.old extent.vars_used extent.shouts homes.now params.now [] work.old [] message) }
    requires vars_room_value { extent.vars_room ≡ length vars.old }
    ensures { Awaits
        (λ message. assigner (given line.now vars.old extent.vars_used extent.shouts homes.now params.now []
        work.old [] message)) result vars.new work.new [] }
{
    let mut copy = [0u8; numbers::IMAGE_LIMIT];
    on_copy(line, vars, extent, homes, params, work, &mut copy)
}

// The job from its checks on; the message is left to be handed over, and the work area to be cleared.
fn from_checks(
    line: &[u8],
    vars: &mut [u8],
    asked: Asked,
    homes: &[u8],
    params: &[u8],
    work: &mut [u8],
) -> Draft
    ensures { Awaits
        (λ message. assigner (given line.now vars.old asked.vars_used asked.shouts homes.now params.now []
        work.old [] message)) result vars.new work.new [] }
{
    match call_check::check_assignments(line, vars, asked.vars_used, homes, params, work) {
        Err(refused) => call_deliver::refuse_with(
            refused.why,
            refused.place,
            asked.vars_used,
            0,
            0,
        ),
        Ok(()) => {
            let extent = Extent {
                vars_used: asked.vars_used,
                vars_room: vars.len(),
                shouts: asked.shouts,
            };
            with_copy(line, vars, extent, homes, params, work)
        }
    }
}

// The job whole. It is lent neither paths nor output, and its stage does not look at them: they stand as empty texts in the contract.
pub fn answer_assign(
    line: &[u8],
    vars: &mut [u8],
    asked: Asked,
    homes: &[u8],
    params: &[u8],
    work: &mut [u8],
    message: &mut [u8],
) -> Answer
    ensures { Gives
        (assigner (given line.now vars.old asked.vars_used asked.shouts homes.now params.now []
        work.old [] message.old)) result vars.new work.new [] message.new }
{
    let draft = from_checks(line, vars, asked, homes, params, work);
    call_deliver::hand_over(draft, work, message)
}
