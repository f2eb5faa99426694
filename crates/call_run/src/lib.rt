// A job that takes a line, on copies: the variables' image is copied, the line is expanded with the copy and into an image of the fields, and what came of
// it is handed over at the end. Each copy is an array that one function holds and lends to the next. A demanded message waits in the work area until all else
// is answered; only then it is handed over, and the area is cleared.
#![tactic(auto)]

ghost use Rattle.std.specs.Prelude.{◌≡◌, length};
ghost use Rattle.stages.specs.Numbers.{image_limit};
ghost use Rattle.stages.specs.Bytes.{Text};
ghost use Rattle.call_check.specs.Calls.{given, answer_of};
ghost use Rattle.call_check.specs.Checks.{Passed};
ghost use Rattle.call_deliver.specs.Hands.{Gives};
ghost use Rattle.call_deliver.specs.Awaits.{Awaits};
ghost use Rattle.call_run.specs.Drafts.{worded, draft, Drafting, DraftOf};

use call_check::{Asked, Job};
use call_deliver::{Answer, Draft};
use expand_add::answers::{Extent, LineStop, Stop};
use text::numbers;
use text::refusal::Refusal;

// What holds for a whole call.
#[derive(Clone, Copy)]
struct Call {
    job: Job,
    extent: Extent,
}

// What came of a line: so many bytes of the output are written, and so many of the variables' copy are their new image.
#[derive(Clone, Copy)]
struct Delivered {
    out_len: usize,
    vars_used: usize,
}

// The line, once the variables are copied: its fields' image stands in `image`, and what the job gives of it in the output, if the call is accepted.
fn on_image(
    call: Call,
    line: &[u8],
    copy: &mut [u8],
    homes: &[u8],
    params: &[u8],
    paths: &[u8],
    work: &mut [u8],
    out: &mut [u8],
    image: &mut [u8],
) -> Result<Delivered, LineStop>
    requires drafting { Drafting call.job call.extent.vars_room call.extent.shouts call.extent.vars_used line.now copy.old homes.now
        params.now paths.now work.old (length out.old) }
    requires image_len { length image.old ≡ image_limit }
    ensures { DraftOf call.extent.vars_room
        (draft call.job (length out.old)
        (worded call.job call.extent.vars_room call.extent.shouts call.extent.vars_used line.now copy.old
        homes.now params.now paths.now (length out.old))) copy.new work.new out.old
        out.new result }
{
    let size = call_check::room(call.job, out.len());
    let done = expand_line::expand_line(
        line,
        copy,
        call.extent,
        homes,
        params,
        paths,
        work,
        &mut image[..size],
    )?;
    match call_deliver::deliver(call.job, &image[..done.used], out) {
        Ok(out_len) => Ok(Delivered {
            out_len,
            vars_used: done.vars_used,
        }),
        Err(error) => Err(LineStop {
            stop: Stop::Refused(Refusal::from(error)),
            place: 0,
        }),
    }
}

// Holds the fields' image.
fn with_image(
    call: Call,
    line: &[u8],
    copy: &mut [u8],
    homes: &[u8],
    params: &[u8],
    paths: &[u8],
    work: &mut [u8],
    out: &mut [u8],
) -> Result<Delivered, LineStop>
    requires { Drafting call.job call.extent.vars_room call.extent.shouts call.extent.vars_used line.now copy.old homes.now
        params.now paths.now work.old (length out.old) }
    ensures { DraftOf call.extent.vars_room
        (draft call.job (length out.old)
        (worded call.job call.extent.vars_room call.extent.shouts call.extent.vars_used line.now copy.old
        homes.now params.now paths.now (length out.old))) copy.new work.new out.old
        out.new result }
{
    let mut image = [0u8; numbers::IMAGE_LIMIT];
    on_image(
        call, line, copy, homes, params, paths, work, out, &mut image,
    )
}

// The call once it has passed the checks: the variables are copied, and their new image comes back if the output is written.
fn on_copy(
    call: Call,
    line: &[u8],
    vars: &mut [u8],
    homes: &[u8],
    params: &[u8],
    paths: &[u8],
    work: &mut [u8],
    out: &mut [u8],
    copy: &mut [u8],
) -> Draft
    requires passed { (message : Text) → Passed call.job
        (given line.now vars.old call.extent.vars_used call.extent.shouts homes.now params.now paths.now work.old out.old message) }
    requires vars_room_value { (call.extent.vars_room ≡ length vars.old) × (length copy.old ≡ image_limit) }
    ensures { Awaits
        (λ message. answer_of call.job (given line.now vars.old call.extent.vars_used call.extent.shouts homes.now
        params.now paths.now work.old out.old message)) result vars.new work.new
        out.new }
{
    let used = call.extent.vars_used;
    text_copy::copy_in(&vars[..used], copy);
    match with_image(call, line, copy, homes, params, paths, work, out) {
        Err(stop) => call_deliver::stop(stop, used),
        Ok(done) => Draft {
            answer: call_deliver::accept(done.out_len, &copy[..done.vars_used], vars, used),
            at: 0,
            len: 0,
        },
    }
}

// Holds the variables' copy.
fn with_copy(
    call: Call,
    line: &[u8],
    vars: &mut [u8],
    homes: &[u8],
    params: &[u8],
    paths: &[u8],
    work: &mut [u8],
    out: &mut [u8],
) -> Draft
    requires passed { (message : Text) → Passed call.job
        (given line.now vars.old call.extent.vars_used call.extent.shouts homes.now params.now paths.now work.old out.old message) }
    requires vars_room_value { call.extent.vars_room ≡ length vars.old }
    ensures { Awaits
        (λ message. answer_of call.job (given line.now vars.old call.extent.vars_used call.extent.shouts homes.now
        params.now paths.now work.old out.old message)) result vars.new work.new
        out.new }
{
    let mut copy = [0u8; numbers::IMAGE_LIMIT];
    on_copy(call, line, vars, homes, params, paths, work, out, &mut copy)
}

// The job from its checks on; the message is left to be handed over, and the work area to be cleared.
fn from_checks(
    job: Job,
    line: &[u8],
    vars: &mut [u8],
    asked: Asked,
    homes: &[u8],
    params: &[u8],
    paths: &[u8],
    work: &mut [u8],
    out: &mut [u8],
) -> Draft
    ensures { Awaits
        (λ message. answer_of job (given line.now vars.old asked.vars_used asked.shouts homes.now params.now
        paths.now work.old out.old message)) result vars.new work.new out.new }
{
    match call_check::check(
        job,
        line,
        vars,
        asked.vars_used,
        homes,
        params,
        paths,
        work,
        out,
    ) {
        Err(refused) => call_deliver::refuse_with(
            refused.why,
            refused.place,
            asked.vars_used,
            0,
            0,
        ),
        Ok(()) => {
            let extent = Extent {
                vars_used: asked.vars_used,
                vars_room: vars.len(),
                shouts: asked.shouts,
            };
            with_copy(
                Call { job, extent },
                line,
                vars,
                homes,
                params,
                paths,
                work,
                out,
            )
        }
    }
}

// The job whole: "The work area is zero throughout after every call of expander or normaliser, number 1 included." The message is handed over before that.
pub fn answer_call(
    job: Job,
    line: &[u8],
    vars: &mut [u8],
    asked: Asked,
    homes: &[u8],
    params: &[u8],
    paths: &[u8],
    work: &mut [u8],
    out: &mut [u8],
    message: &mut [u8],
) -> Answer
    ensures { Gives
        (answer_of job (given line.now vars.old asked.vars_used asked.shouts homes.now params.now
        paths.now work.old out.old message.old)) result vars.new work.new out.new
        message.new }
{
    let draft = from_checks(job, line, vars, asked, homes, params, paths, work, out);
    call_deliver::hand_over(draft, work, message)
}
