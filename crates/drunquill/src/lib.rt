// Drunquill's seven jobs. Each takes any bytes in any buffers and answers by document 01's numbers. Inside, a line is worked on in copies of the
// variables and the output, which are handed over at the end, so that a refusal has touched neither.
#![tactic(auto)]

ghost use Rattle.std.specs.Prelude.{[]};
ghost use Rattle.stages.specs.Call.{expander, normaliser, assigner, quoter};
ghost use Rattle.stages.specs.Updates.{inserter, deleter};
ghost use Rattle.stages.specs.Cost.{coster};
ghost use Rattle.call_check.specs.Calls.{given};
ghost use Rattle.call_deliver.specs.Hands.{Gives};
ghost use Rattle.call_update.specs.Hands.{updating, Hands};
ghost use Rattle.call_cost.specs.Hands.{costing, Hands as Reports};
ghost use Rattle.drunquill.specs.Hands.{Quotes};

use call_check::{Asked, Job};
use call_cost::Costed;
use call_deliver::Answer;
use call_update::Updated;
use text::numbers;
use text::refusal::Refusal;

// The quoter's answer: "The quoter has neither variables nor work area." Laid out as C lays it out.
#[repr(C)]
#[derive(Clone, Copy)]
pub struct QuoteAnswer {
    pub number: u8,
    pub place: usize,
    pub out_len: usize,
}

// The expander: the line's fields, an image, to `out`. The variables are an image in the first `vars_used` bytes of their buffer, and may change; an unset
// one that is looked up is refused if `shouts` is set. Their new image may be shorter than the one before: bytes behind it are zero up to the used length
// that was given. On refusal the variables and the output hold their old bytes; the work area is zero throughout after every call. On 13 the message that
// the line demands comes to the front of `message`, cut to it; every other byte of that buffer stays, as all of them do on every other answer.
pub fn expand(
    line: &[u8],
    vars: &mut [u8],
    asked: Asked,
    homes: &[u8],
    params: &[u8],
    paths: &[u8],
    work: &mut [u8],
    out: &mut [u8],
    message: &mut [u8],
) -> Answer
    ensures { Gives
        (expander (given line.now vars.old asked.vars_used asked.shouts homes.now params.now
        paths.now work.old out.old message.old)) result vars.new work.new out.new
        message.new }
{
    let expander = Job::Expander;
    call_run::answer_call(
        expander, line, vars, asked, homes, params, paths, work, out, message,
    )
}

// The normaliser: the line's fields as a quoted line to `out`, all else as in the expander. Each job has its function, as the interface has.
pub fn normalise(
    line: &[u8],
    vars: &mut [u8],
    asked: Asked,
    homes: &[u8],
    params: &[u8],
    paths: &[u8],
    work: &mut [u8],
    out: &mut [u8],
    message: &mut [u8],
) -> Answer
    ensures { Gives
        (normaliser (given line.now vars.old asked.vars_used asked.shouts homes.now params.now
        paths.now work.old out.old message.old)) result vars.new work.new out.new
        message.new }
{
    let normaliser = Job::Normaliser;
    call_run::answer_call(
        normaliser, line, vars, asked, homes, params, paths, work, out, message,
    )
}

// The assigner: a line "whose every word is a name, a bare `=` and a value" changes the variables from left to right, or on refusal not at all. The output
// length is 0; the bytes behind the variables' new image, work area and message as in the expander. The job takes neither paths nor output: its stage does
// not look at them, and they stand as empty texts here.
pub fn assign(
    line: &[u8],
    vars: &mut [u8],
    asked: Asked,
    homes: &[u8],
    params: &[u8],
    work: &mut [u8],
    message: &mut [u8],
) -> Answer
    ensures { Gives
        (assigner (given line.now vars.old asked.vars_used asked.shouts homes.now params.now []
        work.old [] message.old)) result vars.new work.new [] message.new }
{
    call_assign::answer_assign(line, vars, asked, homes, params, work, message)
}

// The quoter: an image of fields as a quoted line to `out`, whose bytes after the line stay; on refusal all of them do.
pub fn quote(fields: &[u8], out: &mut [u8]) -> QuoteAnswer
    ensures { Quotes (quoter fields.now out.old) result out.new }
{
    match quote::quote_fields(fields, out) {
        Ok(out_len) => QuoteAnswer {
            number: numbers::ACCEPTED,
            place: 0,
            out_len,
        },
        Err(error) => QuoteAnswer {
            number: Refusal::from(error).number(),
            place: 0,
            out_len: 0,
        },
    }
}

// A path inserted: in its order into the image that the first `paths_used` bytes of a buffer are. Bytes before its place and behind the new image stay; on
// refusal all bytes do. Every answer gives the used length.
pub fn insert_path(paths: &mut [u8], paths_used: usize, path: &[u8]) -> Updated
    ensures { Hands (updating paths.old paths_used path.now)
        (inserter (updating paths.old paths_used path.now)) result paths.new }
{
    call_update::insert_path(paths, paths_used, path)
}

// A path deleted: bytes before its place stay, behind the new image come zeros up to the used length that was given, and bytes beyond it stay; on refusal all
// bytes do.
pub fn delete_path(paths: &mut [u8], paths_used: usize, path: &[u8]) -> Updated
    ensures { Hands (updating paths.old paths_used path.now)
        (deleter (updating paths.old paths_used path.now)) result paths.new }
{
    call_update::delete_path(paths, paths_used, path)
}

// The coster: how many pairs of a place in the pattern and a place in the text can be reached, which is what matching them may cost. All bytes of the pattern
// are active. The work area is zero throughout after every call; a refusal reports 0.
pub fn cost(pattern: &[u8], text: &[u8], work: &mut [u8]) -> Costed
    ensures { Reports (coster (costing pattern.now text.now work.old)) result work.new }
{
    call_cost::cost(pattern, text, work)
}
