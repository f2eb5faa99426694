// What came of a call is handed over: the output is written, and the variables' new image is copied with the answer, or neither; and on 13 the message is.
// "On acceptance, bytes behind either new image are unchanged" holds of the output, and of the variables beyond the used length that was given: up to it,
// zeros come behind an image that is shorter than the one before.
#![tactic(auto)]

ghost use Rattle.std.specs.Prelude.{◌≡◌, ◌+◌, ◌≤◌, length, take};
ghost use Rattle.stages.specs.Call.{over};
ghost use Rattle.std.proofs.Math.Option.{some};
ghost use Rattle.stages.specs.Images.{fields_of, held_texts};
ghost use Rattle.quote.specs.Answers.{quoting_of};
ghost use Rattle.call_check.specs.Calls.{room_of};
ghost use Rattle.call_deliver.specs.Hands.{refused_as, writing_of, Accepts};
ghost use Rattle.call_deliver.specs.Awaits.{refused_with, stopped_as, HandsOver};

use call_check::Job;
use expand_add::answers::{LineStop, Stop};
use quote::QuoteError;
use text::numbers;
use text::refusal::{Reason, Refusal};

// "The answer is a number, a place, the output length and the variables' used length."; E7: "the answer gives the length written" of the message. Laid out as
// C lays it out, so that the jobs for C hand it on.
#[repr(C)]
#[derive(Clone, Copy)]
pub struct Answer {
    pub number: u8,
    pub place: usize,
    pub out_len: usize,
    pub vars_used: usize,
    pub message_len: usize,
}

// What a call comes to before its message is handed over: the message is the work area's `len` bytes from `at` on, none of them if nothing is demanded.
#[derive(Clone, Copy)]
pub struct Draft {
    pub answer: Answer,
    pub at: usize,
    pub len: usize,
}

// A refusal: "the output length is 0, the used length is the one given"; no message is written yet.
pub fn refuse<R: Reason>(why: R, place: usize, vars_used: usize) -> Answer
    ensures { result ≡ refused_as (R.number_of why) place vars_used }
{
    Answer {
        number: why.as_number(),
        place,
        out_len: 0,
        vars_used,
        message_len: 0,
    }
}

// A refusal with a message: the work area's `len` bytes from `at` on.
pub fn refuse_with<R: Reason>(
    why: R,
    place: usize,
    vars_used: usize,
    at: usize,
    len: usize,
) -> Draft
    ensures { result ≡ refused_with (R.number_of why) place vars_used at len }
{
    Draft {
        answer: refuse(why, place, vars_used),
        at,
        len,
    }
}

// The refusal of a line that stopped: what it demands is its message.
pub fn stop(why: LineStop, vars_used: usize) -> Draft
    ensures { result ≡ stopped_as why vars_used }
{
    let place = why.place;
    match why.stop {
        Stop::Refused(refusal) => refuse_with(refusal, place, vars_used, 0, 0),
        Stop::Demanded { at, len } => { refuse_with(Refusal::Demanded, place, vars_used, at, len) }
    }
}

// An acceptance: the variables' new image comes to the front of their buffer, and "bytes behind the new image are zero up to the old used length (the one
// given), and kept beyond it".
pub fn accept(out_len: usize, image: &[u8], vars: &mut [u8], vars_used: usize) -> Answer
    requires { (length image.now ≤ length vars.old) × (vars_used ≤ length vars.old) }
    ensures { Accepts out_len vars_used image.now vars.old result vars.new }
{
    text_copy::copy_in(image, vars);
    let len = image.len();
    if len < vars_used {
        text_copy::fill_zero(&mut vars[len..vars_used]);
    }
    Answer {
        number: numbers::ACCEPTED,
        place: 0,
        out_len,
        vars_used: len,
        message_len: 0,
    }
}

// Writes what the job gives of a fields image to the output, if it has room. The job is a name and no closure, since the contracts of all callers name it.
pub fn deliver(job: Job, image: &[u8], out: &mut [u8]) -> Result<usize, QuoteError>
    requires image_len_bound { length image.now ≤ room_of job (length out.old) }
    requires image_value { fields_of image.now ≡ some (held_texts image.now) }
    ensures { quoting_of result out.new ≡ writing_of job image.now out.old }
{
    match job {
        Job::Expander => {
            text_copy::copy_in(image, out);
            Ok(image.len())
        }
        Job::Normaliser => quote::quote_known(image, out),
    }
}

// Copies the message to the front of its buffer, "cut to the buffer", and answers how many bytes were written; "the bytes behind the message are kept".
pub fn tell(text: &[u8], message: &mut [u8]) -> usize
    ensures { (result ≡ length (take (length message.old) text.now)) ×
        (message.new ≡ over (take (length message.old) text.now) message.old) }
{
    let len = message.len().min(text.len());
    text_copy::copy_in(&text[..len], message);
    len
}

// The end of a call: the message that waits in the work area is told, and "The work area is zero throughout after every call".
pub fn hand_over(draft: Draft, work: &mut [u8], message: &mut [u8]) -> Answer
    requires { draft.at + draft.len ≤ length work.old }
    ensures { HandsOver draft work.old message.old result work.new message.new }
{
    let at = draft.at;
    let end = at + draft.len;
    let told = tell(&work[at..end], message);
    text_copy::fill_zero(work);
    Answer {
        message_len: told,
        ..draft.answer
    }
}
