// The buffers of a call: cut to the case's sizes and filled as it says before the call, held against its answer after it.
ghost use Rattle.std.specs.Prelude.{length};
ghost use Rattle.system.specs.Counts.{IsPrefixLen};

use crate::telling::{Told, hold_bytes, hold_number};
use crate::words;
use crate::words::{byte_at, byte_count, number, word};
use call_check::Asked;

// What stands in the output before a call, and behind the variables in their buffer.
pub const OUT_FILL: u8 = 0xa5;

pub const VARS_FILL: u8 = 0x5a;

// What stands behind the paths in a buffer that a path is inserted into or deleted from.
pub const PATHS_FILL: u8 = 0x3c;

// What stands in the message's buffer before a call.
pub const MESSAGE_FILL: u8 = 0xc3;

// What stands in the work area before a call, behind the bytes of the line, and after it.
pub const WORK_JUNK: u8 = 0xc3;

pub const WORK_ZERO: u8 = 0;

// Writes the bytes of a word to the front of an area, and the fill behind them.
pub(crate) fn lay(area: &mut [u8], bytes: &[u8], fill: u8) {
    for (i, b) in area.iter_mut().enumerate() {
        *b = byte_at(bytes, i, fill);
    }
}

// The size, or the area's if that is less.
fn cut(size: usize, area: &[u8]) -> usize
    ensures { IsPrefixLen result area.now }
{
    size.min(area.len())
}

// As many bytes of the area as a word of the case writes.
pub(crate) fn cut_to_bytes(case: &[u8], n: usize, area: &[u8]) -> usize
    ensures { IsPrefixLen result area.now }
{
    cut(byte_count(word(case, n)), area)
}

// As many bytes of the area as a number of the case says.
pub(crate) fn cut_to_size(case: &[u8], n: usize, area: &[u8]) -> usize
    ensures { IsPrefixLen result area.now }
{
    cut(number(word(case, n)), area)
}

// Writes what the case has for a buffer, and the fill behind it.
pub(crate) fn lay_word(area: &mut [u8], case: &[u8], n: usize, fill: u8) {
    lay(area, word(case, n), fill);
}

// Holds a number of the answer against the case's.
pub(crate) fn hold_word(told: Told, what: &[u8], given: usize, case: &[u8], n: usize) -> Told {
    hold_number(told, what, given, number(word(case, n)))
}

// A buffer with a used length: where the case has what stood in it, its used length, the answer's number and the new image; and what stood behind.
#[derive(Clone, Copy)]
pub struct Kept {
    pub before: usize,
    pub used: usize,
    pub number: usize,
    pub image: usize,
    pub fill: u8,
}

// Holds the bytes from `end` on against those that stood there before the call.
fn hold_behind(told: Told, what: &[u8], kept: &[u8], end: usize, before: &[u8], fill: u8) -> Told {
    if end < before.len() / 2 {
        let from = end * 2;
        return hold_bytes(told, what, kept, b"-", &before[from..], fill);
    }
    hold_bytes(told, what, kept, b"-", b"-", fill)
}

// What a case asks for beside its buffers, by the word of its switch.
pub(crate) fn asked_by(case: &[u8], shout: usize) -> Asked {
    Asked {
        vars_used: number(word(case, words::USED)),
        shouts: matches!(word(case, shout), b"1"),
    }
}

// Where the bytes end that an accepted call changes: at the new image's end, or at the used length that was given if that is greater.
fn changed(case: &[u8], image: usize, used: usize, area: &[u8]) -> usize
    ensures { IsPrefixLen result area.now }
{
    let end = cut_to_bytes(case, image, area);
    let old = cut_to_size(case, used, area);
    end.max(old)
}

// Holds a buffer against the case: the new image, zeros behind it up to the used length that was given, and what was there before; on a refusal all that was
// there before.
pub(crate) fn hold_image(
    told: Told,
    what: &[u8],
    behind: &[u8],
    case: &[u8],
    kept: Kept,
    area: &[u8],
) -> Told {
    let before = word(case, kept.before);
    if number(word(case, kept.number)) != 0 {
        return hold_behind(told, behind, area, 0, before, kept.fill);
    }
    let image = word(case, kept.image);
    let end = changed(case, kept.image, kept.used, area);
    let told = hold_bytes(told, what, &area[..end], image, b"-", 0);
    hold_behind(told, behind, &area[end..], end, before, kept.fill)
}

// Holds the variables against the case, whose number and new image stand at these places.
pub(crate) fn hold_variables(
    told: Told,
    case: &[u8],
    answer: usize,
    bytes: usize,
    vars: &[u8],
) -> Told {
    let kept = Kept {
        before: words::VARS,
        used: words::USED,
        number: answer,
        image: bytes,
        fill: VARS_FILL,
    };
    hold_image(told, b"variables", b"kept variables", case, kept, vars)
}

// Holds what a job left in the buffers against the case.
pub(crate) fn hold_buffers(
    told: Told,
    case: &[u8],
    vars: &[u8],
    work: &[u8],
    out: &[u8],
    message: &[u8],
) -> Told {
    let told = hold_bytes(
        told,
        b"output",
        out,
        word(case, words::OUT_BYTES),
        b"-",
        OUT_FILL,
    );
    let told = hold_variables(told, case, words::NUMBER, words::VARS_BYTES, vars);
    let told = hold_bytes(told, b"work area", work, b"-", b"-", WORK_ZERO);
    hold_bytes(
        told,
        b"message",
        message,
        word(case, words::MESSAGE_BYTES),
        b"-",
        MESSAGE_FILL,
    )
}

// Writes a case's line, homes, parameters and paths.
pub(crate) fn lay_given(
    case: &[u8],
    line: &mut [u8],
    homes: &mut [u8],
    params: &mut [u8],
    paths: &mut [u8],
) {
    lay_word(line, case, words::LINE, 0);
    lay_word(homes, case, words::HOMES, 0);
    lay_word(params, case, words::PARAMS, 0);
    lay_word(paths, case, words::PATHS, 0);
}

// Fills the buffers that a job writes.
pub(crate) fn lay_buffers(
    case: &[u8],
    vars: &mut [u8],
    work: &mut [u8],
    out: &mut [u8],
    message: &mut [u8],
) {
    lay_word(vars, case, words::VARS, VARS_FILL);
    lay_word(work, case, words::LINE, WORK_JUNK);
    lay(out, b"-", OUT_FILL);
    lay(message, b"-", MESSAGE_FILL);
}
