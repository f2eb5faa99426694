// Runs one case of the assigner, as calls.rt does those of the other jobs. Its answer has no output.
use crate::laying::{
    MESSAGE_FILL, VARS_FILL, WORK_JUNK, WORK_ZERO, asked_by, cut_to_bytes, cut_to_size,
    hold_variables, hold_word, lay, lay_word,
};
use crate::telling::{Told, hold_bytes, hold_number};
use crate::words;
use crate::words::word;
use call_deliver::Answer;

// Holds the numbers that the job gave against the case's.
fn hold_numbers(told: Told, case: &[u8], answer: Answer) -> Told {
    let told = hold_word(
        told,
        b"number",
        answer.number as usize,
        case,
        words::ASSIGN_NUMBER,
    );
    let told = hold_word(told, b"place", answer.place, case, words::ASSIGN_PLACE);
    let told = hold_number(told, b"output length", answer.out_len, 0);
    let told = hold_word(
        told,
        b"used length",
        answer.vars_used,
        case,
        words::ASSIGN_USED_LENGTH,
    );
    hold_word(
        told,
        b"message length",
        answer.message_len,
        case,
        words::ASSIGN_MESSAGE_LENGTH,
    )
}

// Holds what the job left in the buffers against the case.
fn hold_buffers(told: Told, case: &[u8], vars: &[u8], work: &[u8], message: &[u8]) -> Told {
    let told = hold_variables(
        told,
        case,
        words::ASSIGN_NUMBER,
        words::ASSIGN_VARS_BYTES,
        vars,
    );
    let told = hold_bytes(told, b"work area", work, b"-", b"-", WORK_ZERO);
    hold_bytes(
        told,
        b"message",
        message,
        word(case, words::ASSIGN_MESSAGE_BYTES),
        b"-",
        MESSAGE_FILL,
    )
}

// Calls the assigner.
fn call(
    case: &[u8],
    line: &[u8],
    vars: &mut [u8],
    homes: &[u8],
    params: &[u8],
    work: &mut [u8],
    message: &mut [u8],
) -> Answer {
    let asked = asked_by(case, words::ASSIGN_SHOUT);
    drunquill::assign(line, vars, asked, homes, params, work, message)
}

// Calls the assigner in buffers that are filled, and holds what it gave against the case.
fn hold_call(
    told: Told,
    case: &[u8],
    line: &[u8],
    vars: &mut [u8],
    homes: &[u8],
    params: &[u8],
    work: &mut [u8],
    message: &mut [u8],
) -> Told {
    let answer = call(case, line, vars, homes, params, work, message);
    let told = hold_numbers(told, case, answer);
    hold_buffers(told, case, vars, work, message)
}

// Fills the buffers that the assigner writes, calls it and holds what it gave against the case.
fn run_laid(
    told: Told,
    case: &[u8],
    line: &[u8],
    vars: &mut [u8],
    homes: &[u8],
    params: &[u8],
    work: &mut [u8],
    message: &mut [u8],
) -> Told {
    lay_word(vars, case, words::VARS, VARS_FILL);
    lay_word(work, case, words::LINE, WORK_JUNK);
    lay(message, b"-", MESSAGE_FILL);
    hold_call(told, case, line, vars, homes, params, work, message)
}

// Runs a case of the assigner in buffers of its sizes.
fn run_assign(
    told: Told,
    case: &[u8],
    line: &mut [u8],
    vars: &mut [u8],
    homes: &mut [u8],
    params: &mut [u8],
    work: &mut [u8],
    message: &mut [u8],
) -> Told {
    lay_word(line, case, words::LINE, 0);
    lay_word(homes, case, words::HOMES, 0);
    lay_word(params, case, words::ASSIGN_PARAMS, 0);
    run_laid(told, case, line, vars, homes, params, work, message)
}

// Cuts the areas to the sizes of a case, and runs it.
pub(crate) fn try_assign(
    told: Told,
    case: &[u8],
    line: &mut [u8],
    vars: &mut [u8],
    homes: &mut [u8],
    params: &mut [u8],
    work: &mut [u8],
    message: &mut [u8],
) -> Told {
    let a = cut_to_bytes(case, words::LINE, line);
    let b = cut_to_size(case, words::VARS_BUFFER, vars);
    let c = cut_to_bytes(case, words::HOMES, homes);
    let d = cut_to_bytes(case, words::ASSIGN_PARAMS, params);
    let e = cut_to_size(case, words::ASSIGN_WORK, work);
    let f = cut_to_size(case, words::ASSIGN_MESSAGE, message);
    run_assign(
        told,
        case,
        &mut line[..a],
        &mut vars[..b],
        &mut homes[..c],
        &mut params[..d],
        &mut work[..e],
        &mut message[..f],
    )
}
