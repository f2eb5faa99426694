// Runs one case. Its buffers are cut to the case's sizes and filled as it says, the job is called, and every byte of every buffer is held against
// the case's answer.
use crate::kinds::is_normaliser;
use crate::laying::{
    OUT_FILL, asked_by, cut_to_bytes, cut_to_size, hold_buffers, hold_word, lay, lay_buffers,
    lay_given, lay_word,
};
use crate::telling::{Told, hold_bytes};
use crate::words;
use crate::words::word;
use call_deliver::Answer;
use drunquill::QuoteAnswer;

// Holds the numbers that a job gave against the case's.
fn hold_numbers(told: Told, case: &[u8], answer: Answer) -> Told {
    let told = hold_word(told, b"number", answer.number as usize, case, words::NUMBER);
    let told = hold_word(told, b"place", answer.place, case, words::PLACE);
    let told = hold_word(
        told,
        b"output length",
        answer.out_len,
        case,
        words::OUT_LENGTH,
    );
    let told = hold_word(
        told,
        b"used length",
        answer.vars_used,
        case,
        words::USED_LENGTH,
    );
    hold_word(
        told,
        b"message length",
        answer.message_len,
        case,
        words::MESSAGE_LENGTH,
    )
}

// Calls the expander or the normaliser.
fn call(
    case: &[u8],
    line: &[u8],
    vars: &mut [u8],
    homes: &[u8],
    params: &[u8],
    paths: &[u8],
    work: &mut [u8],
    out: &mut [u8],
    message: &mut [u8],
) -> Answer {
    let asked = asked_by(case, words::SHOUT);
    if is_normaliser(case) {
        drunquill::normalise(line, vars, asked, homes, params, paths, work, out, message)
    } else {
        drunquill::expand(line, vars, asked, homes, params, paths, work, out, message)
    }
}

// Calls the expander or the normaliser in buffers that are filled, and holds what it gave against the case.
fn hold_call(
    told: Told,
    case: &[u8],
    line: &[u8],
    vars: &mut [u8],
    homes: &[u8],
    params: &[u8],
    paths: &[u8],
    work: &mut [u8],
    out: &mut [u8],
    message: &mut [u8],
) -> Told {
    let answer = call(case, line, vars, homes, params, paths, work, out, message);
    let told = hold_numbers(told, case, answer);
    hold_buffers(told, case, vars, work, out, message)
}

// Fills the buffers that the expander or the normaliser writes, calls it and holds what it gave against the case.
fn run_laid(
    told: Told,
    case: &[u8],
    line: &[u8],
    vars: &mut [u8],
    homes: &[u8],
    params: &[u8],
    paths: &[u8],
    work: &mut [u8],
    out: &mut [u8],
    message: &mut [u8],
) -> Told {
    lay_buffers(case, vars, work, out, message);
    hold_call(
        told, case, line, vars, homes, params, paths, work, out, message,
    )
}

// Runs a case of the expander or the normaliser in buffers of its sizes.
fn run_line(
    told: Told,
    case: &[u8],
    line: &mut [u8],
    vars: &mut [u8],
    homes: &mut [u8],
    params: &mut [u8],
    paths: &mut [u8],
    work: &mut [u8],
    out: &mut [u8],
    message: &mut [u8],
) -> Told {
    lay_given(case, line, homes, params, paths);
    run_laid(
        told, case, line, vars, homes, params, paths, work, out, message,
    )
}

// Cuts the areas of the buffers that a job writes, and runs the case.
fn cut_buffers(
    told: Told,
    case: &[u8],
    line: &mut [u8],
    vars: &mut [u8],
    homes: &mut [u8],
    params: &mut [u8],
    paths: &mut [u8],
    work: &mut [u8],
    out: &mut [u8],
    message: &mut [u8],
) -> Told {
    let b = cut_to_size(case, words::VARS_BUFFER, vars);
    let e = cut_to_size(case, words::WORK, work);
    let f = cut_to_size(case, words::OUT, out);
    let g = cut_to_size(case, words::MESSAGE, message);
    run_line(
        told,
        case,
        line,
        &mut vars[..b],
        homes,
        params,
        paths,
        &mut work[..e],
        &mut out[..f],
        &mut message[..g],
    )
}

// Cuts the areas to the sizes of a case of the expander or the normaliser, first those of what a job reads, and runs it.
pub(crate) fn try_line(
    told: Told,
    case: &[u8],
    line: &mut [u8],
    vars: &mut [u8],
    homes: &mut [u8],
    params: &mut [u8],
    paths: &mut [u8],
    work: &mut [u8],
    out: &mut [u8],
    message: &mut [u8],
) -> Told {
    let a = cut_to_bytes(case, words::LINE, line);
    let b = cut_to_bytes(case, words::HOMES, homes);
    let c = cut_to_bytes(case, words::PARAMS, params);
    let d = cut_to_bytes(case, words::PATHS, paths);
    cut_buffers(
        told,
        case,
        &mut line[..a],
        vars,
        &mut homes[..b],
        &mut params[..c],
        &mut paths[..d],
        work,
        out,
        message,
    )
}

// Holds what the quoter gave, and left in the output, against the case.
fn hold_quote(told: Told, case: &[u8], answer: QuoteAnswer, out: &[u8]) -> Told {
    let told = hold_word(
        told,
        b"number",
        answer.number as usize,
        case,
        words::QUOTE_NUMBER,
    );
    let told = hold_word(told, b"place", answer.place, case, words::QUOTE_PLACE);
    let told = hold_word(
        told,
        b"output length",
        answer.out_len,
        case,
        words::QUOTE_LENGTH,
    );
    hold_bytes(
        told,
        b"output",
        out,
        word(case, words::QUOTE_BYTES),
        b"-",
        OUT_FILL,
    )
}

// Runs a case of the quoter in buffers of its sizes.
fn run_quote(told: Told, case: &[u8], fields: &mut [u8], out: &mut [u8]) -> Told {
    lay_word(fields, case, words::FIELDS, 0);
    lay(out, b"-", OUT_FILL);
    let answer = drunquill::quote(fields, out);
    hold_quote(told, case, answer, out)
}

// Cuts the areas to the sizes of a case of the quoter, and runs it.
pub(crate) fn try_quote(told: Told, case: &[u8], fields: &mut [u8], out: &mut [u8]) -> Told {
    let a = cut_to_bytes(case, words::FIELDS, fields);
    let b = cut_to_size(case, words::QUOTE_OUT, out);
    run_quote(told, case, &mut fields[..a], &mut out[..b])
}
