// Runs one case of the coster, as calls.rt does those of the other jobs.
use crate::laying::{WORK_JUNK, WORK_ZERO, cut_to_bytes, cut_to_size, hold_word, lay_word};
use crate::telling::{Told, hold_bytes};
use crate::words;
use call_cost::Costed;

// Holds the numbers that the job gave against the case's.
fn hold_numbers(told: Told, case: &[u8], answer: Costed) -> Told {
    let told = hold_word(
        told,
        b"number",
        answer.number as usize,
        case,
        words::COST_NUMBER,
    );
    let told = hold_word(told, b"place", answer.place, case, words::COST_PLACE);
    hold_word(told, b"pairs", answer.pairs, case, words::COST_PAIRS)
}

// Fills the buffers, calls the job and holds what it gave against the case.
fn run_cost(told: Told, case: &[u8], pattern: &mut [u8], text: &mut [u8], work: &mut [u8]) -> Told {
    lay_word(pattern, case, words::COST_PATTERN, 0);
    lay_word(text, case, words::COST_TEXT, 0);
    lay_word(work, case, words::COST_PATTERN, WORK_JUNK);
    let answer = drunquill::cost(pattern, text, work);
    let told = hold_numbers(told, case, answer);
    hold_bytes(told, b"work area", work, b"-", b"-", WORK_ZERO)
}

// Cuts the areas to the sizes of a case, and runs it.
pub(crate) fn try_cost(
    told: Told,
    case: &[u8],
    pattern: &mut [u8],
    text: &mut [u8],
    work: &mut [u8],
) -> Told {
    let a = cut_to_bytes(case, words::COST_PATTERN, pattern);
    let b = cut_to_bytes(case, words::COST_TEXT, text);
    let c = cut_to_size(case, words::COST_WORK, work);
    run_cost(
        told,
        case,
        &mut pattern[..a],
        &mut text[..b],
        &mut work[..c],
    )
}
