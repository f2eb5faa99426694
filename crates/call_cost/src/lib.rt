// What a pattern costs with a text: document 02's E13, "Office wants to refuse costly patterns."
#![tactic(auto)]

ghost use Rattle.std.specs.Prelude.{◌≡◌, length, replicate};
ghost use Rattle.stages.specs.Cost.{coster, pairs_of};
ghost use Rattle.call_cost.specs.Hands.{costing, placed, answer_as, Hands};

use text::numbers;
use text::refusal::Refusal;

// A number, a place, and how many pairs can be reached. Laid out as C lays it out.
#[repr(C)]
#[derive(Clone, Copy)]
pub struct Costed {
    pub number: u8,
    pub place: usize,
    pub pairs: usize,
}

// The answer with this number and count: every place is 0.
fn answer(number: u8, pairs: usize) -> Costed
    ensures { result ≡ answer_as number pairs }
{
    Costed {
        number,
        place: 0,
        pairs,
    }
}

// How many pairs can be reached, or what refuses the call: 1, 19 and 14, "in that order". The work area is zero before and after.
fn pairs(pattern: &[u8], text: &[u8], work: &mut [u8]) -> Result<usize, Refusal>
    requires { work.old ≡ replicate (length work.old) 0 }
    ensures counts { pairs_of (costing pattern.now text.now work.old) ≡ placed result }
    ensures left { work.new ≡ work.old }
{
    if work.len() < numbers::WORK_LEAST {
        return Err(Refusal::WorkTooSmall);
    }
    let Ok(elements) = pattern_cost::count_elements(pattern) else {
        return Err(Refusal::BracketClass);
    };
    if numbers::ELEMENTS_LIMIT < elements || numbers::COMPARED_LIMIT < text.len() {
        return Err(Refusal::TooManyUnits);
    }
    let pairs = pattern_cost::count_pairs(pattern, text, work);
    text_copy::fill_zero(&mut work[..numbers::WORK_LEAST]);
    Ok(pairs)
}

// Counts the pairs of a place in the pattern and a place in the text that can be reached, all bytes of the pattern active. The work area may hold anything
// before, and is zero throughout after every call: the marks stand in its first 65,536 bytes. A refusal reports 0.
pub fn cost(pattern: &[u8], text: &[u8], work: &mut [u8]) -> Costed
    ensures { Hands (coster (costing pattern.now text.now work.old)) result work.new }
{
    text_copy::fill_zero(work);
    match pairs(pattern, text, work) {
        Ok(pairs) => answer(numbers::ACCEPTED, pairs),
        Err(refusal) => answer(refusal.number(), 0),
    }
}
