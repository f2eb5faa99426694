// Patterns: which texts they match. A pattern is settled, a cell for each element. The matcher goes over the elements up to the next star and
// remembers only the last star and where it stood in the text: where the elements behind it fail, it goes back there and the star takes one byte
// more. Behind the last star of the pattern nothing is tried twice: as each element takes one byte, what is left must match the end of the text.
#![tactic(auto)]

ghost use Rattle.std.specs.Prelude.{◌≤◌, ◌≡◌, true, false, ◌&&◌, List, length, drop};
ghost use Rattle.stages.specs.Pattern.{Element, passes, takes, matches};
ghost use Rattle.text.specs.Cases.{purpose_of};
ghost use Rattle.pattern_set.specs.Sets.{has};
ghost use Rattle.pattern_cell.specs.Cells.{Is, Shows, Shown, Trails};
ghost use Rattle.pattern_match.specs.Steps.{takes_one, Lies, behind_star, all_pass, Skips, RunSays};

use pattern_cell::{FIRST_SET, ONE, STAR};
use pattern_set::ByteSet;

// What `*`, `?` and brackets may take: in paths no slash, nor a `.` where a part starts.
#[tactic(auto, unfolding(stages::specs::Pattern::passes))]
fn passes_byte(b: u8, path: bool, first: bool) -> bool
    ensures { result ≡ passes path first b }
{
    !path || (b != b'/' && (!first || b != b'.'))
}

// A byte of the pattern takes this byte of the text: in paths a `.` where a part starts only if it is first in its own part.
#[tactic(auto, unfolding(stages::specs::Pattern::takes))]
fn takes_byte(cell: u16, b: u8, path: bool, head: bool, first: bool) -> bool
    ensures { result ≡ takes path head first cell b }
{
    cell == b as u16 && (!path || head || !first || b != b'.')
}

// A bracket's set takes this byte of the text.
fn takes_member(set: ByteSet, b: u8, path: bool, first: bool) -> bool
    ensures { result ≡ (passes path first b && has set.words b) }
{
    passes_byte(b, path, first) && set.has(b)
}

// The element of a cell takes this byte of the text; a star does not, it is looked at elsewhere.
fn takes_one(cell: u16, sets: &[u64], b: u8, path: bool, head: bool, first: bool) -> bool
    requires { Lies sets.now cell }
    ensures { (e : Element) → Is sets.now cell e → result ≡ takes_one path head first e b }
{
    if cell < ONE {
        return takes_byte(cell, b, path, head, first);
    }
    if FIRST_SET <= cell {
        let set = pattern_cell::set_in(cell, sets);
        return takes_member(set, b, path, first);
    }
    cell != STAR && passes_byte(b, path, first)
}

// How a run over the elements ends: all are matched with all of the text, one fails, or a star is met: the places behind it and in the
// text, and whether a part starts there.
#[derive(Clone, Copy)]
enum Run {
    Whole,
    Fails,
    Star { at: usize, k: usize, first: bool },
}

// The run over the elements from `start` on, with the text from `since` on, up to the next star. `starts`: the pattern's place is its
// first or right behind its slash; `begins`: a path or a part of it starts at the text's place.
fn run_to_star(
    cells: &[u16],
    sets: &[u64],
    text: &[u8],
    path: bool,
    start: usize,
    since: usize,
    starts: bool,
    begins: bool,
) -> Run
    requires shown { Shown sets.now cells.now }
    requires start_in_bounds { start ≤ length cells.now }
    requires since_in_bounds { since ≤ length text.now }
    ensures { RunSays path sets.now cells.now text.now start since starts begins result }
{
    let mut head = starts;
    let mut first = begins;
    // A place beside the other, since a zip would end without saying which of the two is over.
    let mut k = since;
    for at in start..cells.len() {
        let cell = cells[at];
        if cell == STAR {
            return Run::Star {
                at: at + 1,
                k,
                first,
            };
        }
        if text.len() <= k {
            return Run::Fails;
        }
        if !takes_one(cell, sets, text[k], path, head, first) {
            return Run::Fails;
        }
        head = cell == b'/' as u16;
        first = head;
        k += 1;
    }
    if k < text.len() {
        Run::Fails
    } else {
        Run::Whole
    }
}

// A star may take all these bytes.
fn gap_passes(gap: &[u8], path: bool, begins: bool) -> bool
    ensures { result ≡ all_pass path begins gap.now }
{
    if !path {
        return true;
    }
    let mut first = begins;
    for b in gap {
        if !passes_byte(*b, path, first) {
            return false;
        }
        first = false;
    }
    true
}

// Behind the pattern's last star, met where the text is at k: each element that is left takes one byte, so that they must match as many bytes at the
// text's end, and the star takes what stands before them. That is looked at last, since most texts fail at their end.
fn behind_last_star(
    cells: &[u16],
    sets: &[u64],
    text: &[u8],
    path: bool,
    at: usize,
    k: usize,
    first: bool,
) -> bool
    requires shown { Shown sets.now cells.now }
    requires trails { Trails cells.now at }
    requires k_in_bounds { k ≤ length text.now }
    ensures { (es : List Element) → Shows sets.now cells.now es
        → result ≡ behind_star path (drop at es) false first (drop k text.now) }
{
    let left = cells.len() - at;
    if text.len() - k < left {
        return false;
    }
    let end = text.len() - left;
    let begins = first && k == end;
    let Run::Whole = run_to_star(cells, sets, text, path, at, end, false, begins) else {
        return false;
    };
    gap_passes(&text[k..end], path, first)
}

// The next place of the text that is worth a look to a star with this cell behind it: a byte of the pattern takes none but its own. Where a part
// starts nothing is passed over, as a star may not take every byte there.
fn skip(cell: u16, text: &[u8], path: bool, first: bool, since: usize) -> usize
    requires { since ≤ length text.now }
    ensures { Skips path first cell text.now since result }
{
    if first || ONE <= cell {
        return since;
    }
    for k in since..text.len() {
        if cell == text[k] as u16 || !passes_byte(text[k], path, first) {
            return k;
        }
    }
    text.len()
}

// Behind a star that was met where the text is at `since`. Where a run fails, the last star takes one byte more; a star that is met
// becomes the last one, since no other place of the star before it could help.
fn behind_star(
    cells: &[u16],
    sets: &[u64],
    text: &[u8],
    path: bool,
    last: usize,
    start: usize,
    since: usize,
    begins: bool,
) -> bool
    requires shown { Shown sets.now cells.now }
    requires trails { Trails cells.now last }
    requires start_in_bounds { start ≤ length cells.now }
    requires since_in_bounds { since ≤ length text.now }
    ensures { (es : List Element) → Shows sets.now cells.now es
        → result ≡ behind_star path (drop start es) false begins (drop since text.now) }
{
    let mut at = start;
    let mut k = since;
    let mut first = begins;
    while at < last {
        k = skip(cells[at], text, path, first, k);
        match run_to_star(cells, sets, text, path, at, k, false, first) {
            Run::Whole => return true,
            Run::Fails => {
                if text.len() <= k {
                    return false;
                }
                if !passes_byte(text[k], path, first) {
                    return false;
                }
                k += 1;
                first = false;
            }
            Run::Star {
                at: next,
                k: place,
                first: starts,
            } => {
                at = next;
                k = place;
                first = starts;
            }
        }
    }
    behind_last_star(cells, sets, text, path, at, k, first)
}

// "The whole text must match." `last` is a place from which on no star stands.
pub fn matches(cells: &[u16], sets: &[u64], text: &[u8], path: bool, last: usize) -> bool
    requires shown { Shown sets.now cells.now }
    requires trails { Trails cells.now last }
    ensures { (es : List Element) → Shows sets.now cells.now es → result ≡ matches (purpose_of path) es text.now }
{
    match run_to_star(cells, sets, text, path, 0, 0, true, true) {
        Run::Whole => true,
        Run::Fails => false,
        Run::Star { at, k, first } => behind_star(cells, sets, text, path, last, at, k, first),
    }
}
