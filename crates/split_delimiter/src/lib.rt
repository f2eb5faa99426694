// What divides a row: its break marks; what a unit is by IFS, whether a field goes on with it, and the place behind the delimiters at a place. The
// highest byte of IFS tells most units that are no delimiters by one comparison.
#![tactic(auto)]

ghost use Rattle.std.specs.Prelude.{◌≡◌, ◌≤◌, length};
ghost use Rattle.stages.specs.Split.{drop_white, drop_hard};
ghost use Rattle.split_delimiter.specs.Parts.{PartEnds};
ghost use Rattle.split_delimiter.specs.Places.{delimiter_of, ahead, first, goes_on, highest, Reaches};

use text::{Class, marks};

// What a unit is in splitting: "white if space, tab or newline, else hard", or no delimiter.
#[derive(Clone, Copy)]
enum Delimiter {
    White,
    Hard,
    Other,
}

// What the unit at a place is; no unit is no delimiter.
fn delimiter_at(row: &[u8], at: usize, ifs: &[u8]) -> Delimiter
    requires { at ≤ length row.now }
    ensures { delimiter_of result ≡ first ifs.now (ahead row.now at) }
{
    if row.len() - at <= 1 {
        return Delimiter::Other;
    }
    if row[at + 1] != marks::EXPANDED {
        return Delimiter::Other;
    }
    let b = row[at];
    if !text::is_in(b, ifs) {
        return Delimiter::Other;
    }
    if text::in_class(Class::Blank, b) {
        Delimiter::White
    } else {
        Delimiter::Hard
    }
}

// The highest byte of IFS, 0 if there is none.
pub fn highest_of(ifs: &[u8]) -> u8
    ensures { result ≡ highest 0 ifs.now }
{
    ifs.iter().fold(0, |top, b| top.max(*b))
}

// Does a field go on with the unit at a place? No byte of IFS is above `top`.
pub fn goes_on(row: &[u8], at: usize, ifs: &[u8], top: u8) -> bool
    requires { (at ≤ length row.now) × (highest 0 ifs.now ≤ top) }
    ensures { result ≡ goes_on ifs.now (ahead row.now at) }
{
    if row.len() - at <= 1 {
        return false;
    }
    top < row[at] || matches!(delimiter_at(row, at, ifs), Delimiter::Other)
}

// The place behind the white units at a place.
pub fn skip_white(row: &[u8], at: usize, ifs: &[u8]) -> usize
    requires { at ≤ length row.now }
    ensures { Reaches row.now at result (drop_white ifs.now (ahead row.now at)) }
{
    let mut to = at;
    while let Delimiter::White = delimiter_at(row, to, ifs) {
        to += 2;
    }
    to
}

// The place of the next field behind the end of one: "then drop white ones, at most one hard one, and, if there was one, white ones after it".
pub fn behind_field(row: &[u8], at: usize, ifs: &[u8]) -> usize
    requires { at ≤ length row.now }
    ensures { Reaches row.now at result (drop_hard ifs.now (drop_white ifs.now (ahead row.now at))) }
{
    let hard = skip_white(row, at, ifs);
    match delimiter_at(row, hard, ifs) {
        Delimiter::Hard => skip_white(row, hard + 2, ifs),
        Delimiter::White | Delimiter::Other => hard,
    }
}

// The end of the part at a place: the next break mark, or where no whole unit is left.
pub fn part_end(row: &[u8], at: usize) -> usize
    requires { at ≤ length row.now }
    ensures { PartEnds row.now at result }
{
    let (units, _) = row[at..].as_chunks::<2>();
    let passed = units.iter().position(|[_, mark]| *mark == marks::BREAK);
    at + 2 * passed.unwrap_or(units.len())
}
