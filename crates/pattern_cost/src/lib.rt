// How dear a pattern is with a text: "the number of distinct pairs that can be reached". The pairs of a place in each are marked in a lent area, and the marks
// are counted: a row of flags stands for a place of the pattern, a flag for a place of the text, and the rows stand one behind the other. Each step leads to
// the next row or on in the same one, so that one walk over the rows in order meets every mark.
#![tactic(auto)]

ghost use Rattle.std.specs.Prelude.{ℕ, ◌+◌, ◌<◌, ◌≡◌, ◌&&◌, ltb, length, get_or};
ghost use Rattle.stages.specs.Cost.{matches_byte};
ghost use Rattle.pattern_unit.specs.declared.Width.TheVariants.{Plain};
ghost use Rattle.pattern_set.specs.Sets.{has};
ghost use Rattle.pattern_element.specs.Pieces.{element_of, is_refusing_piece, Lies};
ghost use Rattle.pattern_cost.specs.Areas.{Clear, Led, RowWalked, Room, Marked};
ghost use Rattle.pattern_cost.specs.Counts.{is_star_piece, elements_of, CountSays};

use pattern_element::Piece;
use pattern_member::BadClass;
use pattern_set::ByteSet;
use pattern_unit::Width;

// The element met what is 19.
fn is_refusing(piece: Piece) -> bool
    ensures { result ≡ is_refusing_piece piece }
{
    matches!(piece, Piece::Refusing)
}

// Counts the elements of a pattern, all bytes of it active. A class that is not served is looked for up to its end, however many elements there are.
pub fn count_elements(pattern: &[u8]) -> Result<usize, BadClass>
    ensures { CountSays pattern.now result }
{
    let mut elements = 0;
    let mut at = 0;
    while at < pattern.len() {
        let piece = pattern_element::search_piece(pattern, at, false, Width::Plain);
        if is_refusing(piece) {
            return Err(BadClass);
        }
        elements += 1;
        at = pattern_element::behind(piece, at, Width::Plain);
    }
    Ok(elements)
}

// The element is a star.
fn is_star(piece: Piece) -> bool
    ensures { result ≡ is_star_piece piece }
{
    matches!(piece, Piece::Star)
}

// The bytes that an element matches; a star matches none by itself.
fn matched_by(pattern: &[u8], piece: Piece) -> ByteSet
    requires { Lies (length pattern.now) piece }
    ensures { (k : ℕ) → k < 256 → has result.words k ≡ matches_byte (element_of Plain pattern.now piece) k }
{
    match piece {
        Piece::Star => pattern_set::none(),
        Piece::One => pattern_set::none().others(),
        Piece::Byte(b) => pattern_set::none().with_byte(b),
        Piece::Refusing => pattern_set::none().with_byte(b'['),
        Piece::Set { negative, from, to } => {
            pattern_set::set_of(&pattern[from..to], negative, Width::Plain)
        }
    }
}

// There is a byte at a place of the text, and the set has it.
fn takes_next(set: ByteSet, text: &[u8], j: usize) -> bool
    ensures { result ≡ (ltb j (length text.now) && has set.words (get_or text.now j 0)) }
{
    j < text.len() && set.has(text[j])
}

// Marks what the pair at `here` leads to, rows being `width` wide: at a star the next element, and the next byte if there is one more; at another element that
// takes the byte both.
fn lead_on(area: &mut [u8], here: usize, width: usize, star: bool, more: bool, taken: bool)
    requires { here + width + 1 < length area.old }
    ensures { Led star more taken here width area.old area.new }
{
    if star {
        area[here + width] = 1;
        if more {
            area[here + 1] = 1;
        }
    } else if taken {
        area[here + width + 1] = 1;
    }
}

// Counts the marks of the row of an element, from `base` on, and marks what they lead to.
fn walk_row(star: bool, set: ByteSet, text: &[u8], area: &mut [u8], base: usize) -> usize
    requires text_in_bounds { base + (length text.now + 1) + (length text.now + 1) < length area.old }
    requires clear { Clear area.old (base + (length text.now + 1)) }
    ensures { RowWalked star (has set.words) text.now base area.old area.new result }
{
    let width = text.len() + 1;
    let mut count = 0;
    for j in 0..width {
        if area[base + j] != 0 {
            count += 1;
            let taken = takes_next(set, text, j);
            lead_on(area, base + j, width, star, j + 1 < width, taken);
        }
    }
    count
}

// Marks and counts the pairs that can be reached, the start included. Behind the last element no more is matched: its row is counted alone.
pub fn count_pairs(pattern: &[u8], text: &[u8], area: &mut [u8]) -> usize
    requires { Room (length (elements_of pattern.now)) (length text.now) area.old }
    ensures { Marked (elements_of pattern.now) text.now area.old area.new result }
{
    let width = text.len() + 1;
    area[0] = 1;
    let mut count = 0;
    let mut base = 0;
    let mut at = 0;
    while at < pattern.len() {
        let piece = pattern_element::search_piece(pattern, at, false, Width::Plain);
        let set = matched_by(pattern, piece);
        count += walk_row(is_star(piece), set, text, area, base);
        base += width;
        at = pattern_element::behind(piece, at, Width::Plain);
    }
    count + walk_row(false, pattern_set::none(), text, area, base)
}
