// Rows of units in lent bytes. A unit is two bytes, its byte and behind it its mark; the empty mark N is two zeros, the break mark B a zero and
// its own mark.
#![tactic(auto)]

ghost use Rattle.std.specs.Prelude.{◌≡◌, ◌∷◌, [], ◌*◌, ◌≤◌, length, drop};
ghost use Rattle.stages.specs.Units.{cell, N, B, marked, bytes, expanded_mark, lit_mark};
ghost use Rattle.text.specs.Cases.{escape_of};
ghost use Rattle.text.specs.Rows.{mark_byte, row_bytes};
ghost use Rattle.row.specs.Marks.{mark_of};
ghost use Rattle.row.specs.Stands.{fronted, Stripped};

use text::marks;

// How a unit came to be: a literal byte, one from an expansion in bare text, a quoted one.
#[derive(Clone, Copy)]
pub enum Mark {
    L,
    E,
    Q,
}

// Where a row stands: so many units are before it, and a literal byte gets this mark.
#[derive(Clone, Copy)]
pub struct RowEnd {
    pub mark: Mark,
    pub units: usize,
}

// The byte that stands for a mark.
impl From<Mark> for u8 {
    ghost from_gives = { λ m b. b ≡ mark_byte (mark_of m) };

    fn from(mark: Mark) -> u8 {
        match mark {
            Mark::L => marks::LITERAL,
            Mark::E => marks::EXPANDED,
            Mark::Q => marks::QUOTED,
        }
    }
}

// The mark of what is expanded where literal bytes have this mark.
pub fn expanded_mark(mark: Mark) -> Mark
    ensures { mark_of result ≡ expanded_mark (mark_of mark) }
{
    match mark {
        Mark::L => Mark::E,
        other => other,
    }
}

// The mark of a byte that a backslash quotes, or not, where literal bytes have this mark.
pub fn literal_mark(quoted: bool, mark: Mark) -> Mark
    ensures { mark_of result ≡ lit_mark (escape_of quoted) (mark_of mark) }
{
    if quoted { Mark::Q } else { mark }
}

// Puts a byte and a mark's byte at the front.
#[tactic(auto, using(crate::proofs::Laws::two))]
fn put(area: &mut [u8], b: u8, mark: u8)
    requires { 2 ≤ length area.old }
    ensures { area.new ≡ b ∷ mark ∷ drop 2 area.old }
{
    area[0] = b;
    area[1] = mark;
}

// Puts one unit at the front.
#[tactic(auto, unfolding(text::specs::Rows::row_bytes))]
pub fn put_unit(area: &mut [u8], b: u8, mark: Mark)
    requires { 2 ≤ length area.old }
    ensures { area.new ≡ fronted (row_bytes (cell (mark_of mark) b ∷ [])) area.old }
{
    put(area, b, mark.into());
}

// Puts the empty mark at the front.
#[tactic(auto, unfolding(text::specs::Rows::row_bytes))]
pub fn put_empty(area: &mut [u8])
    requires { 2 ≤ length area.old }
    ensures { area.new ≡ fronted (row_bytes (N ∷ [])) area.old }
{
    put(area, 0, 0);
}

// Puts the break mark at the front.
#[tactic(auto, unfolding(text::specs::Rows::row_bytes))]
pub fn put_break(area: &mut [u8])
    requires { 2 ≤ length area.old }
    ensures { area.new ≡ fronted (row_bytes (B ∷ [])) area.old }
{
    put(area, 0, marks::BREAK);
}

// Puts the bytes of a text at the front, each with the mark.
pub fn put_marked(text: &[u8], mark: Mark, area: &mut [u8])
    requires { 2 * length text.now ≤ length area.old }
    ensures { area.new ≡ fronted (row_bytes (marked (mark_of mark) text.now)) area.old }
{
    let m = mark.into();
    for (at, b) in text.iter().enumerate() {
        area[2 * at] = *b;
        area[2 * at + 1] = m;
    }
}

// Leaves the bytes of a row at its front, N and B vanished and the marks gone, and answers how many they are. An odd last byte counts for nothing.
pub fn strip_marks(row: &mut [u8]) -> usize
    ensures { Stripped row.old row.new result }
{
    let mut kept = 0;
    for at in 0..row.len() / 2 {
        if marks::is_mark(row[2 * at + 1]) {
            row[kept] = row[2 * at];
            kept += 1;
        }
    }
    kept
}
