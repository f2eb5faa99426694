// The cells of a settled pattern, one for each element: what a set's cell stands for, and where the stars are.
#![tactic(auto)]

ghost use Rattle.std.specs.Prelude.{◌≡◌, ℕ, ◌+◌, ◌≤◌, ◌<◌, length, drop};
ghost use Rattle.pattern_set.specs.Sets.{has};
ghost use Rattle.pattern_cell.specs.Cells.{first_set, words_at, LastStar, FirstStar};

use pattern_set::ByteSet;

// The cell of `?`. A cell is a number of two bytes, not an enum: the table of ends stands in the same lent memory before.
pub const ONE: u16 = 256;

// The cell of `*`.
pub const STAR: u16 = 257;

// The cell of the first set in the table; those below ONE are bytes.
pub const FIRST_SET: u16 = 258;

// The set that a cell stands for.
pub fn set_in(cell: u16, sets: &[u64]) -> ByteSet
    requires { (first_set ≤ cell) × (words_at cell + 4 ≤ length sets.now) }
    ensures { (k : ℕ) → k < 256 → has result.words k ≡ has (drop (words_at cell) sets.now) k }
{
    let i = (cell - FIRST_SET) as usize;
    pattern_set::set_at(sets, 4 * i)
}

// The place of the first star, or behind all cells.
pub fn first_star(cells: &[u16]) -> usize
    ensures { FirstStar cells.now result }
{
    cells
        .iter()
        .position(|cell| *cell == STAR)
        .unwrap_or(cells.len())
}

// The place behind the last star, 0 where there is none.
pub fn last_star(cells: &[u16]) -> usize
    ensures { LastStar cells.now result }
{
    cells
        .iter()
        .rposition(|cell| *cell == STAR)
        .map_or(0, |i| i + 1)
}
