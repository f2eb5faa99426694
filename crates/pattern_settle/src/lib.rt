// A pattern settled: before anything is matched, one walk over its units makes a cell for each element, so that no bracket is searched or gathered twice.
#![tactic(auto)]

ghost use Rattle.std.specs.Prelude.{Bool, ◌*◌, ◌≤◌, length};
ghost use Rattle.pattern_unit.specs.Widths.{size};
ghost use Rattle.pattern_element.specs.Ends.{Ended};
ghost use Rattle.pattern_element.specs.Pieces.{Lies};
ghost use Rattle.pattern_element.specs.declared.Piece.TheVariants.{Set};
ghost use Rattle.pattern_settle.specs.Celled.{CellSays, sets_limit};
ghost use Rattle.pattern_settle.specs.Settled.{SettleSays};

use pattern_element::Piece;
use pattern_unit::Width;

// What a pattern is settled as: so many cells stand for its elements, and it is special if one of them is: a star, a `?` or a set.
#[derive(Clone, Copy, PartialEq, Eq)]
pub struct Settled {
    pub count: usize,
    pub special: bool,
}

// Why a pattern is not settled: a class that is not served refuses it with 19, or its sets are too many for the table.
#[derive(Clone, Copy, PartialEq, Eq)]
pub enum SettleError {
    BadClass,
    NoRoom,
}

// The words of a table that has room for the sets of any row: each has three units at the least.
pub const SETS_ROOM: usize = 2732;

// The words of a table of 16 sets: few patterns have more, and a small table is quickly made.
pub const FEW_SETS: usize = 64;

// What one element becomes: its cell, whether it or one before it is special, and how many sets the table has with it.
#[derive(Clone, Copy)]
struct Cell {
    cell: u16,
    special: bool,
    used: usize,
}

// The cell of a set, whose words go into the table behind those of the sets before it.
fn set_cell(
    pattern: &[u8],
    from: usize,
    to: usize,
    negative: bool,
    width: Width,
    sets: &mut [u64],
    used: usize,
) -> Result<Cell, SettleError>
    requires lies { Lies (length pattern.now) (Set negative from to) }
    requires used_le_sets_limit { (used ≤ sets_limit) × (4 * used ≤ length sets.old) }
    ensures { (special : Bool) → CellSays width pattern.now (Set negative from to) used special sets.old sets.new result }
{
    let at = 4 * used;
    if sets.len() < at + 4 {
        return Err(SettleError::NoRoom);
    }
    let set = pattern_set::set_of(&pattern[from..to], negative, width);
    pattern_set::put_set(set, sets, at);
    Ok(Cell {
        cell: pattern_cell::FIRST_SET + (used as u16),
        special: true,
        used: used + 1,
    })
}

// The cell of an element.
fn cell_of(
    pattern: &[u8],
    piece: Piece,
    width: Width,
    sets: &mut [u64],
    used: usize,
    special: bool,
) -> Result<Cell, SettleError>
    requires lies { Lies (length pattern.now) piece }
    requires used_le_sets_limit { (used ≤ sets_limit) × (4 * used ≤ length sets.old) }
    ensures { CellSays width pattern.now piece used special sets.old sets.new result }
{
    match piece {
        Piece::Star => Ok(Cell {
            cell: pattern_cell::STAR,
            special: true,
            used,
        }),
        Piece::One => Ok(Cell {
            cell: pattern_cell::ONE,
            special: true,
            used,
        }),
        Piece::Byte(b) => Ok(Cell {
            cell: b as u16,
            special,
            used,
        }),
        Piece::Refusing => Err(SettleError::BadClass),
        Piece::Set { negative, from, to } => {
            set_cell(pattern, from, to, negative, width, sets, used)
        }
    }
}

// Settles a pattern whose ends stand in the cells. An element has a unit at the least: so its cell is written where no later one looks for an end.
fn settle_pieces(
    pattern: &[u8],
    path: bool,
    width: Width,
    cells: &mut [u16],
    sets: &mut [u64],
) -> Result<Settled, SettleError>
    requires { Ended width path pattern.now cells.old 0 }
    ensures { SettleSays width path pattern.now cells.new sets.new result }
{
    let size = pattern_unit::unit_size(width);
    let mut at: usize = 0;
    let mut count: usize = 0;
    let mut used: usize = 0;
    let mut special = false;
    while at + size <= pattern.len() {
        let piece = pattern_element::piece_at(pattern, at, path, width, cells);
        let cell = cell_of(pattern, piece, width, sets, used, special)?;
        cells[count] = cell.cell;
        special = cell.special;
        used = cell.used;
        count += 1;
        at = pattern_element::behind(piece, at, width);
    }
    Ok(Settled { count, special })
}

// Settles a pattern. What its ends or its sets leave in the cells and in the table behind those that the answer counts is scratch.
pub fn settle(
    pattern: &[u8],
    path: bool,
    width: Width,
    cells: &mut [u16],
    sets: &mut [u64],
) -> Result<Settled, SettleError>
    requires { (length pattern.now ≤ size width * length cells.old) × (length cells.old ≤ 2048) }
    ensures { SettleSays width path pattern.now cells.new sets.new result }
{
    pattern_element::fill_ends(pattern, path, width, cells);
    settle_pieces(pattern, path, width, cells, sets)
}
