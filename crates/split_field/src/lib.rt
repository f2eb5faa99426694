// What one field becomes, all matching paths in order or its own bytes, written behind the output's used part. A field with a sign of patterns is settled
// first, in a small table of sets, and in one that has room for the sets of every row where that is too small.
#![tactic(auto)]

ghost use Rattle.std.specs.Prelude.{◌≡◌, List, ◌∷◌, [], ◌≤◌, ◌*◌, length};
ghost use Rattle.stages.specs.Numbers.{image_limit, row_limit};
ghost use Rattle.stages.specs.Outcome.{done};
ghost use Rattle.stages.specs.Images.{held_texts};
ghost use Rattle.stages.specs.Units.{bytes};
ghost use Rattle.stages.specs.Pattern.{Element};
ghost use Rattle.stages.specs.Paths.{active, chosen, paths_for};
ghost use Rattle.text.specs.Rows.{row_of};
ghost use Rattle.table.specs.Places.{Listed};
ghost use Rattle.pattern_cell.specs.Cells.{Shows, Shown};
ghost use Rattle.pattern_row.specs.Kept.{NoEmpty};
ghost use Rattle.split_field.specs.Answers.{Says, answered, Spares, TriedSays, PutsOne};
ghost use Rattle.split_field.specs.Fields.{field_texts};
ghost use Rattle.split_field.specs.declared.WriteError.TheVariants.{NoRoom as NoRoomLeft};

use pattern_settle::{FEW_SETS, SETS_ROOM, SettleError, Settled};
use pattern_unit::Width;
use table_store::NoRoom;
use text::numbers;

// Why fields are not written: one has a bracket class, 19, or the output would be too long, 21.
#[derive(Clone, Copy, PartialEq, Eq)]
pub enum WriteError {
    BadClass,
    NoRoom,
}

impl From<NoRoom> for WriteError {
    ghost from_gives = { λ _ e. e ≡ NoRoomLeft };

    fn from(_full: NoRoom) -> WriteError {
        WriteError::NoRoom
    }
}

// Writes a text's record behind the first `used` bytes: the free part of the output is lent to the record writer. Each writer answers the output's new length.
pub fn put_text(text: &[u8], out: &mut [u8], used: usize) -> Result<usize, NoRoom>
    requires { (used ≤ length out.old) × (length out.old ≤ image_limit) }
    ensures { Says (done (text.now ∷ [])) used out.old out.new (answered result) }
{
    let n = table_store::put_record(&mut out[used..], text)?;
    Ok(used + n)
}

// Writes a field's own bytes: "At last marks go and N vanishes." Its units are spent.
pub fn put_own(field: &mut [u8], out: &mut [u8], used: usize) -> Result<usize, NoRoom>
    requires { (used ≤ length out.old) × (length out.old ≤ image_limit) }
    ensures { Says (done (bytes (row_of field.old) ∷ [])) used out.old out.new (answered result) }
{
    let n = row::strip_marks(field);
    put_text(&field[..n], out, used)
}

// Writes the paths that the cells of a pattern match, in order.
fn put_paths(
    cells: &[u16],
    sets: &[u64],
    paths: &[u8],
    out: &mut [u8],
    used: usize,
) -> Result<usize, NoRoom>
    requires used_in_bounds { (used ≤ length out.old) × (length out.old ≤ image_limit) }
    requires listed { Listed paths.now × Shown sets.now cells.now }
    ensures { (es : List Element) → Shows sets.now cells.now es → Says (done (chosen es (held_texts paths.now))) used
        out.old out.new (answered result) }
{
    let last = pattern_cell::last_star(cells);
    let mut at: usize = 1;
    let mut len = used;
    while let Some(path) = pattern_paths::next_path(paths, at, cells, sets, last) {
        len = put_text(&paths[path.from..path.to], out, len)?;
        at = path.to;
    }
    Ok(len)
}

// Writes what a field becomes whose cells these are: "all matching paths in order, or its own bytes if none".
fn put_paths_or_own(
    field: &mut [u8],
    cells: &[u16],
    sets: &[u64],
    special: bool,
    paths: &[u8],
    out: &mut [u8],
    used: usize,
) -> Result<usize, WriteError>
    requires used_in_bounds { (used ≤ length out.old) × (length out.old ≤ image_limit) }
    requires listed { Listed paths.now × Shown sets.now cells.now }
    ensures { (es : List Element) → Shows sets.now cells.now es → special ≡ active es
        → Says (done (paths_for (held_texts paths.now) (row_of field.old) es)) used out.old out.new result }
{
    if !special {
        return Ok(put_own(field, out, used)?);
    }
    let len = put_paths(cells, sets, paths, out, used)?;
    if len == used {
        return Ok(put_own(field, out, used)?);
    }
    Ok(len)
}

// Settles a field without N in lent tables, and writes what it becomes. Where its sets are too many for their table nothing is touched or answered.
fn put_settled(
    field: &mut [u8],
    cells: &mut [u16],
    sets: &mut [u64],
    paths: &[u8],
    out: &mut [u8],
    used: usize,
) -> Option<Result<usize, WriteError>>
    requires used_in_bounds { (used ≤ length out.old) × (length out.old ≤ image_limit) }
    requires listed { Listed paths.now × NoEmpty field.old × (length field.old ≤ 2 * row_limit) × (length cells.old ≡ row_limit) }
    ensures { TriedSays (field_texts (held_texts paths.now) (row_of field.old)) used out.old out.new
        (length sets.old) field.old field.new result }
{
    match pattern_settle::settle(field, true, Width::Marked, cells, sets) {
        Ok(Settled { count, special }) => Some(put_paths_or_own(
            field,
            &cells[..count],
            sets,
            special,
            paths,
            out,
            used,
        )),
        Err(SettleError::BadClass) => Some(Err(WriteError::BadClass)),
        Err(SettleError::NoRoom) => None,
    }
}

// Holds the cells, and a table of sets of so many words, no more than any row needs.
fn with_sets<const WORDS: usize>(
    field: &mut [u8],
    paths: &[u8],
    out: &mut [u8],
    used: usize,
) -> Option<Result<usize, WriteError>>
    requires words { WORDS ≤ 2732 }
    requires used_in_bounds { (used ≤ length out.old) × (length out.old ≤ image_limit) }
    requires listed { Listed paths.now × NoEmpty field.old × (length field.old ≤ 2 * row_limit) }
    ensures { TriedSays (field_texts (held_texts paths.now) (row_of field.old)) used out.old out.new
        WORDS field.old field.new result }
{
    let mut cells = [0u16; numbers::ROW_LIMIT];
    let mut sets = [0u64; WORDS];
    put_settled(field, &mut cells, &mut sets, paths, out, used)
}

// Writes what a field without N becomes. The second table is never too small: a set has three units at the least.
fn put_pattern(
    field: &mut [u8],
    paths: &[u8],
    out: &mut [u8],
    used: usize,
) -> Result<usize, WriteError>
    requires used_in_bounds { (used ≤ length out.old) × (length out.old ≤ image_limit) }
    requires listed { Listed paths.now × NoEmpty field.old × (length field.old ≤ 2 * row_limit) }
    ensures { Says (field_texts (held_texts paths.now) (row_of field.old)) used out.old out.new result
        × Spares result out.old out.new }
{
    if let Some(answer) = with_sets::<FEW_SETS>(field, paths, out, used) {
        return answer;
    }
    with_sets::<SETS_ROOM>(field, paths, out, used).unwrap()
}

// Writes what a field becomes, if it has no class. Its units are spent. A plain field keeps its N so far, since its own bytes are without them anyway.
pub fn put_field(
    field: &mut [u8],
    paths: &[u8],
    out: &mut [u8],
    used: usize,
) -> Result<usize, WriteError>
    requires used_in_bounds { (used ≤ length out.old) × (length out.old ≤ image_limit) }
    requires listed { Listed paths.now × (length field.old ≤ 2 * row_limit) }
    ensures { PutsOne (field_texts (held_texts paths.now) (row_of field.old)) used out.old out.new result }
{
    if pattern_row::is_plain(field) {
        return Ok(put_own(field, out, used)?);
    }
    let n = pattern_row::drop_empty(field);
    put_pattern(&mut field[..n], paths, out, used)
}
