// The functions whose speed docs/TIMES.md gives, as C calls them: each hands its question to the proved function.
#![tactic(auto)]

ghost use Rattle.std.specs.Prelude.{◌≤◌, ◌*◌, ◌≡◌, true, List, length};
ghost use Rattle.stages.specs.Numbers.{row_limit};
ghost use Rattle.stages.specs.Images.{held_texts};
ghost use Rattle.stages.specs.Read.{read_line};
ghost use Rattle.stages.specs.Pattern.{Element};
ghost use Rattle.stages.specs.Paths.{chosen};
ghost use Rattle.table.specs.Kinds.{well_formed};
ghost use Rattle.pattern_cell.specs.Cells.{Shows, Shown};
ghost use Rattle.test_measured.specs.Numbers.{number_of};
ghost use Rattle.test_measured.specs.Counts.{matching};

use pattern_unit::Width;
use table::Kind;
use text::numbers;

// Are the bytes a well-formed image of paths?
#[unsafe(no_mangle)]
pub extern "C" fn measured_paths_formed(image: &[u8]) -> bool
    ensures { result ≡ well_formed Kind.Paths image.now }
{
    table::well_formed(Kind::Paths, image)
}

// How many paths of the image the cells of a pattern match.
fn count_paths(cells: &[u16], sets: &[u64], paths: &[u8]) -> usize
    requires { (well_formed Kind.Paths paths.now ≡ true) × Shown sets.now cells.now }
    ensures { (es : List Element) → Shows sets.now cells.now es
        → result ≡ length (chosen es (held_texts paths.now)) }
{
    let last = pattern_cell::last_star(cells);
    let mut at: usize = 1;
    let mut count: usize = 0;
    while let Some(path) = pattern_paths::next_path(paths, at, cells, sets, last) {
        count += 1;
        at = path.to;
    }
    count
}

// The same, the pattern settled in lent tables.
fn count_settled(pattern: &[u8], paths: &[u8], cells: &mut [u16], sets: &mut [u64]) -> usize
    requires paths_value { (well_formed Kind.Paths paths.now ≡ true) × (length pattern.now ≤ 2 * row_limit) }
    requires cells_len { (length cells.old ≡ row_limit) × (length sets.old ≡ 2732) }
    ensures { result ≡ matching pattern.now (held_texts paths.now) }
{
    match pattern_settle::settle(pattern, true, Width::Marked, cells, sets) {
        Ok(settled) => count_paths(&cells[..settled.count], sets, paths),
        Err(_) => 0,
    }
}

// How many paths of an image the units of a pattern match, none where a class refuses it. As for a field, it is settled once for them all.
#[unsafe(no_mangle)]
pub extern "C" fn measured_matching(pattern: &[u8], paths: &[u8]) -> usize
    requires { (well_formed Kind.Paths paths.now ≡ true) × (length pattern.now ≤ 2 * row_limit) }
    ensures { result ≡ matching pattern.now (held_texts paths.now) }
{
    let mut cells = [0u16; numbers::ROW_LIMIT];
    let mut sets = [0u64; pattern_settle::SETS_ROOM];
    count_settled(pattern, paths, &mut cells, &mut sets)
}

// The number that refuses a line in reading, or 0.
#[unsafe(no_mangle)]
pub extern "C" fn measured_read(line: &[u8]) -> u8
    ensures { result ≡ number_of (read_line line.now) }
{
    match read_line::read_line(line) {
        Ok(()) => 0,
        Err(refused) => refused.why.number(),
    }
}
