// "the twelve POSIX classes": one table of what is written for each and which bytes it holds, in the order of the stage's. A class is known by its row.
#![tactic(auto)]

ghost use Rattle.std.specs.Prelude.{◌≡◌, ◌≤◌, ◌<◌, length, drop};
ghost use Rattle.stages.specs.Classes.{written};
ghost use Rattle.stages.specs.Pattern.{begin};
ghost use Rattle.pattern_unit.specs.Widths.{signs_by};
ghost use Rattle.pattern_class.specs.Rows.{count, row_class, Finds};
ghost use Rattle.pattern_class.specs.Table.{entry, Holds};

use pattern_unit::Width;

// A class as the table has it: the bytes that stand behind its `[`, filled up by a blank, and how many they are; the bytes that it holds, as four runs, each by
// its first byte and its last. Where there are fewer, the last run stands again.
#[derive(Clone, Copy)]
struct Class([u8; 9], usize, [u8; 8]);

// How many classes there are.
const COUNT: usize = 12;

// The table. It is no constant array, which would be laid out again at each call.
#[tactic(auto, unfolding(crate::specs::Table::table))]
fn class_of(row: usize) -> Class
    requires { row < count }
    ensures { result ≡ entry row }
{
    match row {
        0 => Class(*b":alnum:] ", 8, *b"09AZazaz"),
        1 => Class(*b":alpha:] ", 8, *b"AZazazaz"),
        2 => Class(*b":blank:] ", 8, *b"\t\t      "),
        3 => Class(*b":cntrl:] ", 8, *b"\x00\x1f\x7f\x7f\x7f\x7f\x7f\x7f"),
        4 => Class(*b":digit:] ", 8, *b"09090909"),
        5 => Class(*b":graph:] ", 8, *b"!~!~!~!~"),
        6 => Class(*b":lower:] ", 8, *b"azazazaz"),
        7 => Class(*b":print:] ", 8, *b" ~ ~ ~ ~"),
        8 => Class(*b":punct:] ", 8, *b"!/:@[`{~"),
        9 => Class(*b":space:] ", 8, *b"\t\r      "),
        10 => Class(*b":upper:] ", 8, *b"AZAZAZAZ"),
        _ => Class(*b":xdigit:]", 9, *b"09AFafaf"),
    }
}

// How many bytes stand behind the `[` of a class.
pub fn written_length(row: usize) -> usize
    requires { row < count }
    ensures { result ≡ length (written (row_class row)) }
{
    class_of(row).1
}

// The bytes of a class as four runs, each by its first byte and its last.
pub fn runs(row: usize) -> [u8; 8]
    requires { row < count }
    ensures { Holds row result }
{
    class_of(row).2
}

// The class is written from a place on, "all its bytes active".
fn is_written(units: &[u8], at: usize, row: usize, width: Width) -> bool
    requires { (at ≤ length units.now) × (row < count) }
    ensures { result ≡ begin (written (row_class row)) (signs_by width (drop at units.now)) }
{
    let class = class_of(row);
    let text = class.0;
    pattern_unit::begins_with(units, at, &text[..class.1], width)
}

// The class that is written behind a `[` from a place on, by its row of the table; none if no class of the table is.
pub fn class_at(units: &[u8], at: usize, width: Width) -> Option<usize>
    requires { at ≤ length units.now }
    ensures { Finds width units.now at result }
{
    for row in 0..COUNT {
        if is_written(units, at, row, width) {
            return Some(row);
        }
    }
    None
}
