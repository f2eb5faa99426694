// Rows as patterns see them, before one is settled: their N dropped, and whether any unit of them could be more than its byte.
#![tactic(auto)]

ghost use Rattle.std.specs.Prelude.{◌≡◌};
ghost use Rattle.pattern_row.specs.Kept.{Dropped};
ghost use Rattle.pattern_row.specs.Plain.{plain};

use text::marks;

// "N vanishes": the units that are bytes move to the front, in order. The answer is how many bytes they take; all behind these stay.
pub fn drop_empty(row: &mut [u8]) -> usize
    ensures { Dropped row.old row.new result }
{
    let mut to = 0;
    for unit in 0..row.len() / 2 {
        let b = row[2 * unit];
        let m = row[2 * unit + 1];
        if marks::is_mark(m) {
            row[to] = b;
            row[to + 1] = m;
            to += 2;
        }
    }
    to
}

// No unit is a `*`, a `?` or a `[`, quoted or not: whatever the marks are, each unit stands for its byte alone, and no class is met.
pub fn is_plain(row: &[u8]) -> bool
    ensures { result ≡ plain row.now }
{
    for k in 0..row.len() / 2 {
        let b = row[2 * k];
        if b == b'*' || b == b'?' || b == b'[' {
            return false;
        }
    }
    true
}
