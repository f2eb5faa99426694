// The set of byte values that a bracket stands for, as 256 bits: gathered from the units of its members, and kept in a table of words.
#![tactic(auto)]

ghost use Rattle.std.specs.Prelude.{◌≡◌, false, not, ◌||◌, ℕ, ◌+◌, ◌≤◌, ◌<◌, eqb, length, drop};
ghost use Rattle.stages.specs.Bytes.{between};
ghost use Rattle.stages.specs.Pattern.{member_holds, listed, sense_of, in_set};
ghost use Rattle.pattern_unit.specs.Widths.{signs_by};
ghost use Rattle.pattern_class.specs.Rows.{count, row_class};
ghost use Rattle.pattern_member.specs.Members.{member_of, is_row};
ghost use Rattle.pattern_set.specs.Sets.{has, PutsWords};

use pattern_member::Member;
use pattern_unit::Width;

// A word with all its bits.
const FULL: u64 = 0xffff_ffff_ffff_ffff;

// "A bracket stands for a set of the 256 byte values": a bit for each of them.
#[derive(Clone, Copy)]
pub struct ByteSet {
    pub words: [u64; 4],
}

// The set without members.
pub fn none() -> ByteSet
    ensures { (k : ℕ) → k < 256 → has result.words k ≡ false }
{
    ByteSet { words: [0; 4] }
}

impl ByteSet {
    // The set with one byte more.
    pub fn with_byte(mut self, b: u8) -> Self
        ensures { (k : ℕ) → k < 256 → has result.words k ≡ (eqb b k || has self.words k) }
    {
        let i = b as usize;
        self.words[i / 64] |= 1 << (i % 64);
        self
    }

    // The set with all bytes from lo to hi, both included: none if the range falls.
    fn with_range(mut self, lo: u8, hi: u8) -> Self
        ensures { (k : ℕ) → k < 256 → has result.words k ≡ (between lo k hi || has self.words k) }
    {
        for b in lo..=hi {
            self = self.with_byte(b);
        }
        self
    }

    // The set with all bytes of a class.
    fn with_class(self, row: usize) -> Self
        requires { row < count }
        ensures { (k : ℕ) → k < 256 → has result.words k ≡ ((row_class row).holds k || has self.words k) }
    {
        let runs = pattern_class::runs(row);
        self.with_range(runs[6], runs[7])
            .with_range(runs[4], runs[5])
            .with_range(runs[2], runs[3])
            .with_range(runs[0], runs[1])
    }

    // The set with all bytes of a member.
    fn with_member(self, member: Member) -> Self
        requires { is_row member }
        ensures { (k : ℕ) → k < 256 → has result.words k ≡ (member_holds (member_of member) k || has self.words k) }
    {
        match member {
            Member::Single(b) => self.with_byte(b),
            Member::Range { lo, hi } => self.with_range(lo, hi),
            Member::Class(row) => self.with_class(row),
        }
    }

    // All other bytes.
    pub fn others(self) -> Self
        ensures { (k : ℕ) → k < 256 → has result.words k ≡ not (has self.words k) }
    {
        // Word by word: from what `map` says of its calls the words were not proved.
        let w = self.words;
        ByteSet {
            words: [w[0] ^ FULL, w[1] ^ FULL, w[2] ^ FULL, w[3] ^ FULL],
        }
    }

    // Whether the byte is in the set.
    pub fn has(self, b: u8) -> bool
        ensures { result ≡ has self.words b }
    {
        let i = b as usize;
        (self.words[i / 64] >> (i % 64)) & 1 == 1
    }
}

// The set of the members, by one walk over them.
fn members(units: &[u8], width: Width) -> ByteSet
    ensures { (k : ℕ) → k < 256 → has result.words k ≡ listed 0 (signs_by width units.now) k }
{
    let size = pattern_unit::unit_size(width);
    let mut set = none();
    let mut at = 0;
    while at + size <= units.len() {
        let read = pattern_member::member_at(units, at, false, width);
        // What refuses a pattern holds no byte.
        if let Ok(member) = read {
            set = set.with_member(member);
        }
        at = pattern_member::behind(read, at, width);
    }
    set
}

// The set that a bracket stands for: its members, or with the `!` all other bytes.
pub fn set_of(units: &[u8], negative: bool, width: Width) -> ByteSet
    ensures { (k : ℕ) → k < 256 → has result.words k ≡ in_set (sense_of negative) (signs_by width units.now) k }
{
    let set = members(units, width);
    if negative { set.others() } else { set }
}

// The set whose words stand at a place of a table.
pub fn set_at(sets: &[u64], at: usize) -> ByteSet
    requires { at + 4 ≤ length sets.now }
    ensures { (k : ℕ) → k < 256 → has result.words k ≡ has (drop at sets.now) k }
{
    // `copy_from_slice` would ask for an array of zeros first.
    ByteSet {
        words: [sets[at], sets[at + 1], sets[at + 2], sets[at + 3]],
    }
}

// Writes a set's words at a place of a table.
pub fn put_set(set: ByteSet, sets: &mut [u64], at: usize)
    requires { at + 4 ≤ length sets.old }
    ensures { PutsWords set.words at sets.old sets.new }
{
    sets[at..at + 4].copy_from_slice(&set.words);
}
