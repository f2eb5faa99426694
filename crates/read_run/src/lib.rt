// Runs of bytes that stand for themselves: where the longest one ends, and how a text goes on behind it. What reads a text and what expands it pass such a
// run at once, and ask what stands at a place only behind it.
#![tactic(auto)]

ghost use Rattle.std.specs.Prelude.{◌≡◌, ◌≤◌, ◌<◌, length};
ghost use Rattle.read_mode.specs.Modes.{mode_of};
ghost use Rattle.read_run.specs.Literals.{low_literals, high_literals, literal_words, Literals, Passed};

use read_mode::{Cursor, Mode};

// The bytes 0 to 63 that a run has in a mode, a bit for each.
fn low_literals(mode: Mode) -> u64
    ensures { result ≡ low_literals mode }
{
    match mode {
        Mode::Word(_) => 0xa7ff_fc2a_ffff_f9ff,
        Mode::Value(_) => 0xa3ff_fc2a_ffff_f9ff,
        Mode::Bare { .. } => 0xffff_ff6b_ffff_ffff,
        Mode::Single(_) => 0xffff_ff7f_ffff_ffff,
        Mode::Double(_) | Mode::Operand(_) => 0xffff_ffeb_ffff_ffff,
        Mode::Arith(_) => 0xffff_fc6b_ffff_ffff,
    }
}

// The bytes 64 to 127 that a run has in a mode, a bit for each: a tilde where it is not looked at. Those from 128 on may always stand in one.
fn high_literals(mode: Mode) -> u64
    ensures { result ≡ high_literals mode }
{
    match mode {
        Mode::Word(true) | Mode::Value(true) => 0xafff_fffe_efff_ffff,
        Mode::Word(false) | Mode::Value(false) => 0xefff_fffe_efff_ffff,
        Mode::Bare { fresh: true, .. } => 0x9fff_fffe_efff_ffff,
        Mode::Bare { fresh: false, .. } => 0xdfff_fffe_efff_ffff,
        Mode::Single(true) => 0xffff_ffff_efff_ffff,
        Mode::Single(false) => 0xffff_ffff_ffff_ffff,
        Mode::Double(_) | Mode::Arith(_) => 0xffff_fffe_efff_ffff,
        Mode::Operand(_) => 0xdfff_fffe_efff_ffff,
    }
}

// All bytes that a run has in a mode, a bit for each.
fn literal_words(mode: Mode) -> [u64; 4]
    ensures { result ≡ literal_words mode }
{
    [
        low_literals(mode),
        high_literals(mode),
        text::ALL_BITS,
        text::ALL_BITS,
    ]
}

// The end of the longest run of bytes from `at` on that stand for themselves in the mode and leave a tilde behind them alone.
pub fn literals_end(text: &[u8], at: usize, mode: Mode) -> usize
    requires { at ≤ length text.now }
    ensures { Literals text.now at (mode_of mode) result }
{
    at + text::bits_run(&literal_words(mode), &text[at..])
}

// Where a text goes on behind that run: behind a byte of it the text has begun.
pub fn behind_literals(text: &[u8], from: Cursor) -> Cursor
    requires { from.at ≤ length text.now }
    ensures { Passed text.now from result }
{
    let at = literals_end(text, from.at, from.mode);
    if at == from.at {
        return from;
    }
    let mode = read_mode::onward(from.mode);
    Cursor { at, mode, ..from }
}
