// The byte that stands for a unit's mark, behind the unit's own byte; 0 for the empty mark N, whose own byte and that of the break mark are 0.
ghost use Rattle.std.specs.Prelude.{◌≡◌};
ghost use Rattle.text.specs.Rows.{is_mark};

// L
pub const LITERAL: u8 = 1;

// E
pub const EXPANDED: u8 = 2;

// Q
pub const QUOTED: u8 = 3;

// B, "a break mark"
pub const BREAK: u8 = 4;

// Whether a byte stands for the mark of a unit that is a byte: no other unit has a byte of its own.
pub fn is_mark(b: u8) -> bool
    ensures { result ≡ is_mark b }
{
    b == LITERAL || b == EXPANDED || b == QUOTED
}
