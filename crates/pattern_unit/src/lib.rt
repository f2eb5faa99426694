// The units of a pattern, read at a place: whether the unit there is this byte and active, and whether a text of active bytes begins there. N units are gone,
// so a unit is quoted or active; bytes that are too few for a unit count for nothing.
#![tactic(auto)]

ghost use Rattle.std.specs.Prelude.{◌≡◌, ◌+◌, ◌≤◌, length, drop};
ghost use Rattle.stages.specs.Pattern.{begin};
ghost use Rattle.pattern_unit.specs.Widths.{size, is_active, signs_by};
ghost use Rattle.pattern_unit.specs.Heads.{begins};

use text::marks;

// How a unit stands in bytes.
#[derive(Clone, Copy)]
pub enum Width {
    // a byte alone, which is active
    Plain,
    // a byte and behind it its mark
    Marked,
}

// How many bytes a unit has.
pub fn unit_size(width: Width) -> usize
    ensures { result ≡ size width }
{
    match width {
        Width::Plain => 1,
        Width::Marked => 2,
    }
}

// The unit at a place is active.
fn is_active(units: &[u8], at: usize, width: Width) -> bool
    requires { at + size width ≤ length units.now }
    ensures { result ≡ is_active width units.now at }
{
    match width {
        Width::Plain => true,
        Width::Marked => units[at + 1] != marks::QUOTED,
    }
}

// The unit at a place is this byte, and active.
pub fn is_live(units: &[u8], at: usize, c: u8, width: Width) -> bool
    requires { at ≤ length units.now }
    ensures { result ≡ begins c (signs_by width (drop at units.now)) }
{
    at + unit_size(width) <= units.len() && is_active(units, at, width) && units[at] == c
}

// The units from a place on begin with this text, "all its bytes active".
pub fn begins_with(units: &[u8], at: usize, text: &[u8], width: Width) -> bool
    requires { at ≤ length units.now }
    ensures { result ≡ begin text.now (signs_by width (drop at units.now)) }
{
    let size = unit_size(width);
    let mut k = at;
    for c in text {
        if !is_live(units, k, *c, width) {
            return false;
        }
        k += size;
    }
    true
}
