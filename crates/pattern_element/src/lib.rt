// The elements of a pattern, read from its units. A pattern is a slice of bytes, in which N units are gone; bytes that are too few for a unit count for
// nothing. Nothing here looks at a text.
#![tactic(auto)]

ghost use Rattle.std.specs.Prelude.{◌≡◌, true, false, not, ◌&&◌, ◌+◌, ◌≤◌, length, drop};
ghost use Rattle.stages.specs.Pattern.{find};
ghost use Rattle.pattern_unit.specs.Widths.{size, signs_by};
ghost use Rattle.pattern_unit.specs.Heads.{begins};
ghost use Rattle.pattern_element.specs.Ends.{sought_from, StepSays, entry_of, unit_of, Roomy, Ended, Served, Fills};
ghost use Rattle.pattern_element.specs.Pieces.{set_from, bracket_at, piece_at, behind_of, Within};

use pattern_member::BadClass;
use pattern_unit::Width;

// "members up to an active `]` that is not the first member": this unit ends them.
fn closes(units: &[u8], at: usize, first: bool, width: Width) -> bool
    requires { at ≤ length units.now }
    ensures { result ≡ (not first && begins 93 (signs_by width (drop at units.now))) }
{
    !first && pattern_unit::is_live(units, at, b']', width)
}

// The entry in the table of ends where the search meets a member that is 19. Each entry below it is the place of the `]`. The table is lent, with two bytes for
// each unit, so an entry is a number.
const REFUSING: u16 = 65534;

// The entry where the search finds no end.
const UNCLOSED: u16 = 65535;

// The number of the unit at a place.
fn unit_of(at: usize, width: Width) -> usize
    ensures { result ≡ unit_of width at }
{
    match width {
        Width::Plain => at,
        Width::Marked => at / 2,
    }
}

// One step of the search for a bracket's end: there is no end, the end is here, or the search goes on behind a member.
#[derive(Clone, Copy)]
enum Step {
    Fails,
    Closes,
    On(usize),
}

// The step at a place.
fn step_at(
    pattern: &[u8],
    at: usize,
    first: bool,
    path: bool,
    width: Width,
) -> Result<Step, BadClass>
    requires { at ≤ length pattern.now }
    ensures { StepSays width path first pattern.now at result }
{
    if pattern.len() < at + pattern_unit::unit_size(width) {
        return Ok(Step::Fails);
    }
    if closes(pattern, at, first, width) {
        return Ok(Step::Closes);
    }
    if pattern_member::bars(pattern, at, path) {
        return Ok(Step::Fails);
    }
    let member = pattern_member::member_at(pattern, at, path, width)?;
    Ok(Step::On(pattern_member::behind(Ok(member), at, width)))
}

// What the search for a bracket's end finds that is at this place. Behind the member there the table tells it.
fn end_at(pattern: &[u8], at: usize, first: bool, path: bool, width: Width, ends: &[u16]) -> u16
    requires at_in_bounds { at ≤ length pattern.now }
    requires ended { Ended width path pattern.now ends.now at }
    ensures { result ≡ entry_of width at (find path first 0 (signs_by width (drop at pattern.now))) }
{
    match step_at(pattern, at, first, path, width) {
        Err(BadClass) => REFUSING,
        Ok(Step::Fails) => UNCLOSED,
        Ok(Step::Closes) => at as u16,
        Ok(Step::On(next)) => {
            if pattern.len() < next + pattern_unit::unit_size(width) {
                return UNCLOSED;
            }
            let unit = unit_of(next, width);
            ends[unit]
        }
    }
}

// Fills the table of ends. Each search goes on where the one of a later unit has gone before: so all are found by one walk from the last unit to the first.
pub fn fill_ends(pattern: &[u8], path: bool, width: Width, ends: &mut [u16])
    requires { Roomy width pattern.now ends.old }
    ensures { Fills width path pattern.now ends.old ends.new }
{
    let size = pattern_unit::unit_size(width);
    for unit in (0..unit_of(pattern.len(), width)).rev() {
        let end = end_at(pattern, size * unit, false, path, width, ends);
        ends[unit] = end;
    }
}

// An element as it stands in its pattern. A set's members stand from one place to another, where its `]` is. A `[` whose search meets a member that is 19
// refuses the whole pattern; in matching it is itself.
#[derive(Clone, Copy)]
pub enum Piece {
    Star,
    One,
    Byte(u8),
    Refusing,
    Set {
        negative: bool,
        from: usize,
        to: usize,
    },
}

// The end of the bracket whose members begin at a place, by a walk over them: the place of its `]`, if it has one.
fn search_end(
    pattern: &[u8],
    from: usize,
    path: bool,
    width: Width,
) -> Result<Option<usize>, BadClass>
    requires { from ≤ length pattern.now }
    ensures { result ≡ sought_from width path true pattern.now from }
{
    let mut first = true;
    let mut at = from;
    while at < pattern.len() {
        match step_at(pattern, at, first, path, width)? {
            Step::Fails => return Ok(None),
            Step::Closes => return Ok(Some(at)),
            Step::On(next) => {
                first = false;
                at = next;
            }
        }
    }
    Ok(None)
}

// The same, by the table of ends if there is one.
fn end_from(
    pattern: &[u8],
    from: usize,
    path: bool,
    width: Width,
    ends: &[u16],
) -> Result<Option<usize>, BadClass>
    requires from_in_bounds { from ≤ length pattern.now }
    requires served { Served width path pattern.now ends.now from }
    ensures { result ≡ sought_from width path true pattern.now from }
{
    if ends.is_empty() {
        return search_end(pattern, from, path, width);
    }
    let end = end_at(pattern, from, true, path, width, ends);
    if end == REFUSING {
        return Err(BadClass);
    }
    if end == UNCLOSED {
        return Ok(None);
    }
    Ok(Some(end as usize))
}

// The bracket whose members begin at a place.
fn set_from(
    pattern: &[u8],
    from: usize,
    negative: bool,
    path: bool,
    width: Width,
    ends: &[u16],
) -> Piece
    requires from_in_bounds { from ≤ length pattern.now }
    requires served { Served width path pattern.now ends.now from }
    ensures { result ≡ set_from width negative from (find path true 0 (signs_by width (drop from pattern.now))) }
{
    match end_from(pattern, from, path, width, ends) {
        Err(BadClass) => Piece::Refusing,
        Ok(None) => Piece::Byte(b'['),
        Ok(Some(to)) => Piece::Set { negative, from, to },
    }
}

// The bracket that the active `[` before this place opens: "optional active `!` for all others".
fn bracket_at(pattern: &[u8], at: usize, path: bool, width: Width, ends: &[u16]) -> Piece
    requires at_in_bounds { at ≤ length pattern.now }
    requires served { Served width path pattern.now ends.now at }
    ensures { result ≡ bracket_at width path at (signs_by width (drop at pattern.now)) }
{
    if pattern_unit::is_live(pattern, at, b'!', width) {
        return set_from(
            pattern,
            at + pattern_unit::unit_size(width),
            true,
            path,
            width,
            ends,
        );
    }
    set_from(pattern, at, false, path, width, ends)
}

// The element at a place, by the table of ends. Without one, an empty slice, the end of a bracket is searched: so a pattern may have any length.
pub fn piece_at(pattern: &[u8], at: usize, path: bool, width: Width, ends: &[u16]) -> Piece
    requires width_in_bounds { at + size width ≤ length pattern.now }
    requires served { Served width path pattern.now ends.now at }
    ensures { result ≡ piece_at width path at (signs_by width (drop at pattern.now)) }
{
    if pattern_unit::is_live(pattern, at, b'*', width) {
        return Piece::Star;
    }
    if pattern_unit::is_live(pattern, at, b'?', width) {
        return Piece::One;
    }
    if pattern_unit::is_live(pattern, at, b'[', width) {
        return bracket_at(
            pattern,
            at + pattern_unit::unit_size(width),
            path,
            width,
            ends,
        );
    }
    Piece::Byte(pattern[at])
}

// The same without a table.
pub fn search_piece(pattern: &[u8], at: usize, path: bool, width: Width) -> Piece
    requires { at + size width ≤ length pattern.now }
    ensures { result ≡ piece_at width path at (signs_by width (drop at pattern.now)) }
{
    piece_at(pattern, at, path, width, &[])
}

// The place behind the element at a place.
pub fn behind(piece: Piece, at: usize, width: Width) -> usize
    requires { Within width piece at }
    ensures { result ≡ behind_of width piece at }
{
    let size = pattern_unit::unit_size(width);
    match piece {
        Piece::Set { to, .. } => to + size,
        Piece::Star | Piece::One | Piece::Byte(_) | Piece::Refusing => at + size,
    }
}
