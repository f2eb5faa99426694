// What member of a bracket stands at a place, and the place behind it: the search for a bracket's end and the set of its members both go from member to member
// by this.
#![tactic(auto)]

ghost use Rattle.std.specs.Prelude.{◌≡◌, ◌&&◌, ◌+◌, ◌≤◌, ◌<◌, eqb, length, drop, get_or};
ghost use Rattle.stages.specs.Classes.{classes};
ghost use Rattle.stages.specs.Pattern.{ranges, class_at, class_member, byte_member, member_length};
ghost use Rattle.pattern_unit.specs.Widths.{size, signs_by};
ghost use Rattle.pattern_member.specs.Members.{opens, first_member, member_of, is_row, Says, behind_read, Within};

use pattern_unit::Width;

// A member of a bracket: a byte, a range, or a class by its row in the table.
#[derive(Clone, Copy)]
pub enum Member {
    Single(u8),
    Range { lo: u8, hi: u8 },
    Class(usize),
}

// A class that is not served, or that is an end of a range: it refuses the pattern with 19.
#[derive(Clone, Copy, PartialEq, Eq)]
pub struct BadClass;

// For paths, "a bracket whose search meets a slash, quoted or not, is not one".
pub fn bars(units: &[u8], at: usize, path: bool) -> bool
    requires { at < length units.now }
    ensures { result ≡ (path && eqb (get_or units.now at 0) 47) }
{
    path && units[at] == b'/'
}

// "active `[` directly before active `:`, `.` or `=`".
fn opens_class(units: &[u8], at: usize, width: Width) -> bool
    requires { at ≤ length units.now }
    ensures { result ≡ opens (signs_by width (drop at units.now)) }
{
    if !pattern_unit::is_live(units, at, b'[', width) {
        return false;
    }
    let next = at + pattern_unit::unit_size(width);
    pattern_unit::is_live(units, next, b':', width)
        || pattern_unit::is_live(units, next, b'.', width)
        || pattern_unit::is_live(units, next, b'=', width)
}

// "An active `-` between two members is a range": so go the units behind a member that begins one.
fn is_range(units: &[u8], at: usize, path: bool, width: Width) -> bool
    requires { at ≤ length units.now }
    ensures { result ≡ ranges path (signs_by width (drop at units.now)) }
{
    if !pattern_unit::is_live(units, at, b'-', width) {
        return false;
    }
    let size = pattern_unit::unit_size(width);
    let end = at + size;
    end + size <= units.len()
        && !pattern_unit::is_live(units, end, b']', width)
        && !bars(units, end, path)
}

// The member of a `[` that opens a class, its place the one behind the `[`: "An unknown name, or `[.` or `[=`, stays 19. A class as an end of a range is 19."
fn class_member(units: &[u8], at: usize, path: bool, width: Width) -> Result<Member, BadClass>
    requires { at ≤ length units.now }
    ensures { let s = signs_by width (drop at units.now) in Says width units.now at (class_member path (class_at classes s) s) result }
{
    let Some(row) = pattern_class::class_at(units, at, width) else {
        return Err(BadClass);
    };
    let n = pattern_unit::unit_size(width) * pattern_class::written_length(row);
    if is_range(units, at + n, path, width) {
        return Err(BadClass);
    }
    Ok(Member::Class(row))
}

// The member of any other byte, which may begin a range. The place is the one behind the byte.
fn byte_member(units: &[u8], at: usize, b: u8, path: bool, width: Width) -> Result<Member, BadClass>
    requires { at ≤ length units.now }
    ensures { Says width units.now at (byte_member path b (signs_by width (drop at units.now))) result }
{
    if !is_range(units, at, path, width) {
        return Ok(Member::Single(b));
    }
    let end = at + pattern_unit::unit_size(width);
    if opens_class(units, end, width) {
        return Err(BadClass);
    }
    Ok(Member::Range {
        lo: b,
        hi: units[end],
    })
}

// The member that begins at a place.
pub fn member_at(units: &[u8], at: usize, path: bool, width: Width) -> Result<Member, BadClass>
    requires { at + size width ≤ length units.now }
    ensures { Says width units.now (at + size width) (first_member path (signs_by width (drop at units.now))) result }
{
    let next = at + pattern_unit::unit_size(width);
    if opens_class(units, at, width) {
        return class_member(units, next, path, width);
    }
    byte_member(units, next, units[at], path, width)
}

// How many units a member has.
fn units_of(member: Member) -> usize
    requires { is_row member }
    ensures { result ≡ member_length (member_of member) + 1 }
{
    match member {
        Member::Single(_) => 1,
        Member::Range { .. } => 3,
        Member::Class(row) => pattern_class::written_length(row) + 1,
    }
}

// The place behind what is read at a place: a member, or one unit, where it refuses the pattern.
#[tactic(auto, unfolding(stages::specs::Pattern::member_length))]
pub fn behind(read: Result<Member, BadClass>, at: usize, width: Width) -> usize
    requires { Within read at width }
    ensures { result ≡ behind_read read at width }
{
    let units = match read {
        Ok(member) => units_of(member),
        Err(BadClass) => 1,
    };
    at + pattern_unit::unit_size(width) * units
}
