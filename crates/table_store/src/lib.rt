// Writing into images: a text's record at the front of a lent area, and a variable stored in place by one splice.
#![tactic(auto)]

ghost use Rattle.std.specs.Prelude.{◌≡◌, ◌++◌, ◌+◌, ◌≤◌, length, take};
ghost use Rattle.stages.specs.Numbers.{image_limit};
ghost use Rattle.stages.specs.Images.{framed, held};
ghost use Rattle.table.specs.Places.{Table};
ghost use Rattle.table_store.specs.Answers.{put_outcome, stored_outcome, record_in, image_in, Writes};
ghost use Rattle.table_store.specs.Holding.{Holds, Settable, StoresIn};
ghost use Rattle.table_store.specs.Splice.{spliced, within, room_for};

use table::Record;
use text::numbers;

// The record is longer than the area, or no length of two bytes says its text's; or the image with a variable stored would be too long.
#[derive(Clone, Copy, PartialEq, Eq)]
pub struct NoRoom;

// Writes the text's record, its length in two bytes and then itself, at the front of the area, if there is room, and answers the bytes written; those
// behind stay. If there is none, all bytes stay. A caller lends the free part of its output, `&mut out[used..]`.
pub fn put_record(out: &mut [u8], text: &[u8]) -> Result<usize, NoRoom>
    ensures { Writes (record_in (length out.old) text.now) out.old out.new (put_outcome result) }
{
    let n = text.len();
    if numbers::TEXT_LIMIT < n || out.len() < n + 2 {
        return Err(NoRoom);
    }
    let [high, low] = (n as u16).to_be_bytes();
    out[0] = high;
    out[1] = low;
    text_copy::copy_in(text, &mut out[2..]);
    Ok(n + 2)
}

// Have the two records of texts of these lengths room?
#[tactic(auto, unfolding(crate::specs::Splice::room_for))]
fn fits(name: usize, value: usize, room: usize) -> bool
    ensures { result ≡ room_for name value room }
{
    name <= room && value <= room - name && 4 <= room - name - value
}

// Puts the two records in the place of the bytes from `at` to `end`, if the first `vars_used` bytes are then at most `limit`. What stands behind them moves
// first, up or down; the bytes from the new end on stay. Answers the length that the first bytes then have.
#[tactic(auto, unfolding(crate::specs::Splice::room_for))]
fn splice(
    vars: &mut [u8],
    vars_used: usize,
    at: usize,
    end: usize,
    name: &[u8],
    value: &[u8],
    limit: usize,
) -> Result<usize, NoRoom>
    requires { (at ≤ end) × (end ≤ vars_used) × (vars_used ≤ limit) × (limit ≤ length vars.old) × (limit ≤ image_limit) }
    ensures { Writes (within limit (spliced vars.old vars_used at end (framed name.now ++ framed value.now)))
        vars.old vars.new (stored_outcome result) }
{
    let kept = vars_used - (end - at);
    if !fits(name.len(), value.len(), limit - kept) {
        return Err(NoRoom);
    }
    let size = name.len() + value.len() + 4;
    text_copy::shift(vars, end, at + size, vars_used - end);
    put_record(&mut vars[at..], name).unwrap();
    let next = at + 2 + name.len();
    put_record(&mut vars[next..], value).unwrap();
    Ok(kept + size)
}

// Stores a value under a name in the image that the first `vars_used` bytes are, if the new image has at most `limit` bytes; if not, all bytes stay. A name
// that is there gets the new value in its place, a new one comes where its order wants it. The bytes from the new image's end on stay, also when it
// is shorter than the old one. Answers its length. A caller gives the lesser of its buffer and 8,192 as `limit`.
pub fn store(
    vars: &mut [u8],
    vars_used: usize,
    name: &[u8],
    value: &[u8],
    limit: usize,
) -> Result<usize, NoRoom>
    requires vars_used_le_limit { (vars_used ≤ limit) × (limit ≤ length vars.old) × (limit ≤ image_limit) }
    requires table { Table (take vars_used vars.old) }
    ensures { Writes (image_in limit name.now value.now (held (take vars_used vars.old))) vars.old
        vars.new (stored_outcome result) }
{
    match table_find::place_of(&vars[..vars_used], name) {
        Ok(Record { at, end, .. }) => splice(vars, vars_used, at, end, name, value, limit),
        Err(at) => splice(vars, vars_used, at, at, name, value, limit),
    }
}

// Stores a value under a name as the stages do: the image may grow to the caller's room, and to 8,192 bytes.
pub fn store_within(
    name: &[u8],
    value: &[u8],
    vars: &mut [u8],
    vars_used: usize,
    vars_room: usize,
) -> Result<usize, NoRoom>
    requires { Settable name.now value.now × Holds vars_room vars.old vars_used }
    ensures { StoresIn vars_room name.now value.now (held (take vars_used vars.old)) vars.new result }
{
    let limit = vars_room.min(numbers::IMAGE_LIMIT);
    store(vars, vars_used, name, value, limit)
}
