// A path into an image of paths, and out of it: one walk finds its place, what stands behind moves, and its record is written or gone.
#![tactic(auto)]

ghost use Rattle.std.specs.Prelude.{◌≤◌, [], length, take};
ghost use Rattle.stages.specs.Numbers.{paths_limit};
ghost use Rattle.stages.specs.Images.{framed, held_texts};
ghost use Rattle.table_store.specs.Splice.{spliced};
ghost use Rattle.table_insert.specs.Added.{Column, Free, Inserts, adding, Adds};
ghost use Rattle.table_insert.specs.Removed.{Cuts, removing, Removes};

use std::cmp::Ordering;
use table::Part;

// Why a path is not added: it is there, or the image with it would be too long.
#[derive(Clone, Copy, PartialEq, Eq)]
pub enum AddError {
    Twice,
    NoRoom,
}

// Where the path's record is, or where it belongs: the walk stops at the first that is not below it.
fn place_of(image: &[u8], path: &[u8]) -> Result<Part, usize>
    requires { Column image.now }
    ensures { Free image.now path.now result }
{
    let mut at: usize = 1;
    while let Ok(Some(end)) = table::text_at(image, at) {
        match text::compare(path, &image[at + 2..end]) {
            Ordering::Less => return Err(at),
            Ordering::Equal => return Ok(Part { from: at, to: end }),
            Ordering::Greater => at = end,
        }
    }
    Err(at)
}

// Puts the path's record at a place of the first `used` bytes, if they are then at most `limit`. What stands behind it moves up first; the bytes from the
// new end on stay. Answers the length that the first bytes then have.
fn insert(
    image: &mut [u8],
    used: usize,
    at: usize,
    path: &[u8],
    limit: usize,
) -> Result<usize, AddError>
    requires { (at ≤ used) × (used ≤ limit) × (limit ≤ length image.old) × (limit ≤ paths_limit) }
    ensures { Inserts limit (spliced image.old used at at (framed path.now)) image.old image.new result }
{
    let room = limit - used;
    if room < 2 || room - 2 < path.len() {
        return Err(AddError::NoRoom);
    }
    let size = path.len() + 2;
    text_copy::shift(image, at, at + size, used - at);
    table_store::put_record(&mut image[at..], path).unwrap();
    Ok(used + size)
}

// Adds a path to the image that the first `used` bytes are, if it is not there yet and the new image has at most `limit` bytes; if not, all bytes stay.
// The bytes from the new image's end on stay. Answers its length.
pub fn add(image: &mut [u8], used: usize, path: &[u8], limit: usize) -> Result<usize, AddError>
    requires used_le_limit { (used ≤ limit) × (limit ≤ length image.old) × (limit ≤ paths_limit) }
    requires column { Column (take used image.old) }
    ensures { Adds (adding limit path.now (held_texts (take used image.old))) image.old image.new result }
{
    match place_of(&image[..used], path) {
        Ok(_) => Err(AddError::Twice),
        Err(place) => insert(image, used, place, path, limit),
    }
}

// Takes the bytes from `at` to `end` out of the first `used`: what stands behind them moves down, and zeros come behind it up to `used`. Answers what is left
// of the first `used` bytes.
fn cut(image: &mut [u8], used: usize, at: usize, end: usize) -> usize
    requires { (at ≤ end) × (end ≤ used) × (used ≤ length image.old) }
    ensures { Cuts used (spliced image.old used at end []) image.old image.new result }
{
    text_copy::shift(image, end, at, used - end);
    let left = used - (end - at);
    text_copy::fill_zero(&mut image[left..used]);
    left
}

// Removes a path from the image that the first `used` bytes are, if it is there; if not, all bytes stay. Zeros come behind the new image up to `used`, and
// the bytes from there on stay. Answers the new image's length, if the path was there.
pub fn remove(image: &mut [u8], used: usize, path: &[u8]) -> Option<usize>
    requires used_in_bounds { used ≤ length image.old }
    requires column { Column (take used image.old) }
    ensures { Removes used (removing path.now (held_texts (take used image.old))) image.old image.new result }
{
    let record = place_of(&image[..used], path).ok()?;
    Some(cut(image, used, record.from, record.to))
}
