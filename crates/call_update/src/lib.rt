// A path inserted into the lent image of paths, and one deleted: document 02's E11. The image is "now a buffer with a used length, which every answer gives".
#![tactic(auto)]

ghost use Rattle.std.specs.Prelude.{◌≡◌};
ghost use Rattle.stages.specs.Numbers.{accepted};
ghost use Rattle.text.specs.Refusals.{refusal_number};
ghost use Rattle.stages.specs.Updates.{is_path, inserter, deleter};
ghost use Rattle.call_update.specs.Hands.{updating, is_ready, room_in, answer_as, Hands};

use table::Kind;
use table_insert::AddError;
use text::numbers;
use text::refusal::Refusal;

// A number, a place, and the used length of the paths. Laid out as C lays it out.
#[repr(C)]
#[derive(Clone, Copy)]
pub struct Updated {
    pub number: u8,
    pub place: usize,
    pub used: usize,
}

// An acceptance: the paths have this used length.
fn accept(used: usize) -> Updated
    ensures { result ≡ answer_as accepted used }
{
    Updated {
        number: numbers::ACCEPTED,
        place: 0,
        used,
    }
}

// A refusal, whose place is 0: the used length is the one that was given.
fn refuse(why: Refusal, used: usize) -> Updated
    ensures { result ≡ answer_as (refusal_number why) used }
{
    Updated {
        number: why.number(),
        place: 0,
        used,
    }
}

// "an empty path or one with a zero byte is 4"
#[tactic(auto, using(crate::proofs::Answering::path_tests))]
fn is_path(path: &[u8]) -> bool
    ensures { result ≡ is_path path.now }
{
    !path.is_empty() && text::no_zero(path)
}

// Is there no 4, neither "for the image or a used length beyond the buffer" nor "for the path"?
fn is_ready(paths: &[u8], paths_used: usize, path: &[u8]) -> bool
    ensures { result ≡ is_ready (updating paths.now paths_used path.now) }
{
    paths_used <= paths.len()
        && table::well_formed(Kind::Paths, &paths[..paths_used])
        && is_path(path)
}

// What an image may come to: "no room in the buffer or 32,768 is 21".
fn room(size: usize) -> usize
    ensures { result ≡ room_in size }
{
    size.min(numbers::PATHS_LIMIT)
}

// Inserts a path in its order into the image that the first `paths_used` bytes are. Bytes before its place and behind the new image stay; on refusal all do.
pub fn insert_path(paths: &mut [u8], paths_used: usize, path: &[u8]) -> Updated
    ensures { Hands (updating paths.old paths_used path.now)
        (inserter (updating paths.old paths_used path.now)) result paths.new }
{
    if !is_ready(paths, paths_used, path) {
        return refuse(Refusal::BadPaths, paths_used);
    }
    let limit = room(paths.len());
    match table_insert::add(paths, paths_used, path, limit) {
        Ok(n) => accept(n),
        Err(AddError::Twice) => refuse(Refusal::BadPath, paths_used),
        Err(AddError::NoRoom) => refuse(Refusal::OutputRoom, paths_used),
    }
}

// Deletes a path from the image that the first `paths_used` bytes are. Bytes before its place stay; behind the new image come zeros up to the used length
// that was given, and bytes from there on stay; on refusal all do.
pub fn delete_path(paths: &mut [u8], paths_used: usize, path: &[u8]) -> Updated
    ensures { Hands (updating paths.old paths_used path.now)
        (deleter (updating paths.old paths_used path.now)) result paths.new }
{
    if !is_ready(paths, paths_used, path) {
        return refuse(Refusal::BadPaths, paths_used);
    }
    match table_insert::remove(paths, paths_used, path) {
        Some(n) => accept(n),
        None => refuse(Refusal::BadPath, paths_used),
    }
}
