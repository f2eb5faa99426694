// Keys looked up in images of pairs, variables or homes: where a key is or belongs, and what its value is. Texts looked up by their numbers in images of
// texts.
#![tactic(auto)]

ghost use Rattle.std.specs.Prelude.{◌≡◌, length};
ghost use Rattle.stages.specs.Bytes.{text};
ghost use Rattle.stages.specs.Images.{held, held_texts, lookup, or_empty};
ghost use Rattle.stages.specs.Params.{numbered};
ghost use Rattle.table.specs.Places.{Listed, Table, Placed, Looked};
ghost use Rattle.table_find.specs.Bytes.{Within, bytes_of};
ghost use Rattle.table_find.specs.Numbered.{Numbers};

use std::cmp::Ordering;
use table::{Part, Record};

// Where the record of a key is, or where it belongs: the walk stops at the first key that is not below it.
pub fn place_of(image: &[u8], key: &[u8]) -> Result<Record, usize>
    requires { Table image.now }
    ensures { Placed image.now key.now result }
{
    let mut at: usize = 1;
    while at < image.len() {
        let start = at + 2;
        let mid = start + table::size_at(image, at);
        let end = mid + 2 + table::size_at(image, mid);
        match text::compare(key, &image[start..mid]) {
            Ordering::Less => return Err(at),
            Ordering::Equal => return Ok(Record { at, mid, end }),
            Ordering::Greater => at = end,
        }
    }
    Err(at)
}

// Where the value of a key is.
pub fn look_up(image: &[u8], key: &[u8]) -> Option<Part>
    requires { Table image.now }
    ensures { Looked image.now key.now result }
{
    let record = place_of(image, key).ok()?;
    Some(Part {
        from: record.mid + 2,
        to: record.end,
    })
}

// A part of an image, and no bytes of none.
fn bytes_of(image: &[u8], part: Option<Part>) -> &[u8]
    requires { Within image.now part }
    ensures { result.now ≡ bytes_of image.now part }
{
    match part {
        Some(part) => &image[part.from..part.to],
        None => &[],
    }
}

// The value of a key, a part of the image itself; empty if there is none.
pub fn value_of<'a>(image: &'a [u8], key: &[u8]) -> &'a [u8]
    requires { Table image.now }
    ensures { result.now ≡ or_empty (lookup key.now (held image.now)) }
{
    bytes_of(image, look_up(image, key))
}

// Where the value of IFS is.
pub fn look_up_ifs(vars: &[u8]) -> Option<Part>
    requires { Table vars.now }
    ensures { Looked vars.now (text "IFS") result }
{
    look_up(vars, b"IFS")
}

// Where the value of HOME is.
pub fn look_up_home(vars: &[u8]) -> Option<Part>
    requires { Table vars.now }
    ensures { Looked vars.now (text "HOME") result }
{
    look_up(vars, b"HOME")
}

// Where the text of a number is, the first being 1. There is none of number 0, nor beyond the list.
pub fn find_text(image: &[u8], number: usize) -> Option<Part>
    requires { Listed image.now }
    ensures { Numbers image.now number result }
{
    let mut at: usize = 1;
    let mut count: usize = 0;
    while let Ok(Some(end)) = table::text_at(image, at) {
        count += 1;
        if count == number {
            return Some(Part {
                from: at + 2,
                to: end,
            });
        }
        at = end;
    }
    None
}

// The text of a number, a part of the image itself; empty if there is none.
pub fn text_of(image: &[u8], number: usize) -> &[u8]
    requires { Listed image.now }
    ensures { result.now ≡ or_empty (numbered number (held_texts image.now)) }
{
    bytes_of(image, find_text(image, number))
}

// How many texts an image has.
pub fn count_texts(image: &[u8]) -> usize
    requires { Listed image.now }
    ensures { result ≡ length (held_texts image.now) }
{
    let mut at: usize = 1;
    let mut texts: usize = 0;
    while let Ok(Some(end)) = table::text_at(image, at) {
        texts += 1;
        at = end;
    }
    texts
}
