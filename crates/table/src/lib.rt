// Images of the four kinds of table: is one well formed, and what stands at a place of it.
#![tactic(auto)]

ghost use Rattle.std.specs.Prelude.{◌≡◌, ◌+◌, ◌<◌, length};
ghost use Rattle.stages.specs.Bytes.{lt_text};
ghost use Rattle.stages.specs.Images.{is_name, is_login};
ghost use Rattle.table.specs.Kinds.{well_formed, limit_of, in_twos, key_fits, key_at, record_end};
ghost use Rattle.table.specs.Pieces.{size_at, frame_at, piece_at};
ghost use Rattle.table.specs.Words.{Weighs};

use text::{Class, numbers};

// The kinds of table: what their records are.
#[derive(Clone, Copy)]
pub enum Kind {
    Variables,
    Homes,
    Paths,
    Fields,
}

// No text of an image stands at a place, though bytes do: it is cut off, or has a zero byte.
#[derive(Clone, Copy, PartialEq, Eq)]
pub struct Malformed;

// The record of a key: it begins at `at`, its name ends at `mid`, and its value behind two more bytes at `end`.
#[derive(Clone, Copy)]
pub struct Record {
    pub at: usize,
    pub mid: usize,
    pub end: usize,
}

// The bytes from one place to another.
#[derive(Clone, Copy)]
pub struct Part {
    pub from: usize,
    pub to: usize,
}

// The length that the two bytes at a place say.
pub fn size_at(image: &[u8], at: usize) -> usize
    requires { at + 1 < length image.now }
    ensures { result ≡ size_at image.now at }
{
    usize::from(u16::from_be_bytes([image[at], image[at + 1]]))
}

// Where the text ends that stands at a place of an image, or that nothing more does. Zero bytes are not looked for.
fn frame_at(image: &[u8], at: usize) -> Result<Option<usize>, Malformed>
    ensures { result ≡ frame_at image.now at }
{
    if image.len() <= at {
        return Ok(None);
    }
    let left = image.len() - at;
    if left == 1 {
        return Err(Malformed);
    }
    let n = size_at(image, at);
    if left - 2 < n {
        return Err(Malformed);
    }
    Ok(Some(at + 2 + n))
}

// The same of a text that may hold no zero byte.
pub fn text_at(image: &[u8], at: usize) -> Result<Option<usize>, Malformed>
    ensures { result ≡ piece_at image.now at }
{
    let Some(end) = frame_at(image, at)? else {
        return Ok(None);
    };
    let start = at + 2;
    if text::no_zero(&image[start..end]) {
        Ok(Some(end))
    } else {
        Err(Malformed)
    }
}

// Is it "a letter or `_`, then letters, digits, `_`"?
fn is_name(key: &[u8]) -> bool
    ensures { result ≡ is_name key.now }
{
    !key.is_empty()
        && text::in_class(Class::NameStart, key[0])
        && text::run_end(key, 1, Class::NameByte) == key.len()
}

// Is it "one or more letters, digits, `.`, `_`, `-`"?
fn is_login(key: &[u8]) -> bool
    ensures { result ≡ is_login key.now }
{
    !key.is_empty() && text::run_end(key, 0, Class::LoginByte) == key.len()
}

// The number that eight bytes are, the first weighing most: it stands to another as the texts do.
fn word(text: &[u8]) -> u64
    requires { length text.now ≡ 8 }
    ensures { Weighs text.now result }
{
    u64::from_be_bytes([
        text[0], text[1], text[2], text[3], text[4], text[5], text[6], text[7],
    ])
}

// Is the first text below the second? Eight bytes of each are compared at once while both have so many: on keys of 8 to 23 bytes the library's order takes
// 1.3 to 1.4 times as long.
fn rises(last: &[u8], key: &[u8]) -> bool
    ensures { result ≡ lt_text last.now key.now }
{
    let words = last.len().min(key.len()) / 8;
    for i in 0..words {
        let x = word(&last[8 * i..8 * i + 8]);
        let y = word(&key[8 * i..8 * i + 8]);
        if x != y {
            return x < y;
        }
    }
    text::compare(&last[8 * words..], &key[8 * words..]).is_lt()
}

// May this key of the kind stand behind the last one?
pub fn key_fits(kind: Kind, last: &[u8], key: &[u8]) -> bool
    ensures { result ≡ key_fits kind last.now key.now }
{
    match kind {
        Kind::Variables => is_name(key) && rises(last, key),
        Kind::Homes => is_login(key) && rises(last, key),
        Kind::Paths => rises(last, key),
        Kind::Fields => true,
    }
}

// The most bytes that an image of the kind may have.
fn limit(kind: Kind) -> usize
    ensures { result ≡ limit_of kind }
{
    match kind {
        Kind::Variables | Kind::Homes | Kind::Fields => numbers::IMAGE_LIMIT,
        Kind::Paths => numbers::PATHS_LIMIT,
    }
}

// Is a record of the kind two texts?
fn in_twos(kind: Kind) -> bool
    ensures { result ≡ in_twos kind }
{
    matches!(kind, Kind::Variables | Kind::Homes)
}

// Where a record's key ends that begins at a place: one that must be a name or a login is not looked at for zero bytes, which neither has.
fn key_at(kind: Kind, image: &[u8], at: usize) -> Result<Option<usize>, Malformed>
    ensures { result ≡ key_at kind image.now at }
{
    if in_twos(kind) {
        frame_at(image, at)
    } else {
        text_at(image, at)
    }
}

// The end of a record whose first text ends at a place: that of the text there, or the place itself.
fn record_end(kind: Kind, image: &[u8], at: usize) -> Result<Option<usize>, Malformed>
    ensures { result ≡ record_end kind image.now at }
{
    if in_twos(kind) {
        text_at(image, at)
    } else {
        Ok(Some(at))
    }
}

// Is it an image of the kind? One walk over its records; the key before the first is the empty text.
pub fn well_formed(kind: Kind, image: &[u8]) -> bool
    ensures { result ≡ well_formed kind image.now }
{
    if limit(kind) < image.len() || image.is_empty() || image[0] != numbers::VERSION {
        return false;
    }
    let mut at: usize = 1;
    let mut from: usize = 0;
    let mut to: usize = 0;
    loop {
        let end = match key_at(kind, image, at) {
            Ok(Some(end)) => end,
            Ok(None) => return true,
            Err(Malformed) => return false,
        };
        let start = at + 2;
        if !key_fits(kind, &image[from..to], &image[start..end]) {
            return false;
        }
        from = start;
        to = end;
        let Ok(Some(next)) = record_end(kind, image, end) else {
            return false;
        };
        at = next;
    }
}
