// How a field is written: whether it needs quotes, and which; how long a byte of it is there, and that byte written.
ghost use Rattle.std.specs.Prelude.{◌≡◌, ◌≤◌, length, false};
ghost use Rattle.stages.specs.Quote.{is_bare, singled, dollared, way_of, quoted_byte};
ghost use Rattle.text.specs.Putting.{Puts};
ghost use Rattle.quote.specs.Ways.{way_is, Looks};

use text::Class;

// How a field stands in a line.
#[derive(Clone, Copy)]
pub enum Look {
    // As it is.
    Bare,
    // In single quotes, each byte as it is.
    Plain,
    // In quotes, and not each byte as it is.
    Changed,
}

// The quotes in which bytes are written otherwise.
#[derive(Clone, Copy)]
pub enum Way {
    // In single quotes, each `'` otherwise.
    Singled,
    // In $'...', control bytes as escapes.
    Dollared,
}

pub const QUOTE: u8 = b'\'';

const BACKSLASH: u8 = b'\\';

// How a field stands in a line: bare if it is not empty and holds only letters, digits, `.`, `_`, `-` and `/`. It is looked at once: what is bare is written as
// it is in quotes too.
#[tactic(auto, using(crate::proofs::Fields::looks))]
pub fn look_at(field: &[u8]) -> Look
    ensures { Looks field.now result }
{
    if field.is_empty() {
        return Look::Plain;
    }
    let bare = text::run_end(field, 0, Class::BareByte);
    if bare == field.len() {
        return Look::Bare;
    }
    if text::run_end(field, bare, Class::SameByte) == field.len() {
        Look::Plain
    } else {
        Look::Changed
    }
}

// The quotes of a field that is not bare: $'...' if it holds a byte below 32 or byte 127, else single quotes.
#[tactic(auto, using(crate::proofs::Fields::ways_of))]
pub fn way_of(field: &[u8]) -> Way
    requires { is_bare field.now ≡ false }
    ensures { way_is result ≡ way_of field.now }
{
    if text::run_end(field, 0, Class::NotControl) == field.len() {
        Way::Singled
    } else {
        Way::Dollared
    }
}

// How many bytes a byte of a field takes in single quotes.
#[tactic(auto, using(crate::proofs::Lengths::byte_cases))]
fn singled_length(b: u8) -> usize
    ensures { result ≡ length (quoted_byte singled b) }
{
    if b == QUOTE { 4 } else { 1 }
}

// How many bytes a byte of a field takes in $'...'.
#[tactic(auto, using(crate::proofs::Lengths::byte_cases))]
fn dollared_length(b: u8) -> usize
    ensures { result ≡ length (quoted_byte dollared b) }
{
    if text::is_in(b, b"\\'") {
        2
    } else if text::in_class(Class::NotControl, b) {
        1
    } else {
        4
    }
}

// How many bytes a byte of a field takes in its way: two arms by name, which a closure would make no plainer.
pub fn byte_length(way: Way, b: u8) -> usize
    ensures { result ≡ length (quoted_byte (way_is way) b) }
{
    match way {
        Way::Singled => singled_length(b),
        Way::Dollared => dollared_length(b),
    }
}

// Writes a byte of a field in single quotes: `'` as `'\''`, any other as itself.
fn put_singled(b: u8, out: &mut [u8]) -> usize
    requires { length (quoted_byte singled b) ≤ length out.old }
    ensures { Puts (quoted_byte singled b) out.old out.new result }
{
    out[0] = b;
    if b != QUOTE {
        return 1;
    }
    out[1] = BACKSLASH;
    out[2] = QUOTE;
    out[3] = QUOTE;
    4
}

// Writes a byte of a field in $'...': a backslash and `'` behind a backslash, a byte below 32 and byte 127 as three octal digits, any other as itself.
fn put_dollared(b: u8, out: &mut [u8]) -> usize
    requires { length (quoted_byte dollared b) ≤ length out.old }
    ensures { Puts (quoted_byte dollared b) out.old out.new result }
{
    if text::is_in(b, b"\\'") {
        out[0] = BACKSLASH;
        out[1] = b;
        return 2;
    }
    if text::in_class(Class::NotControl, b) {
        out[0] = b;
        return 1;
    }
    out[0] = BACKSLASH;
    out[1] = b'0' + b / 64;
    out[2] = b'0' + b / 8 % 8;
    out[3] = b'0' + b % 8;
    4
}

// Writes a byte of a field in its way.
pub fn put_byte(way: Way, b: u8, out: &mut [u8]) -> usize
    requires { length (quoted_byte (way_is way) b) ≤ length out.old }
    ensures { Puts (quoted_byte (way_is way) b) out.old out.new result }
{
    match way {
        Way::Singled => put_singled(b, out),
        Way::Dollared => put_dollared(b, out),
    }
}
