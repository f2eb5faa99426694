// The quoter: a fields image becomes one line, each field bare, in '...' or in $'...'. Nothing is written unless all of the line has room: it has if four
// times the image has, and else the line is counted first; then it is written once. Counting and writing have a function for each stage of the quoted line:
// a byte, a field's bytes, a field, the fields behind the first, the line: apart, since one over a sink that counts or writes would write runs byte by byte.
// `look_at` alone tells which field needs no byte changed, and `way_of` the quotes of any other.
#![tactic(auto)]

ghost use Rattle.std.specs.Prelude.{◌≡◌, ◌≤◌, length, false};
ghost use Rattle.stages.specs.Numbers.{image_limit};
ghost use Rattle.std.proofs.Math.Option.{some};
ghost use Rattle.stages.specs.Images.{fields_of, held_texts};
ghost use Rattle.stages.specs.Quote.{is_bare, singled, quoted_bytes, enclosed, quoted_field, blanked, quoted_line};
ghost use Rattle.stages.specs.Call.{quoter};
ghost use Rattle.text.specs.Putting.{Puts};
ghost use Rattle.table.specs.Pieces.{texts_from};
ghost use Rattle.quote.specs.Answers.{has_room, refusal_of, quoting_of};
ghost use Rattle.quote.specs.Ways.{way_is};
ghost use Rattle.quote.specs.Rests.{Rest};

use table::Kind;
use text::refusal::Refusal;
use text::{Class, numbers};
use ways::{Look, QUOTE, Way};

mod ways;

// Why a fields image has no quoted line.
#[derive(Clone, Copy, PartialEq, Eq)]
pub enum QuoteError {
    // No image of fields, or one that is too long.
    Malformed,
    // The line is longer than a line may be, or than the buffer.
    NoRoom,
}

impl From<QuoteError> for Refusal {
    ghost from_gives = { λ error why. why ≡ refusal_of error };

    fn from(error: QuoteError) -> Refusal {
        match error {
            QuoteError::Malformed => Refusal::BadFields,
            QuoteError::NoRoom => Refusal::OutputRoom,
        }
    }
}

const BLANK: u8 = b' ';

const DOLLAR: u8 = b'$';

// How many bytes a field takes between its quotes.
fn bytes_length(way: Way, field: &[u8]) -> usize
    requires { length field.now ≤ image_limit }
    ensures { result ≡ length (quoted_bytes (way_is way) field.now) }
{
    let mut n: usize = 0;
    for b in field {
        n += ways::byte_length(way, *b);
    }
    n
}

// How many bytes a field takes that is not bare.
fn changed_length(field: &[u8]) -> usize
    requires { (length field.now ≤ image_limit) × (is_bare field.now ≡ false) }
    ensures { result ≡ length (quoted_field field.now) }
{
    let way = ways::way_of(field);
    match way {
        Way::Singled => bytes_length(way, field) + 2,
        Way::Dollared => bytes_length(way, field) + 3,
    }
}

// How many bytes a field takes.
#[tactic(auto, using(crate::proofs::Lengths::enclosed_length))]
fn field_length(field: &[u8]) -> usize
    requires { length field.now ≤ image_limit }
    ensures { result ≡ length (quoted_field field.now) }
{
    match ways::look_at(field) {
        Look::Bare => field.len(),
        Look::Plain => field.len() + 2,
        Look::Changed => changed_length(field),
    }
}

// How many bytes the fields from a place of the image on take, a blank in front of each.
fn blanked_length(fields: &[u8], from: usize) -> usize
    requires { Rest fields.now from }
    ensures { result ≡ length (blanked (texts_from fields.now from)) }
{
    let mut n: usize = 0;
    let mut at = from;
    while let Ok(Some(end)) = table::text_at(fields, at) {
        n += 1 + field_length(&fields[at + 2..end]);
        at = end;
    }
    n
}

// How many bytes the line of an image of fields takes.
fn line_length(fields: &[u8]) -> usize
    requires { fields_of fields.now ≡ some (held_texts fields.now) }
    ensures { result ≡ length (quoted_line (held_texts fields.now)) }
{
    match table::text_at(fields, 1) {
        Ok(Some(end)) => field_length(&fields[3..end]) + blanked_length(fields, end),
        _ => 0,
    }
}

// Writes what stands between the quotes of a field: each run of bytes that are written as they are at once, any other byte by itself.
fn put_bytes(way: Way, field: &[u8], out: &mut [u8]) -> usize
    requires { length (quoted_bytes (way_is way) field.now) ≤ length out.old }
    ensures { Puts (quoted_bytes (way_is way) field.now) out.old out.new result }
{
    let mut used: usize = 0;
    let mut i: usize = 0;
    while i < field.len() {
        let end = text::run_end(field, i, Class::SameByte);
        if i < end {
            text_copy::copy_in(&field[i..end], &mut out[used..]);
            used += end - i;
            i = end;
        } else {
            let n = ways::put_byte(way, field[i], &mut out[used..]);
            used += n;
            i += 1;
        }
    }
    used
}

// Writes a field in its quotes.
fn put_enclosed(way: Way, field: &[u8], out: &mut [u8]) -> usize
    requires { length (enclosed (way_is way) field.now) ≤ length out.old }
    ensures { Puts (enclosed (way_is way) field.now) out.old out.new result }
{
    out[0] = QUOTE;
    let n = put_bytes(way, field, &mut out[1..]);
    out[n + 1] = QUOTE;
    n + 2
}

// Writes a field in single quotes whose bytes are all written as they are.
fn put_plain(field: &[u8], out: &mut [u8]) -> usize
    requires field_value { quoted_bytes singled field.now ≡ field.now }
    requires field_in_bounds { length (enclosed singled field.now) ≤ length out.old }
    ensures { Puts (enclosed singled field.now) out.old out.new result }
{
    out[0] = QUOTE;
    text_copy::copy_in(field, &mut out[1..]);
    out[field.len() + 1] = QUOTE;
    field.len() + 2
}

// Writes a field that is not bare.
fn put_changed(field: &[u8], out: &mut [u8]) -> usize
    requires field_value { is_bare field.now ≡ false }
    requires field_in_bounds { length (quoted_field field.now) ≤ length out.old }
    ensures { Puts (quoted_field field.now) out.old out.new result }
{
    let way = ways::way_of(field);
    match way {
        Way::Singled => put_enclosed(way, field, out),
        Way::Dollared => {
            out[0] = DOLLAR;
            let n = put_enclosed(way, field, &mut out[1..]);
            n + 1
        }
    }
}

// Writes a field.
fn put_field(field: &[u8], out: &mut [u8]) -> usize
    requires { length (quoted_field field.now) ≤ length out.old }
    ensures { Puts (quoted_field field.now) out.old out.new result }
{
    match ways::look_at(field) {
        Look::Bare => {
            text_copy::copy_in(field, out);
            field.len()
        }
        Look::Plain => put_plain(field, out),
        Look::Changed => put_changed(field, out),
    }
}

// Writes the fields from a place of the image on, a blank in front of each.
fn put_blanked(fields: &[u8], from: usize, out: &mut [u8]) -> usize
    requires rest { Rest fields.now from }
    requires from_in_bounds { length (blanked (texts_from fields.now from)) ≤ length out.old }
    ensures { Puts (blanked (texts_from fields.now from)) out.old out.new result }
{
    let mut used: usize = 0;
    let mut at = from;
    while let Ok(Some(end)) = table::text_at(fields, at) {
        out[used] = BLANK;
        let next = used + 1;
        let n = put_field(&fields[at + 2..end], &mut out[next..]);
        used = next + n;
        at = end;
    }
    used
}

// Writes the line of an image of fields.
fn put_line(fields: &[u8], out: &mut [u8]) -> usize
    requires fields_value { fields_of fields.now ≡ some (held_texts fields.now) }
    requires fields_in_bounds { length (quoted_line (held_texts fields.now)) ≤ length out.old }
    ensures { Puts (quoted_line (held_texts fields.now)) out.old out.new result }
{
    let Ok(Some(end)) = table::text_at(fields, 1) else {
        return 0;
    };
    let used = put_field(&fields[3..end], out);
    let n = put_blanked(fields, end, &mut out[used..]);
    used + n
}

// Has the line of an image of fields room, in a line and in a buffer of so many bytes? No byte of the image becomes more than four of the line.
#[tactic(auto, using(crate::proofs::Walks::image_small, crate::proofs::Walks::line_small, crate::proofs::Answers::room_surely))]
fn has_room(fields: &[u8], room: usize) -> bool
    requires { fields_of fields.now ≡ some (held_texts fields.now) }
    ensures { result ≡ has_room room (held_texts fields.now) }
{
    let most = 4 * fields.len();
    if most <= numbers::LINE_LIMIT && most <= room {
        return true;
    }
    let n = line_length(fields);
    n <= numbers::LINE_LIMIT && n <= room
}

// Turns an image that is one of fields into its quoted line at the front of the buffer; the bytes behind the line stay. A line without room leaves every
// byte of the buffer as it was.
#[tactic(auto, using(crate::proofs::Answers::no_room))]
pub fn quote_known(fields: &[u8], out: &mut [u8]) -> Result<usize, QuoteError>
    requires { fields_of fields.now ≡ some (held_texts fields.now) }
    ensures { quoting_of result out.new ≡ quoter fields.now out.old }
{
    if !has_room(fields, out.len()) {
        return Err(QuoteError::NoRoom);
    }
    Ok(put_line(fields, out))
}

// The same for any image: what is none of fields is told first, and leaves every byte of the buffer as it was.
#[tactic(auto, using(crate::proofs::Answers::malformed, crate::proofs::Answers::fields_here))]
pub fn quote_fields(fields: &[u8], out: &mut [u8]) -> Result<usize, QuoteError>
    ensures { quoting_of result out.new ≡ quoter fields.now out.old }
{
    if !table::well_formed(Kind::Fields, fields) {
        return Err(QuoteError::Malformed);
    }
    quote_known(fields, out)
}
