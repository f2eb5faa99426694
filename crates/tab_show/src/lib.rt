// Tables as text and back: an image becomes lines that people can read and edit, one record to a line.
#![tactic(auto)]

ghost use Rattle.std.specs.Prelude.{◌≡◌, true, ◌*◌, ◌<◌, ◌≤◌, length};
ghost use Rattle.std.proofs.Math.Option.{some};
ghost use Rattle.stages.specs.Images.{texts, held_texts};
ghost use Rattle.table.specs.Kinds.{in_twos};
ghost use Rattle.text.specs.Putting.{Puts};
ghost use Rattle.tab_show.specs.Lines.{hex_digit, is_plain, shown_byte, shown_text, end_of, first_next, shown_texts, showing_of, showing};

use table::{Kind, Malformed};

const BACKSLASH: u8 = b'\\';

const NEWLINE: u8 = b'\n';

const EQUALS: u8 = b'=';

// The digit of a number below 16.
fn hex_digit(n: u8) -> u8
    requires { n < 16 }
    ensures { result ≡ hex_digit n }
{
    if n < 10 { b'0' + n } else { b'A' - 10 + n }
}

// Does the byte stand for itself?
fn is_plain(b: u8) -> bool
    ensures { result ≡ is_plain b }
{
    32 <= b && b <= 126 && b != BACKSLASH
}

// Writes a byte: itself, `\n`, `\\`, or `\x` and two digits.
fn put_byte(b: u8, out: &mut [u8]) -> usize
    requires { length (shown_byte b) ≤ length out.old }
    ensures { Puts (shown_byte b) out.old out.new result }
{
    if is_plain(b) {
        out[0] = b;
        return 1;
    }
    out[0] = BACKSLASH;
    if b == NEWLINE {
        out[1] = b'n';
        return 2;
    }
    if b == BACKSLASH {
        out[1] = BACKSLASH;
        return 2;
    }
    out[1] = b'x';
    out[2] = hex_digit(b / 16);
    out[3] = hex_digit(b % 16);
    4
}

// Writes a text byte by byte.
fn put_text(text: &[u8], out: &mut [u8]) -> usize
    requires { length (shown_text text.now) ≤ length out.old }
    ensures { Puts (shown_text text.now) out.old out.new result }
{
    let mut used: usize = 0;
    for b in text {
        used += put_byte(*b, &mut out[used..]);
    }
    used
}

// The byte behind a text.
fn end_of(first: bool) -> u8
    ensures { result ≡ end_of first }
{
    if first { EQUALS } else { NEWLINE }
}

// Is the next text the first of two?
fn first_next(two: bool, first: bool) -> bool
    ensures { result ≡ first_next two first }
{
    two && !first
}

// Writes the lines of an image's texts.
fn put_texts(two: bool, image: &[u8], out: &mut [u8]) -> usize
    requires image_value { texts image.now ≡ some (held_texts image.now) }
    requires image_in_bounds { length (shown_texts two two (held_texts image.now)) ≤ length out.old }
    ensures { Puts (shown_texts two two (held_texts image.now)) out.old out.new result }
{
    let mut used: usize = 0;
    let mut at: usize = 1;
    let mut first = two;
    while let Ok(Some(end)) = table::text_at(image, at) {
        let n = put_text(&image[at + 2..end], &mut out[used..]);
        let next = used + n;
        out[next] = end_of(first);
        first = first_next(two, first);
        used = next + 1;
        at = end;
    }
    used
}

// Are the records of the kind two texts?
fn in_twos(kind: Kind) -> bool
    ensures { result ≡ in_twos kind }
{
    matches!(kind, Kind::Variables | Kind::Homes)
}

// Shows an image of the kind: its lines stand at the front of the buffer, the bytes behind them stay. For what is no such image, or one that is too long, all
// bytes stay. The lines are at most four times as long as the image. Answers their length.
pub fn show(kind: Kind, image: &[u8], out: &mut [u8]) -> Result<usize, Malformed>
    requires { 4 * length image.now ≤ length out.old }
    ensures { showing_of result out.new ≡ showing kind image.now out.old }
{
    if !table::well_formed(kind, image) {
        return Err(Malformed);
    }
    Ok(put_texts(in_twos(kind), image, out))
}
