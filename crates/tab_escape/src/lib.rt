// Texts in which `\n`, `\\` and `\x` with two digits are escapes: what one stands for, and where a byte stands in a line.
#![tactic(auto)]

ghost use Rattle.std.specs.Prelude.{◌≡◌, ◌<◌, ◌≤◌, length, IfSome};
ghost use Rattle.tab_escape.specs.Escapes.{hex_value, hex_byte, byte_at, read_text, Reads, up_to};

// Why a line is no record of the table.
#[derive(Clone, Copy)]
pub enum Fault {
    // No `=` in it.
    NoEquals,
    // No name, no login, or an empty path.
    NoKey,
    // A backslash with something else behind it than `n`, a backslash, or `x` and two digits.
    BadEscape,
    // The byte zero, written so or as it is.
    ZeroByte,
    // The key of an earlier line.
    Twice,
    // The image would be too long.
    TooLong,
}

// A byte of a text, and how many bytes behind its first it takes.
#[derive(Clone, Copy)]
pub struct Byte {
    pub b: u8,
    pub more: usize,
}

const BACKSLASH: u8 = b'\\';

// The number that a digit stands for, in either case.
fn hex_value(b: u8) -> Option<u8>
    ensures value { result ≡ hex_value b }
    ensures below { IfSome result (λ n. n < 16) }
{
    match b {
        b'0'..=b'9' => Some(b - b'0'),
        b'A'..=b'F' => Some(b - b'A' + 10),
        b'a'..=b'f' => Some(b - b'a' + 10),
        _ => None,
    }
}

// The byte of two digits.
fn hex_byte(first: u8, second: u8) -> Result<Byte, Fault>
    ensures { result ≡ hex_byte (hex_value first) (hex_value second) }
{
    let Some(high) = hex_value(first) else {
        return Err(Fault::BadEscape);
    };
    let Some(low) = hex_value(second) else {
        return Err(Fault::BadEscape);
    };
    let b = high * 16 + low;
    if b == 0 {
        return Err(Fault::ZeroByte);
    }
    Ok(Byte { b, more: 3 })
}

// The byte that stands at a place of a text.
#[tactic(auto, unfolding(crate::specs::Escapes::byte_at))]
fn byte_at(text: &[u8], at: usize) -> Result<Byte, Fault>
    requires { at < length text.now }
    ensures { result ≡ byte_at text.now at }
{
    let b = text[at];
    if b == 0 {
        return Err(Fault::ZeroByte);
    }
    if b != BACKSLASH {
        return Ok(Byte { b, more: 0 });
    }
    let left = text.len() - at;
    if left < 2 {
        return Err(Fault::BadEscape);
    }
    let c = text[at + 1];
    if c == b'n' {
        return Ok(Byte { b: b'\n', more: 1 });
    }
    if c == BACKSLASH {
        return Ok(Byte {
            b: BACKSLASH,
            more: 1,
        });
    }
    if c != b'x' {
        return Err(Fault::BadEscape);
    }
    if left < 4 {
        return Err(Fault::BadEscape);
    }
    hex_byte(text[at + 2], text[at + 3])
}

// Reads a text and writes what it stands for at the front of a buffer, at a fault what stands before it. The bytes behind stay.
pub fn read_text(text: &[u8], out: &mut [u8]) -> Result<usize, Fault>
    requires { length text.now ≤ length out.old }
    ensures { Reads (read_text text.now) out.old out.new result }
{
    let mut used: usize = 0;
    let mut i: usize = 0;
    while i < text.len() {
        let byte = byte_at(text, i)?;
        out[used] = byte.b;
        used += 1;
        i = i + 1 + byte.more;
    }
    Ok(used)
}

// The place of the first such byte, or the end.
pub fn find(text: &[u8], b: u8) -> usize
    ensures { result ≡ up_to b text.now }
{
    text.iter().position(|c| *c == b).unwrap_or(text.len())
}
