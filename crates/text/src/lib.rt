// Bytes and texts read: the classes of bytes, longest runs, comparing.
#![tactic(auto)]

ghost use Rattle.std.specs.Prelude.{◌≡◌, ℕ, ◌≤◌, ◌<◌, length};
ghost use Rattle.std.specs.List.{prefix_len};
ghost use Rattle.stages.specs.Bytes.{is_in, all, not_zero, eq_text};
ghost use Rattle.text.specs.Bits.{has_bit};
ghost use Rattle.text.specs.Classes.{in_class, low_bytes, high_bytes, upper_bytes, upper_word, words_of, Runs};
ghost use Rattle.text.specs.Orders.{order_of};

use std::cmp::Ordering;

pub mod marks;
pub mod numbers;
pub mod refusal;

// The classes of bytes that documents 01 and 02 name.
#[derive(Clone, Copy)]
pub enum Class {
    NotZero,
    Digit,
    NameStart,
    NameByte,
    LoginByte,
    BareByte,
    Blank,
    Operator,
    NotControl,
    // What the quoter writes as it is in every way: no control byte, no `'` and no backslash.
    SameByte,
    OctalDigit,
    HexDigit,
}

// A word with all its bits.
pub const ALL_BITS: u64 = 0xffff_ffff_ffff_ffff;

// All bytes that are in a class, a bit for each: those below 64, those from 64 to 127, and twice those from 128 on, which are all in it or none.
fn words_of(class: Class) -> [u64; 4]
    ensures { result ≡ words_of class }
{
    match class {
        Class::NotZero => [0xffff_ffff_ffff_fffe, 0xffff_ffff_ffff_ffff, !0, !0],
        Class::Digit => [0x03ff_0000_0000_0000, 0x0000_0000_0000_0000, 0, 0],
        Class::NameStart => [0x0000_0000_0000_0000, 0x07ff_fffe_87ff_fffe, 0, 0],
        Class::NameByte => [0x03ff_0000_0000_0000, 0x07ff_fffe_87ff_fffe, 0, 0],
        Class::LoginByte => [0x03ff_6000_0000_0000, 0x07ff_fffe_87ff_fffe, 0, 0],
        Class::BareByte => [0x03ff_e000_0000_0000, 0x07ff_fffe_87ff_fffe, 0, 0],
        Class::Blank => [0x0000_0001_0000_0600, 0x0000_0000_0000_0000, 0, 0],
        Class::Operator => [0x5800_0340_0000_0000, 0x1000_0000_0000_0000, 0, 0],
        Class::NotControl => [0xffff_ffff_0000_0000, 0x7fff_ffff_ffff_ffff, !0, !0],
        Class::SameByte => [0xffff_ff7f_0000_0000, 0x7fff_ffff_efff_ffff, !0, !0],
        Class::OctalDigit => [0x00ff_0000_0000_0000, 0x0000_0000_0000_0000, 0, 0],
        Class::HexDigit => [0x03ff_0000_0000_0000, 0x0000_007e_0000_007e, 0, 0],
    }
}

// Is the byte's bit set, among 256 in four words? No branch hangs on the byte: where bytes of many kinds come, it would often be foreseen wrongly.
pub fn has_bit(words: &[u64; 4], b: u8) -> bool
    ensures { (result ≡ has_bit words.now b) × (b < 256) }
{
    let i = b as usize;
    (words[i / 64] >> (i % 64)) & 1 == 1
}

// Is the byte in the class?
pub fn in_class(class: Class, b: u8) -> bool
    ensures { result ≡ in_class class b }
{
    let [low, high, upper, _] = words_of(class);
    if b < 64 {
        (low >> b) & 1 == 1
    } else if b < 128 {
        (high >> (b - 64)) & 1 == 1
    } else {
        upper & 1 == 1
    }
}

// Is the byte one of the set's?
pub fn is_in(b: u8, set: &[u8]) -> bool
    ensures { result ≡ is_in b set.now }
{
    set.iter().any(|c| *c == b)
}

// Has the text no zero byte?
#[tactic(auto, using(crate::proofs::Library::none_zero))]
pub fn no_zero(text: &[u8]) -> bool
    ensures { result ≡ all not_zero text.now }
{
    !text.contains(&0)
}

// How many bytes have their bits set, from the front on up to the first that has not?
pub fn bits_run(words: &[u64; 4], text: &[u8]) -> usize
    ensures is { result ≡ prefix_len (λ b. has_bit words.now b) text.now }
    ensures bound { result ≤ length text.now }
{
    text.iter().take_while(|b| has_bit(words, **b)).count()
}

// The end of the longest run of bytes of the class that begins at `at`.
pub fn run_end(text: &[u8], at: usize, class: Class) -> usize
    requires { at ≤ length text.now }
    ensures { Runs text.now at class result }
{
    at + bits_run(&words_of(class), &text[at..])
}

// Are the two texts the same bytes?
pub fn same(a: &[u8], b: &[u8]) -> bool
    ensures { result ≡ eq_text a.now b.now }
{
    a == b
}

// How does the first text stand to the second? Most differ within their first bytes, and there a byte at a time takes less than the library's order does.
pub fn compare(a: &[u8], b: &[u8]) -> Ordering
    ensures { result ≡ order_of a.now b.now }
{
    let near = a.len().min(b.len()).min(8);
    for i in 0..near {
        if a[i] != b[i] {
            return a[i].cmp(&b[i]);
        }
    }
    a[near..].cmp(&b[near..])
}
