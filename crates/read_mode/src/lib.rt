// What a byte is where it stands. A mode says where a text stands: in a word of the line, in a value, in an operand, in quotes, in arithmetic. Each function
// answers one question about a byte in a mode; none looks at a second byte.
#![tactic(auto)]

ghost use Rattle.std.specs.Prelude.{◌≡◌, [], ◌∷◌};
ghost use Rattle.stages.specs.Bytes.{is_in, text};
ghost use Rattle.stages.specs.Syntax.{word, bare, single, double, quoted_operand, arith};
ghost use Rattle.text.specs.Cases.{colon_of, start_of, lists_of, escapes_of};
ghost use Rattle.stages.specs.Items.{quotable, not_served, lists_in, let_by, ended, wrong, fault, sign_form, begins_tilde, login_ends, ends_login};
ghost use Rattle.stages.specs.Items.{sort, is_closer};
ghost use Rattle.read_mode.specs.Modes.{mode_of, form_of, mode_onward, opens_tilde, mode_behind, Operands, Sorted, Shared, quotes_sort, plain_sort, ends_line};

use text::refusal::{Reason, Refusal};

// Where a text stands.
#[derive(Clone, Copy)]
pub enum Mode {
    // a word of the line; whether it is read from its first byte on, where alone a tilde is looked at
    Word(bool),
    // the value of an assignment; whether a tilde is looked at
    Value(bool),
    // an operand read as bare text; whether it is read from its first byte on, and whether `$@` and `$*` may stand in it
    Bare { fresh: bool, lists: bool },
    // '...', or $'...'; whether a backslash begins an escape in it
    Single(bool),
    // "..."; whether `$@` and `$*` may stand in it
    Double(bool),
    // an operand read as double-quoted text; the same
    Operand(bool),
    // arithmetic, with so many open parentheses
    Arith(usize),
}

// Where a text is read: from `at` on, in a mode, where `depth` expansions may still open.
#[derive(Clone, Copy)]
pub struct Cursor {
    pub at: usize,
    pub mode: Mode,
    pub depth: usize,
}

// What stands behind the name in `${name`: whether a colon stands before `-=?+`, or whether a removal's sign is doubled.
#[derive(Clone, Copy)]
pub enum Form {
    Minus(bool),
    Equals(bool),
    Query(bool),
    Plus(bool),
    Suffix(bool),
    Prefix(bool),
}

// What a byte is where it stands.
#[derive(Clone, Copy)]
pub enum Sort {
    Backquote,
    // ends the text, which takes so many bytes
    Closes(usize),
    Operator,
    Quotes,
    Quotes2,
    Backslash,
    // a backslash that begins an escape
    Escape,
    Dollar,
    Bad,
    // a parenthesis of an arithmetic text, and how many are open before it
    Opening(usize),
    Closing(usize),
    // a tilde that begins a word or an operand
    Tilde,
    Literal,
}

// A backslash, a `$`, or a byte that stands for itself.
#[tactic(auto, unfolding(crate::specs::Modes::plain_sort))]
fn sort_plain(b: u8) -> Sort
    ensures { Shared (plain_sort b) result }
{
    match b {
        b'\\' => Sort::Backslash,
        b'$' => Sort::Dollar,
        _ => Sort::Literal,
    }
}

// The same where quotes open.
#[tactic(auto, unfolding(crate::specs::Modes::quotes_sort, crate::specs::Modes::plain_sort))]
fn sort_quotes(b: u8) -> Sort
    ensures { Shared (quotes_sort b) result }
{
    match b {
        b'\'' => Sort::Quotes,
        b'"' => Sort::Quotes2,
        _ => sort_plain(b),
    }
}

// Is the byte a tilde that is looked at?
#[tactic(auto, unfolding(stages::specs::Items::begins_tilde))]
fn begins_tilde(fresh: bool, b: u8) -> bool
    ensures { result ≡ begins_tilde (start_of fresh) b }
{
    fresh && b == b'~'
}

#[tactic(auto, unfolding(stages::specs::Items::sort, stages::specs::Items::closer_length, crate::specs::Modes::plain_sort, crate::specs::Modes::quotes_sort))]
fn sort_word(fresh: bool, b: u8) -> Sort
    ensures { Sorted (word (start_of fresh)) b result }
{
    if begins_tilde(fresh, b) {
        return Sort::Tilde;
    }
    if b == b'`' {
        return Sort::Backquote;
    }
    if text::in_class(text::Class::Blank, b) {
        return Sort::Closes(0);
    }
    if text::in_class(text::Class::Operator, b) {
        return Sort::Operator;
    }
    sort_quotes(b)
}

#[tactic(auto, unfolding(stages::specs::Items::sort, stages::specs::Items::closer_length, crate::specs::Modes::plain_sort, crate::specs::Modes::quotes_sort))]
fn sort_bare(fresh: bool, lists: bool, b: u8) -> Sort
    ensures { Sorted (bare (start_of fresh) (lists_of lists)) b result }
{
    if begins_tilde(fresh, b) {
        return Sort::Tilde;
    }
    if b == b'`' {
        return Sort::Backquote;
    }
    if b == b'}' {
        return Sort::Closes(1);
    }
    sort_quotes(b)
}

#[tactic(auto, unfolding(stages::specs::Items::sort, stages::specs::Items::closer_length))]
fn sort_single(escapes: bool, b: u8) -> Sort
    ensures { Sorted (single (escapes_of escapes)) b result }
{
    match b {
        b'\'' => Sort::Closes(1),
        b'\\' if escapes => Sort::Escape,
        _ => Sort::Literal,
    }
}

#[tactic(auto, unfolding(stages::specs::Items::sort, stages::specs::Items::closer_length, crate::specs::Modes::plain_sort))]
fn sort_double(lists: bool, b: u8) -> Sort
    ensures { Sorted (double (lists_of lists)) b result }
{
    match b {
        b'`' => Sort::Backquote,
        b'"' => Sort::Closes(1),
        _ => sort_plain(b),
    }
}

#[tactic(auto, unfolding(stages::specs::Items::sort, stages::specs::Items::closer_length, crate::specs::Modes::plain_sort))]
fn sort_operand(lists: bool, b: u8) -> Sort
    ensures { Sorted (quoted_operand (lists_of lists)) b result }
{
    match b {
        b'`' => Sort::Backquote,
        b'}' => Sort::Closes(1),
        b'"' => Sort::Bad,
        _ => sort_plain(b),
    }
}

#[tactic(auto, unfolding(stages::specs::Items::sort, stages::specs::Items::closer_length))]
fn sort_arith(parens: usize, b: u8) -> Sort
    ensures { Sorted (arith parens) b result }
{
    match b {
        b'`' => Sort::Backquote,
        b'\'' | b'"' | b'\\' => Sort::Bad,
        b'(' => Sort::Opening(parens),
        b')' => Sort::Closing(parens),
        b'$' => Sort::Dollar,
        _ => Sort::Literal,
    }
}

// What is the byte in this mode?
pub fn sort_at(mode: Mode, b: u8) -> Sort
    ensures { Sorted (mode_of mode) b result }
{
    match mode {
        Mode::Word(fresh) | Mode::Value(fresh) => sort_word(fresh, b),
        Mode::Bare { fresh, lists } => sort_bare(fresh, lists, b),
        Mode::Single(escapes) => sort_single(escapes, b),
        Mode::Double(lists) => sort_double(lists, b),
        Mode::Operand(lists) => sort_operand(lists, b),
        Mode::Arith(parens) => sort_arith(parens, b),
    }
}

// Does a backslash quote the byte?
#[tactic(auto, unfolding(stages::specs::Items::quotable))]
pub fn is_quotable(mode: Mode, b: u8) -> bool
    ensures { result ≡ quotable (mode_of mode) b }
{
    match mode {
        Mode::Word(_) | Mode::Value(_) | Mode::Bare { .. } => true,
        Mode::Double(_) => text::is_in(b, b"$`\"\\"),
        Mode::Operand(_) => text::is_in(b, b"$`\"\\}"),
        Mode::Single(_) | Mode::Arith(_) => false,
    }
}

// Is a `$` before the byte a parameter that is not served?
#[tactic(auto, unfolding(stages::specs::Items::not_served))]
pub fn is_not_served(b: u8) -> bool
    ensures { result ≡ not_served b }
{
    text::is_in(b, b"0?-$!")
}

// May `$@` and `$*` stand in a text of this mode?
#[tactic(auto, unfolding(stages::specs::Items::lists_in))]
pub fn lists_in(mode: Mode) -> bool
    ensures { lists_of result ≡ lists_in (mode_of mode) }
{
    match mode {
        Mode::Word(_) => true,
        Mode::Bare { lists, .. } | Mode::Double(lists) | Mode::Operand(lists) => lists,
        Mode::Value(_) | Mode::Single(_) | Mode::Arith(_) => false,
    }
}

// Does the sign, one of `-=?+`, let `$@` and `$*` stand in its operand?
#[tactic(auto, unfolding(stages::specs::Items::let_by))]
pub fn let_by(b: u8) -> bool
    ensures { lists_of result ≡ let_by b }
{
    text::is_in(b, b"-+")
}

// How is an operand of `-=?+` read, whose sign lets `$@` and `$*` stand or not?
#[tactic(auto, unfolding(stages::specs::Items::operand_mode, stages::specs::Items::lists_in, stages::specs::Items::both))]
pub fn operand_mode(mode: Mode, let_by_sign: bool) -> Mode
    ensures { Operands (mode_of mode) (lists_of let_by_sign) result }
{
    let lists = lists_in(mode) && let_by_sign;
    match mode {
        Mode::Word(_) | Mode::Value(_) | Mode::Bare { .. } | Mode::Single(_) => {
            Mode::Bare { fresh: true, lists }
        }
        Mode::Double(_) | Mode::Operand(_) | Mode::Arith(_) => Mode::Operand(lists),
    }
}

// May the line end here? Only in a word, and in a value.
#[tactic(auto, unfolding(stages::specs::Items::ended))]
pub fn may_end(mode: Mode) -> bool
    ensures { ended (mode_of mode) ≡ ends_line result }
{
    matches!(mode, Mode::Word(_) | Mode::Value(_))
}

// The mode in which a text goes on after its first item.
pub fn onward(mode: Mode) -> Mode
    ensures { result ≡ mode_onward mode }
{
    match mode {
        Mode::Word(_) => Mode::Word(false),
        Mode::Value(_) => Mode::Value(false),
        Mode::Bare { lists, .. } => Mode::Bare {
            fresh: false,
            lists,
        },
        _ => mode,
    }
}

// Is a tilde of a value looked at behind the byte, which a backslash quotes or not? Behind a bare `:`.
fn opens_tilde(quoted: bool, b: u8) -> bool
    ensures { result ≡ opens_tilde quoted b }
{
    !quoted && b == b':'
}

// The mode in which a text goes on after a byte that stands for itself.
pub fn behind_byte(mode: Mode, quoted: bool, b: u8) -> Mode
    ensures { result ≡ mode_behind mode quoted b }
{
    match mode {
        Mode::Value(_) => Mode::Value(opens_tilde(quoted, b)),
        _ => onward(mode),
    }
}

// Does a text of this mode end at the byte? Never said of arithmetic, which two bytes end.
pub fn is_closer(mode: Mode, b: u8) -> bool
    ensures { result ≡ is_closer (sort (mode_of mode) b) }
{
    match mode {
        Mode::Word(_) => text::in_class(text::Class::Blank, b),
        Mode::Value(_) => text::in_class(text::Class::Blank, b),
        Mode::Bare { .. } | Mode::Operand(_) => b == b'}',
        Mode::Single(_) => b == b'\'',
        Mode::Double(_) => b == b'"',
        Mode::Arith(_) => false,
    }
}

// Is the byte one at which a login ends in this mode?
#[tactic(auto, unfolding(stages::specs::Items::login_ends))]
fn is_login_end(mode: Mode, b: u8) -> bool
    ensures { result ≡ is_in b (login_ends (mode_of mode)) }
{
    match mode {
        Mode::Value(_) => text::is_in(b, b"/:"),
        _ => b == b'/',
    }
}

// Does a login end before the byte? At a `/`, in a value also at a `:`, and where the text ends.
#[tactic(auto, unfolding(stages::specs::Items::ends_login))]
pub fn ends_login(mode: Mode, b: u8) -> bool
    ensures { result ≡ ends_login (mode_of mode) (b ∷ []) }
{
    is_login_end(mode, b) || is_closer(mode, b)
}

// Why a byte is refused that does not fit: as a backquote, else for the reason given.
#[tactic(auto, unfolding(stages::specs::Items::wrong))]
pub fn wrong_byte<R: Reason>(why: R, b: u8) -> R
    ensures { wrong (R.number_of why) (b ∷ []) ≡ fault (R.number_of result) }
{
    if b == b'`' {
        R::of(Refusal::Substitution)
    } else {
        why
    }
}

// The form of one of `-=?+`.
#[tactic(auto, unfolding(stages::specs::Items::sign_form))]
pub fn sign_form(b: u8, colon: bool) -> Form
    ensures { form_of result ≡ sign_form b (colon_of colon) }
{
    match b {
        b'-' => Form::Minus(colon),
        b'=' => Form::Equals(colon),
        b'?' => Form::Query(colon),
        _ => Form::Plus(colon),
    }
}
