// What stands at a place of a text, and of that what stands behind `${`: a parameter, `#` and a parameter, or a list, then a form. A text is read from its
// `$` on.
#![tactic(auto)]

ghost use Rattle.std.specs.Prelude.{◌≡◌, ◌&&◌, ◌+◌, ◌-◌, ◌≤◌, ◌<◌, eqb, length, drop, get_or};
ghost use Rattle.stages.specs.Syntax.{removal};
ghost use Rattle.stages.specs.Items.{is_first_digit, spread_of, lists_in, braced, braced_list, behind_list, behind_list_colon, behind_hash};
ghost use Rattle.stages.specs.Items.{behind_length, behind_name, behind_colon, behind_sign, behind_removal};
ghost use Rattle.text.specs.Cases.{reach_of, colon_of, spread_of as givenAs};
ghost use Rattle.read_mode.specs.Modes.{mode_of, form_of};
ghost use Rattle.read_brace.specs.Shows.{Finds, is_at, removal_side, param_of, CalledAt, colon_length};

use read_mode::{Cursor, Form, Mode};
use text::Class;
use text::refusal::Refusal;

// A parameter: its name, or the digits of its number, stand from `from` to `to`.
#[derive(Clone, Copy)]
pub struct Param {
    pub numbered: bool,
    pub from: usize,
    pub to: usize,
}

// What stands at a place; `next` is the place behind it.
#[derive(Clone, Copy)]
pub enum Item {
    // the text ends here
    Stop(usize),
    // a byte; whether a backslash quotes it
    Byte {
        quoted: bool,
        byte: u8,
        next: usize,
    },
    // a parenthesis of an arithmetic text, and how many are open behind it
    Paren {
        byte: u8,
        parens: usize,
    },
    // a quote opens, and how the text at `next` in it is read
    Quote {
        mode: Mode,
        next: usize,
    },
    // $name, ${name}
    Value {
        param: Param,
        next: usize,
    },
    // ${#name}
    Count {
        param: Param,
        next: usize,
    },
    // $#, ${#}
    Total {
        next: usize,
    },
    // $@, ${@}, $*, ${*}; whether the parameters are given apart
    Spread {
        apart: bool,
        next: usize,
    },
    // ${name FORM, and how the operand at `next` is read
    Inner {
        param: Param,
        form: Form,
        mode: Mode,
        next: usize,
    },
    // $((
    Sum {
        next: usize,
    },
    // ~login, which stands behind the tilde and ends at this place
    Home(usize),
}

// Does the byte stand at this place?
pub fn is_at(text: &[u8], at: usize, b: u8) -> bool
    ensures { result ≡ is_at b (drop at text.now) }
{
    at < text.len() && text[at] == b
}

// Does the digit begin a number? A zero does not.
#[tactic(auto, unfolding(stages::specs::Items::is_first_digit))]
pub fn is_first_digit(b: u8) -> bool
    ensures { result ≡ is_first_digit b }
{
    matches!(b, b'1'..=b'9')
}

// Does `$` and the sign, `@` or `*`, give the parameters apart?
#[tactic(auto, unfolding(stages::specs::Items::spread_of))]
pub fn is_apart(b: u8) -> bool
    ensures { givenAs result ≡ spread_of b }
{
    b != b'*'
}

// The parameter that is called at a place, if one is.
fn param_at(text: &[u8], at: usize) -> Option<Param>
    requires { at < length text.now }
    ensures { CalledAt text.now at result }
{
    let b = text[at];
    if text::in_class(Class::NameStart, b) {
        let to = text::run_end(text, at, Class::NameByte);
        return Some(Param {
            numbered: false,
            from: at,
            to,
        });
    }
    if is_first_digit(b) {
        let to = text::run_end(text, at, Class::Digit);
        return Some(Param {
            numbered: true,
            from: at,
            to,
        });
    }
    None
}

// Is the sign a store to a number?
fn is_numbered_store(numbered: bool, b: u8) -> bool
    ensures { result ≡ (numbered && eqb b 61) }
{
    numbered && b == b'='
}

// What a parameter and one of `-=?+` is, which stands at `sign`.
fn behind_sign(
    text: &[u8],
    from: Cursor,
    param: Param,
    colon: bool,
    sign: usize,
) -> Result<Item, Refusal>
    requires { (param.from ≡ from.at + 2) × (param.from ≤ param.to) × (param.to ≤ sign) × (sign + 1 ≡ param.to + colon_length (colon_of colon))
        × (sign < length text.now) × (0 < from.depth) }
    ensures { Finds text.now from.at from.depth result
        (behind_sign (mode_of from.mode) (param_of text.now param) (colon_of colon) (sign - from.at) (get_or text.now sign 0)) }
{
    let b = text[sign];
    if is_numbered_store(param.numbered, b) {
        return Err(Refusal::Unserved);
    }
    Ok(Item::Inner {
        param,
        form: read_mode::sign_form(b, colon),
        mode: read_mode::operand_mode(from.mode, read_mode::let_by(b)),
        next: sign + 1,
    })
}

// What `${name:` is.
fn behind_colon(text: &[u8], from: Cursor, param: Param) -> Result<Item, Refusal>
    requires { (param.from ≡ from.at + 2) × (param.from ≤ param.to) × (param.to < length text.now) × (0 < from.depth) }
    ensures { Finds text.now from.at from.depth result
        (behind_colon (mode_of from.mode) (param_of text.now param) (param.to + 1 - from.at) (drop (param.to + 1) text.now)) }
{
    let to = param.to;
    if to + 1 >= text.len() {
        return Err(Refusal::Unended);
    }
    let b = text[to + 1];
    if text::is_in(b, b"-=?+") {
        return behind_sign(text, from, param, true, to + 1);
    }
    Err(read_mode::wrong_byte(Refusal::BadSyntax, b))
}

// The form of a removal.
fn removal_form(prefix: bool, doubled: bool) -> Form
    ensures { form_of result ≡ removal (removal_side «prefix») (reach_of doubled) }
{
    if prefix {
        Form::Prefix(doubled)
    } else {
        Form::Suffix(doubled)
    }
}

// What a removal `${name%` or `${name#` is.
fn removal_at(text: &[u8], from: Cursor, param: Param, prefix: bool) -> Result<Item, Refusal>
    requires { (param.from ≡ from.at + 2) × (param.from ≤ param.to) × (param.to < length text.now) × (0 < from.depth) }
    ensures { Finds text.now from.at from.depth result
        (behind_removal (param_of text.now param) (removal_side «prefix») (get_or text.now param.to 0) (param.to - from.at)
        (drop (param.to + 1) text.now)) }
{
    let to = param.to;
    let doubled = is_at(text, to + 1, text[to]);
    Ok(Item::Inner {
        param,
        form: removal_form(prefix, doubled),
        mode: Mode::Bare {
            fresh: true,
            lists: false,
        },
        next: if doubled { to + 2 } else { to + 1 },
    })
}

// What `${name` is.
fn behind_name(text: &[u8], from: Cursor, param: Param) -> Result<Item, Refusal>
    requires { (param.from ≡ from.at + 2) × (param.from ≤ param.to) × (param.to ≤ length text.now) × (0 < from.depth) }
    ensures { Finds text.now from.at from.depth result
        (behind_name (mode_of from.mode) (param_of text.now param) (param.to - from.at) (drop param.to text.now)) }
{
    let to = param.to;
    if to >= text.len() {
        return Err(Refusal::Unended);
    }
    let b = text[to];
    if b == b'}' {
        return Ok(Item::Value {
            param,
            next: to + 1,
        });
    }
    if b == b':' {
        return behind_colon(text, from, param);
    }
    if text::is_in(b, b"-=?+") {
        return behind_sign(text, from, param, false, to);
    }
    if b == b'%' {
        return removal_at(text, from, param, false);
    }
    if b == b'#' {
        return removal_at(text, from, param, true);
    }
    Err(read_mode::wrong_byte(Refusal::BadSyntax, b))
}

// What `${#name` is.
fn behind_length(text: &[u8], from: Cursor, param: Param) -> Result<Item, Refusal>
    requires { (param.from ≡ from.at + 3) × (param.from ≤ param.to) × (param.to ≤ length text.now) }
    ensures { Finds text.now from.at from.depth result
        (behind_length (param_of text.now param) (param.to - from.at) (drop param.to text.now)) }
{
    let to = param.to;
    if to >= text.len() {
        return Err(Refusal::Unended);
    }
    let b = text[to];
    if b != b'}' {
        return Err(read_mode::wrong_byte(Refusal::BadSyntax, b));
    }
    Ok(Item::Count {
        param,
        next: to + 1,
    })
}

// What `${#` is.
fn length_at(text: &[u8], from: Cursor) -> Result<Item, Refusal>
    requires { from.at + 2 < length text.now }
    ensures { Finds text.now from.at from.depth result (behind_hash (drop (from.at + 3) text.now)) }
{
    let at = from.at;
    if at + 3 >= text.len() {
        return Err(Refusal::Unended);
    }
    let b = text[at + 3];
    if b == b'}' {
        return Ok(Item::Total { next: at + 4 });
    }
    match param_at(text, at + 3) {
        Some(param) => behind_length(text, from, param),
        None => Err(read_mode::wrong_byte(Refusal::Unserved, b)),
    }
}

// What `${@:` or `${*:` is.
fn behind_list_colon(text: &[u8], from: Cursor) -> Result<Item, Refusal>
    requires { from.at + 3 < length text.now }
    ensures { Finds text.now from.at from.depth result (behind_list_colon (drop (from.at + 4) text.now)) }
{
    let at = from.at;
    if at + 4 >= text.len() {
        return Err(Refusal::Unended);
    }
    let b = text[at + 4];
    if text::is_in(b, b"-=?+") {
        return Err(Refusal::Unserved);
    }
    Err(read_mode::wrong_byte(Refusal::BadSyntax, b))
}

// What `${@` or `${*` is where it may stand.
fn behind_list(text: &[u8], from: Cursor) -> Result<Item, Refusal>
    requires { from.at + 2 < length text.now }
    ensures { Finds text.now from.at from.depth result
        (behind_list (get_or text.now (from.at + 2) 0) (drop (from.at + 3) text.now)) }
{
    let at = from.at;
    if at + 3 >= text.len() {
        return Err(Refusal::Unended);
    }
    let b = text[at + 3];
    if b == b'}' {
        return Ok(Item::Spread {
            apart: is_apart(text[at + 2]),
            next: at + 4,
        });
    }
    if b == b':' {
        return behind_list_colon(text, from);
    }
    if text::is_in(b, b"-=?+%#") {
        return Err(Refusal::Unserved);
    }
    Err(read_mode::wrong_byte(Refusal::BadSyntax, b))
}

// What `${@` or `${*` is.
fn list_at(text: &[u8], from: Cursor) -> Result<Item, Refusal>
    requires { from.at + 2 < length text.now }
    ensures { Finds text.now from.at from.depth result
        (braced_list (lists_in (mode_of from.mode)) (get_or text.now (from.at + 2) 0) (drop (from.at + 3) text.now)) }
{
    if !read_mode::lists_in(from.mode) {
        return Err(Refusal::Unserved);
    }
    behind_list(text, from)
}

// What `${` is.
pub fn braced_at(text: &[u8], from: Cursor) -> Result<Item, Refusal>
    requires { from.at + 1 < length text.now }
    ensures { Finds text.now from.at from.depth result
        (braced (mode_of from.mode) from.depth (drop (from.at + 2) text.now)) }
{
    let at = from.at;
    if from.depth == 0 {
        return Err(Refusal::TooDeep);
    }
    if at + 2 >= text.len() {
        return Err(Refusal::Unended);
    }
    let b = text[at + 2];
    if b == b'#' {
        return length_at(text, from);
    }
    if text::is_in(b, b"@*") {
        return list_at(text, from);
    }
    match param_at(text, at + 2) {
        Some(param) => behind_name(text, from, param),
        None => Err(read_mode::wrong_byte(Refusal::Unserved, b)),
    }
}
