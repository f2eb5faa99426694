// What stands at a place of a text: document 01's "Reading a line", a question for each function, none of them recursive. A text is read from the first
// byte of what stands there.
#![tactic(auto)]

ghost use Rattle.std.specs.Prelude.{◌≡◌, ◌+◌, ◌≤◌, ◌<◌, length, drop, get_or};
ghost use Rattle.stages.specs.Syntax.{arith};
ghost use Rattle.stages.specs.Escapes.{escape_at};
ghost use Rattle.stages.specs.Items.{item, is_bare_text, behind_backslash, said_item, expansion, parenthesis, spread_at, lists_in, closed, behind_tilde};
ghost use Rattle.stages.specs.Items.{closer_length};
ghost use Rattle.read_mode.specs.Modes.{mode_of, open_in};
ghost use Rattle.read_brace.specs.Shows.{Shows, Finds};
ghost use Rattle.read_item.specs.After.{mode_after_read, stops_read, is_end, dollar_quote, special};

use read_brace::{Item, Param};
use read_mode::{Cursor, Mode, Sort};
use text::Class;
use text::refusal::{Reason, Refusal};

// What a backslash is.
fn escaped_at(text: &[u8], from: Cursor) -> Result<Item, Refusal>
    requires { from.at < length text.now }
    ensures { Finds text.now from.at from.depth result
        (behind_backslash (mode_of from.mode) (drop (from.at + 1) text.now)) }
{
    let at = from.at;
    if at + 1 >= text.len() {
        return Err(Refusal::Unended);
    }
    let b = text[at + 1];
    if b == b'\n' {
        return Err(Refusal::BadSyntax);
    }
    if read_mode::is_quotable(from.mode, b) {
        return Ok(Item::Byte {
            quoted: true,
            byte: b,
            next: at + 2,
        });
    }
    Ok(Item::Byte {
        quoted: false,
        byte: b'\\',
        next: at + 1,
    })
}

// What a backslash is that begins an escape.
#[tactic(auto, unfolding(stages::specs::Items::said_item))]
fn said_at(text: &[u8], from: Cursor) -> Result<Item, Refusal>
    requires { from.at < length text.now }
    ensures { Finds text.now from.at from.depth result (said_item (escape_at (drop (from.at + 1) text.now))) }
{
    let said = read_escape::escape_at(text, from.at)?;
    Ok(Item::Byte {
        quoted: true,
        byte: said.byte,
        next: said.next,
    })
}

// What `$(` is.
fn parenthesis_at(text: &[u8], from: Cursor) -> Result<Item, Refusal>
    requires { from.at + 1 < length text.now }
    ensures { Finds text.now from.at from.depth result
        (parenthesis from.depth (drop (from.at + 2) text.now)) }
{
    let at = from.at;
    if read_brace::is_at(text, at + 2, b'(') {
        if from.depth == 0 {
            return Err(Refusal::TooDeep);
        }
        return Ok(Item::Sum { next: at + 3 });
    }
    Err(Refusal::Substitution)
}

// What `$@` or `$*` is.
fn spread_at(text: &[u8], from: Cursor) -> Result<Item, Refusal>
    requires { from.at + 1 < length text.now }
    ensures { Finds text.now from.at from.depth result
        (spread_at (lists_in (mode_of from.mode)) (get_or text.now (from.at + 1) 0) 1) }
{
    let at = from.at;
    if read_mode::lists_in(from.mode) {
        return Ok(Item::Spread {
            apart: read_brace::is_apart(text[at + 1]),
            next: at + 2,
        });
    }
    Err(Refusal::Unserved)
}

// Is a text of this mode bare, so that `$'` opens a quote in it?
#[tactic(auto, unfolding(stages::specs::Items::is_bare_text))]
fn is_bare_text(mode: Mode) -> bool
    ensures { result ≡ is_bare_text (mode_of mode) }
{
    matches!(mode, Mode::Word(_) | Mode::Value(_) | Mode::Bare { .. })
}

// What `$'` is: in bare text a quote opens.
fn quote_at(text: &[u8], from: Cursor) -> Item
    requires { from.at + 1 < length text.now }
    ensures { Shows text.now from.at from.depth result (dollar_quote (mode_of from.mode)) }
{
    let at = from.at;
    if is_bare_text(from.mode) {
        return Item::Quote {
            mode: Mode::Single(true),
            next: at + 2,
        };
    }
    Item::Byte {
        quoted: false,
        byte: b'$',
        next: at + 1,
    }
}

// What `$` is before a byte that begins no name, no parenthesis and no brace.
fn special_at(text: &[u8], from: Cursor) -> Result<Item, Refusal>
    requires { from.at + 1 < length text.now }
    ensures { Finds text.now from.at from.depth result
        (special (mode_of from.mode) (get_or text.now (from.at + 1) 0)) }
{
    let at = from.at;
    let b = text[at + 1];
    if read_brace::is_first_digit(b) {
        return Ok(Item::Value {
            param: Param {
                numbered: true,
                from: at + 1,
                to: at + 2,
            },
            next: at + 2,
        });
    }
    if b == b'#' {
        return Ok(Item::Total { next: at + 2 });
    }
    if text::is_in(b, b"@*") {
        return spread_at(text, from);
    }
    if read_mode::is_not_served(b) {
        return Err(Refusal::Unserved);
    }
    if b == b'\'' {
        return Ok(quote_at(text, from));
    }
    Ok(Item::Byte {
        quoted: false,
        byte: b'$',
        next: at + 1,
    })
}

// What `$` is.
fn expansion_at(text: &[u8], from: Cursor) -> Result<Item, Refusal>
    requires { from.at < length text.now }
    ensures { Finds text.now from.at from.depth result
        (expansion (mode_of from.mode) from.depth (drop (from.at + 1) text.now)) }
{
    let at = from.at;
    if at + 1 >= text.len() {
        return Ok(Item::Byte {
            quoted: false,
            byte: b'$',
            next: at + 1,
        });
    }
    let b = text[at + 1];
    if text::in_class(Class::NameStart, b) {
        let to = text::run_end(text, at + 1, Class::NameByte);
        return Ok(Item::Value {
            param: Param {
                numbered: false,
                from: at + 1,
                to,
            },
            next: to,
        });
    }
    if b == b'(' {
        return parenthesis_at(text, from);
    }
    if b == b'{' {
        return read_brace::braced_at(text, from);
    }
    special_at(text, from)
}

// What a `)` of an arithmetic text is, with so many open parentheses before it.
fn closed_at(text: &[u8], from: Cursor, parens: usize) -> Result<Item, Refusal>
    requires { (from.at < length text.now) × (parens ≤ from.at) }
    ensures { Finds text.now from.at from.depth result
        (closed (arith parens) (get_or text.now from.at 0) (drop (from.at + 1) text.now)) }
{
    let at = from.at;
    if parens > 0 {
        return Ok(Item::Paren {
            byte: text[at],
            parens: parens - 1,
        });
    }
    if at + 1 >= text.len() {
        return Err(Refusal::BadSyntax);
    }
    let b = text[at + 1];
    if b == b')' {
        return Ok(Item::Stop(at + 2));
    }
    Err(read_mode::wrong_byte(Refusal::BadSyntax, b))
}

// What a tilde is that begins a word or an operand: the longest run of login bytes behind it is its login, if that ends there.
fn tilde_at(text: &[u8], from: Cursor) -> Item
    requires { from.at < length text.now }
    ensures { Shows text.now from.at from.depth result
        (behind_tilde (mode_of from.mode) (get_or text.now from.at 0) (drop (from.at + 1) text.now)) }
{
    let at = from.at;
    let to = text::run_end(text, at + 1, Class::LoginByte);
    if to >= text.len() || read_mode::ends_login(from.mode, text[to]) {
        return Item::Home(to);
    }
    Item::Byte {
        quoted: false,
        byte: text[at],
        next: at + 1,
    }
}

// What stands where a text is read.
pub fn item_at(text: &[u8], from: Cursor) -> Result<Item, Refusal>
    requires { (from.at ≤ length text.now) × (open_in from.mode ≤ from.at) }
    ensures { Finds text.now from.at from.depth result
        (item (mode_of from.mode) from.depth (drop from.at text.now)) }
{
    let at = from.at;
    let mode = from.mode;
    if at >= text.len() {
        if read_mode::may_end(mode) {
            return Ok(Item::Stop(at));
        }
        return Err(Refusal::Unended);
    }
    let b = text[at];
    let sort = read_mode::sort_at(mode, b);
    match sort {
        Sort::Backquote => Err(Refusal::Substitution),
        Sort::Closes(taken) => Ok(Item::Stop(at + taken)),
        Sort::Operator => Err(Refusal::BareOperator),
        Sort::Quotes => Ok(Item::Quote {
            mode: Mode::Single(false),
            next: at + 1,
        }),
        Sort::Quotes2 => Ok(Item::Quote {
            mode: Mode::Double(read_mode::lists_in(mode)),
            next: at + 1,
        }),
        Sort::Backslash => escaped_at(text, from),
        Sort::Escape => said_at(text, from),
        Sort::Dollar => expansion_at(text, from),
        Sort::Bad => Err(Refusal::BadSyntax),
        Sort::Opening(parens) => Ok(Item::Paren {
            byte: b,
            parens: parens + 1,
        }),
        Sort::Closing(parens) => closed_at(text, from, parens),
        Sort::Tilde => Ok(tilde_at(text, from)),
        Sort::Literal => Ok(Item::Byte {
            quoted: false,
            byte: b,
            next: at + 1,
        }),
    }
}

// Does the text end at the place, as its next byte or the line's end says in this mode? Never said of arithmetic, which two bytes end.
pub fn is_end(text: &[u8], at: usize, mode: Mode) -> bool
    ensures { result ≡ is_end mode (drop at text.now) }
{
    if at >= text.len() {
        return read_mode::may_end(mode);
    }
    read_mode::is_closer(mode, text[at])
}

// How many bytes the end of a text takes in this mode: a word's blank is not part of it.
#[tactic(auto, unfolding(stages::specs::Items::closer_length))]
pub fn end_length(mode: Mode) -> usize
    ensures { result ≡ closer_length (mode_of mode) }
{
    match mode {
        Mode::Word(_) | Mode::Value(_) => 0,
        _ => 1,
    }
}

// The mode in which a text goes on after what is read: a parenthesis changes it, a byte may let a tilde begin, and behind its first item a text has begun.
pub fn mode_after<R: Reason>(read: Result<Item, R>, mode: Mode) -> Mode
    ensures { result ≡ mode_after_read read mode }
{
    match read {
        Ok(Item::Byte { quoted, byte, .. }) => read_mode::behind_byte(mode, quoted, byte),
        Ok(Item::Paren { parens, .. }) => Mode::Arith(parens),
        _ => read_mode::onward(mode),
    }
}

// Does the text end with what is read?
pub fn is_stop<R: Reason>(read: Result<Item, R>) -> bool
    ensures { result ≡ stops_read read }
{
    matches!(read, Ok(Item::Stop(_)))
}
