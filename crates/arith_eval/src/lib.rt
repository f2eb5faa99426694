// The arithmetic text of document 01: an expression is read and worked out without a tree. The text is gone through once, where all of it
// counts; where that is refused, it is gone through again where nothing counts, since "reading faults come first".
#![tactic(auto)]

ghost use Rattle.std.specs.Prelude.{◌*◌, ◌≤◌, length};
ghost use Rattle.stages.specs.Numbers.{row_limit, image_limit};
ghost use Rattle.stages.specs.Bytes.{Text};
ghost use Rattle.stages.specs.Arith.{tree};
ghost use Rattle.table.specs.Around.{lent_of};
ghost use Rattle.table_store.specs.Holding.{Holds};
ghost use Rattle.arith_eval.specs.Climbs.{alone};
ghost use Rattle.arith_eval.specs.Answers.{Finishes, Answers, Prevails, ComesTo};

use answers::Scope;
use arith_token::{Token, token_at};
use climb::whole;
use plain::plain_text;
use text::numbers;
use text::refusal::Refusal;

mod answers;
mod climb;
mod marks;
mod plain;
mod values;

// What a text comes to: a number, and how many bytes the image of variables has then.
#[derive(Clone, Copy)]
pub struct Worked {
    pub value: i64,
    pub vars_used: usize,
}

// How many places may wait for a value: each takes two bytes of a text.
const PLACES: usize = 1024;

// Nothing may stand behind the value of a whole text.
fn ended(text: &[u8], at: usize) -> Result<(), Refusal>
    requires { at ≤ length text.now }
    ensures { Finishes text.now at result }
{
    let token = token_at(text, at)?;
    match token {
        Token::Stop => Ok(()),
        _ => Err(Refusal::ArithmeticSyntax),
    }
}

// The whole text, gone through once.
fn once(
    text: &[u8],
    counts: bool,
    vars: &mut [u8],
    vars_used: usize,
    vars_room: usize,
    places: &mut [u16],
    shouts: bool,
) -> Result<Worked, Refusal>
    requires { (length text.now ≤ row_limit) × Holds vars_room vars.old vars_used × (row_limit ≤ 2 * length places.old) }
    ensures { Answers (alone vars_room shouts) vars.old vars_used counts (tree text.now) vars.new result }
{
    let scope = Scope {
        room: numbers::OPEN_LIMIT,
        counts,
        vars_used,
        vars_room,
        shouts,
    };
    let got = whole(text, 0, scope, vars, places)?;
    ended(text, got.next)?;
    Ok(Worked {
        value: got.value,
        vars_used: got.vars_used,
    })
}

// Why a text is refused of which it is known why it is where it counts: for its reading, if that is refused too. The variables are
// used up: reading asks for none, so it is lent an image that holds none.
fn refusal(text: &[u8], worked: Refusal, vars: &mut [u8], places: &mut [u16]) -> Refusal
    requires { (length text.now ≤ row_limit) × (image_limit ≤ length vars.old) × (row_limit ≤ 2 * length places.old) }
    ensures { Prevails text.now worked result }
{
    vars[0] = numbers::VERSION;
    let read = once(text, false, vars, 1, 1, places, false);
    match read {
        Err(e) => e,
        Ok(_) => worked,
    }
}

// Reading faults first, then those of working it out.
fn settled(
    text: &[u8],
    vars: &mut [u8],
    vars_used: usize,
    vars_room: usize,
    places: &mut [u16],
    shouts: bool,
) -> Result<Worked, Refusal>
    requires { (length text.now ≤ row_limit) × Holds vars_room vars.old vars_used × (row_limit ≤ 2 * length places.old) }
    ensures { ComesTo (alone vars_room shouts) text.now vars.old vars_used vars.new result }
{
    let got = once(text, true, vars, vars_used, vars_room, places, shouts);
    match got {
        Ok(_) => got,
        Err(e) => Err(refusal(text, e, vars, places)),
    }
}

// Any text, with room for the names that wait for a value.
fn with_places(
    text: &[u8],
    vars: &mut [u8],
    vars_used: usize,
    vars_room: usize,
    shouts: bool,
) -> Result<Worked, Refusal>
    requires { (length text.now ≤ row_limit) × Holds vars_room vars.old vars_used }
    ensures { ComesTo (alone vars_room shouts) text.now vars.old vars_used vars.new result }
{
    let mut places = [0u16; PLACES];
    settled(text, vars, vars_used, vars_room, &mut places, shouts)
}

// The number that an arithmetic text comes to, and the variables as its assignments leave them. An unset name is refused where it is read, if the switch
// is on.
pub fn evaluate_text(
    text: &[u8],
    vars: &mut [u8],
    vars_used: usize,
    vars_room: usize,
    shouts: bool,
) -> Result<Worked, Refusal>
    requires { (length text.now ≤ row_limit) × Holds vars_room vars.old vars_used }
    ensures { (homes params : Text) → ComesTo (lent_of vars_room shouts homes params) text.now vars.old vars_used
        vars.new result }
{
    let got = plain_text(text);
    match got {
        Some(value) => Ok(Worked { value, vars_used }),
        None => with_places(text, vars, vars_used, vars_room, shouts),
    }
}
