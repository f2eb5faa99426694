// The program's turns: what lies between what it reads and what it writes, on lent bytes alone. A turn takes the next line from a block and, where it ends
// there, works out its answer in words and the message that it demands, by the stages. The work area is the caller's, who keeps it for all lines.
#![tactic(auto)]

ghost use Rattle.std.specs.Prelude.{◌≤◌, ◌≡◌, [], ◌∷◌, length, take};
ghost use Rattle.stages.specs.Numbers.{work_least, row_limit};
ghost use Rattle.stages.specs.Call.{cleared};
ghost use Rattle.recipe_cut.specs.Lines.{last_line};
ghost use Rattle.recipe_cut.specs.Said.{written_room};
ghost use Rattle.recipe_answer.specs.Says.{variables, Lent, Says};
ghost use Rattle.recipe_answer.specs.Turns.{Ready, buffers, Turned, area_after, area_after_lines};

use call_check::Asked;
use recipe_cut::Taken;
use text::numbers;

// An answer in words: its length, that of what is told right behind it, and the variables' used length after it.
#[derive(Clone, Copy)]
pub struct Said {
    pub len: usize,
    pub told: usize,
    pub vars_used: usize,
}

// What is carried from turn to turn: the bytes kept of a line that has not ended, the line's number, the variables' used length, and whether unset names
// shout.
#[derive(Clone, Copy)]
pub struct Carried {
    pub kept: usize,
    pub line: usize,
    pub vars_used: usize,
    pub shouts: bool,
}

// Where a turn begins: what is carried into it, and the place in the block.
#[derive(Clone, Copy)]
pub struct Begun {
    pub carried: Carried,
    pub at: usize,
}

// What came of a turn.
#[derive(Clone, Copy)]
pub enum Turn {
    // The block ran out within a line: how many bytes of it are kept.
    Open(usize),
    // A line ended: the length of its answer in words, that of what is told of it, the variables' used length after it, and the place behind its newline.
    Answered {
        len: usize,
        told: usize,
        vars_used: usize,
        next: usize,
    },
}

// A row's bytes, so that no message is cut.
fn message_room() -> [u8; numbers::ROW_LIMIT]
    ensures { row_limit ≡ length result }
{
    [0; numbers::ROW_LIMIT]
}

// Works out what is said and told of a line, in a lent work area and message buffer. The normaliser writes the quoted line where it is said: the longest one
// has room there, and document 01's 8,192 bytes would not change an answer.
fn say_in(
    carried: Carried,
    line: &[u8],
    vars: &mut [u8],
    homes: &[u8],
    params: &[u8],
    paths: &[u8],
    work: &mut [u8],
    message: &mut [u8],
    said: &mut [u8],
) -> Said
    requires { Lent work.old message.old × (written_room ≤ length said.old) }
    ensures { Says homes.now paths.now params.now
        (variables vars.old carried.vars_used carried.shouts) carried.line (line.now ∷ [])
        said.old said.new vars.new result
        × (work.new ≡ cleared work.old) }
{
    let asked = Asked {
        vars_used: carried.vars_used,
        shouts: carried.shouts,
    };
    let answer = drunquill::normalise(
        line,
        vars,
        asked,
        homes,
        params,
        paths,
        work,
        &mut said[recipe_cut::LINE_AT..recipe_cut::LINE_TO],
        message,
    );
    let len = recipe_cut::put_answer(answer.number, answer.place, answer.out_len, said);
    let m = answer.message_len;
    let told = recipe_cut::put_told(answer.number, carried.line, &message[..m], &mut said[len..]);
    Said {
        len,
        told,
        vars_used: answer.vars_used,
    }
}

// Works out what is said and told of a line, in a lent work area.
fn say(
    carried: Carried,
    line: &[u8],
    vars: &mut [u8],
    homes: &[u8],
    params: &[u8],
    paths: &[u8],
    work: &mut [u8],
    said: &mut [u8],
) -> Said
    requires { (work_least ≡ length work.old) × (written_room ≤ length said.old) }
    ensures { Says homes.now paths.now params.now
        (variables vars.old carried.vars_used carried.shouts) carried.line (line.now ∷ [])
        said.old said.new vars.new result
        × (work.new ≡ cleared work.old) }
{
    let mut message = message_room();
    say_in(
        carried,
        line,
        vars,
        homes,
        params,
        paths,
        work,
        &mut message,
        said,
    )
}

// Takes the next line from a block, from a place on, and answers it if it ends there; else what came of it is kept.
pub fn answer_next(
    begun: Begun,
    block: &[u8],
    line: &mut [u8],
    vars: &mut [u8],
    homes: &[u8],
    params: &[u8],
    paths: &[u8],
    work: &mut [u8],
    said: &mut [u8],
) -> Turn
    requires { Ready line.old said.old begun.carried.kept × (begun.at ≤ length block.now) × (work_least ≡ length work.old) }
    ensures { Turned homes.now paths.now params.now begun.carried block.now begun.at
        (buffers line.old vars.old said.old) (buffers line.new vars.new said.new) result
        × (work.new ≡ area_after result work.old) }
{
    let carried = begun.carried;
    let taken = recipe_cut::take_in(line, carried.kept, block, begun.at);
    match taken {
        Taken::Open(kept) => Turn::Open(kept),
        Taken::Ended { kept, next } => {
            let spoken = say(
                carried,
                &line[..kept],
                vars,
                homes,
                params,
                paths,
                work,
                said,
            );
            Turn::Answered {
                len: spoken.len,
                told: spoken.told,
                vars_used: spoken.vars_used,
                next,
            }
        }
    }
}

// At the end of what is read, "an unended last one too if not empty" is answered.
pub fn answer_last(
    carried: Carried,
    line: &[u8],
    vars: &mut [u8],
    homes: &[u8],
    params: &[u8],
    paths: &[u8],
    work: &mut [u8],
    said: &mut [u8],
) -> Said
    requires { Ready line.now said.old carried.kept × (work_least ≡ length work.old) }
    ensures { Says homes.now paths.now params.now
        (variables vars.old carried.vars_used carried.shouts) carried.line
        (last_line (take carried.kept line.now)) said.old said.new vars.new result
        × (work.new ≡ area_after_lines (last_line (take carried.kept line.now)) work.old) }
{
    let kept = carried.kept;
    if recipe_cut::is_last_line(&line[..kept]) {
        return say(
            carried,
            &line[..kept],
            vars,
            homes,
            params,
            paths,
            work,
            said,
        );
    }
    Said {
        len: 0,
        told: 0,
        vars_used: carried.vars_used,
    }
}
