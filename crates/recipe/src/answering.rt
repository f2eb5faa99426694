// Lines to answers: what the program reads and writes around the turns of `recipe_answer`, which do all that lies between. Each answer is written before
// the next line is worked out, and right behind it, to standard error, the message that its line demands.
ghost use Rattle.std.specs.Prelude.{◌≡◌, length};
ghost use Rattle.stages.specs.Numbers.{work_least};
ghost use Rattle.recipe_answer.specs.Turns.{Ready};
ghost use Rattle.recipe.specs.Runs.{input_of, Comes, Spoken, Passes, Finishes, Follows, Answers};

use call_check::Asked;
use recipe_answer::{Begun, Carried, Turn};
use std::io;
use std::io::Read;

// The input cannot be read, and standard error says why.
#[derive(Clone, Copy)]
struct Unread;

// Where a run stands: what is carried to the next turn, and whether there is more to answer.
#[derive(Clone, Copy)]
struct Run {
    carried: Carried,
    goes_on: bool,
}

// What a read gave, and where the run stood before it.
#[derive(Clone, Copy)]
struct Came {
    input: Result<Option<usize>, Unread>,
    run: Run,
}

// What a read gave, by what it answered: so many bytes at the front of the block, or none, where the input is at its end.
fn input_of(rt: &HostRuntime, got: io::Result<usize>, block: &[u8]) -> Result<Option<usize>, Unread>
    ensures { result ≡ input_of got (length block.now) }
{
    match got {
        Ok(count) => {
            let n = count.min(block.len());
            Ok(if n > 0 { Some(n) } else { None })
        }
        Err(error) => {
            system::fail(rt, b"standard input", error);
            Err(Unread)
        }
    }
}

// Reads a block.
fn read_block(rt: &HostRuntime, block: &mut [u8]) -> Result<Option<usize>, Unread>
    ensures { Comes block.new result }
{
    let got = rt.stdin().read(block);
    input_of(rt, got, block)
}

// Writes the words of an answer, the first `len` bytes, to standard output, and what is told of its line, the bytes behind them, to standard error; answers
// whether the words could be written. A message that cannot be written ends nothing.
fn write_answer(rt: &HostRuntime, written: &[u8], len: usize) -> bool
    requires { Spoken written.now len }
{
    match system::write_out(rt, &written[..len]) {
        Ok(()) => {
            system::tell(rt, &written[len..]);
            true
        }
        Err(error) => {
            system::fail(rt, b"standard output", error);
            false
        }
    }
}

// Answers the lines that end in a block. Output that cannot be written ends the run.
fn answer_block(
    rt: &HostRuntime,
    run: Run,
    block: &[u8],
    line: &mut [u8],
    vars: &mut [u8],
    homes: &[u8],
    params: &[u8],
    paths: &[u8],
    work: &mut [u8],
    said: &mut [u8],
) -> Run
    requires { Ready line.old said.old run.carried.kept × (work_least ≡ length work.old) }
    ensures { Passes homes.now paths.now params.now block.now line.old
        vars.old run line.new vars.new result }
{
    let mut so_far = run;
    let mut at = 0;
    while so_far.goes_on && at < block.len() {
        let carried = so_far.carried;
        let begun = Begun { carried, at };
        let turn = recipe_answer::answer_next(
            begun, block, line, vars, homes, params, paths, work, said,
        );
        match turn {
            Turn::Open(kept) => {
                return Run {
                    carried: Carried { kept, ..carried },
                    goes_on: true,
                };
            }
            Turn::Answered {
                len,
                told,
                vars_used,
                next,
            } => {
                let end = len + told;
                let is_written = write_answer(rt, &said[..end], len);
                so_far = Run {
                    carried: Carried {
                        kept: 0,
                        line: recipe_cut::next_number(carried.line),
                        vars_used,
                        ..carried
                    },
                    goes_on: is_written,
                };
                at = next;
            }
        }
    }
    so_far
}

// Answers the last line, if it is not empty, where the input is at its end.
fn answer_end(
    rt: &HostRuntime,
    run: Run,
    line: &[u8],
    vars: &mut [u8],
    homes: &[u8],
    params: &[u8],
    paths: &[u8],
    work: &mut [u8],
    said: &mut [u8],
) -> Run
    requires { Ready line.now said.old run.carried.kept × (work_least ≡ length work.old) }
    ensures { Finishes homes.now paths.now params.now line.now vars.old
        said.old run vars.new said.new result }
{
    let carried = run.carried;
    let spoken = recipe_answer::answer_last(carried, line, vars, homes, params, paths, work, said);
    let len = spoken.len;
    if len > 0 {
        let end = len + spoken.told;
        write_answer(rt, &said[..end], len);
    }
    Run {
        carried: Carried {
            kept: 0,
            vars_used: spoken.vars_used,
            ..carried
        },
        goes_on: false,
    }
}

// Answers what a read gave.
fn answer_input(
    rt: &HostRuntime,
    came: Came,
    block: &[u8],
    line: &mut [u8],
    vars: &mut [u8],
    homes: &[u8],
    params: &[u8],
    paths: &[u8],
    work: &mut [u8],
    said: &mut [u8],
) -> Run
    requires { Ready line.old said.old came.run.carried.kept × Comes block.now came.input × (work_least ≡ length work.old) }
    ensures { Follows homes.now paths.now params.now block.now line.old
        vars.old said.old came.run line.new vars.new said.new result came.input }
{
    let run = came.run;
    match came.input {
        Ok(Some(n)) => answer_block(
            rt,
            run,
            &block[..n],
            line,
            vars,
            homes,
            params,
            paths,
            work,
            said,
        ),
        Ok(None) => answer_end(rt, run, line, vars, homes, params, paths, work, said),
        Err(_) => Run {
            carried: Carried {
                kept: 0,
                ..run.carried
            },
            goes_on: false,
        },
    }
}

// Answers all lines, and gives the variables' used length after them. A proved loop has to end, and nothing says that the input does: so it counts its turns
// up to a number that no run reaches.
pub fn answer_all(
    rt: &HostRuntime,
    asked: Asked,
    block: &mut [u8],
    line: &mut [u8],
    vars: &mut [u8],
    homes: &[u8],
    params: &[u8],
    paths: &[u8],
    work: &mut [u8],
    said: &mut [u8],
) -> usize
    requires { Ready line.old said.old 0 × (work_least ≡ length work.old) }
    ensures { Answers homes.now paths.now params.now vars.old asked.vars_used asked.shouts
        vars.new result }
{
    let mut run = Run {
        carried: Carried {
            kept: 0,
            line: 1,
            vars_used: asked.vars_used,
            shouts: asked.shouts,
        },
        goes_on: true,
    };
    for _turn in 0..u64::MAX {
        if !run.goes_on {
            break;
        }
        let input = read_block(rt, block);
        let came = Came { input, run };
        run = answer_input(
            rt, came, block, line, vars, homes, params, paths, work, said,
        );
    }
    run.carried.vars_used
}
