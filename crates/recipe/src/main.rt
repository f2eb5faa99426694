// The program of document 01. It reads the tables of the current folder, then answers the lines of standard input one by one; its arguments are their
// positional parameters, with `--shout` before them unset names shout. The buffers are made here and lent; how an answer is worked out is in the libraries.
#![tactic(auto)]

mod answering;

ghost use Rattle.std.specs.Prelude.{◌≡◌, true, ◌+◌, length};
ghost use Rattle.stages.specs.Numbers.{image_limit, paths_limit, line_limit};
ghost use Rattle.recipe_cut.specs.Said.{written_room};
ghost use Rattle.recipe.specs.Runs.{Answers, Runs};

use call_check::Asked;
use text::numbers;

// Room for an image and a byte more, which tells a file that is too long.
fn image_room() -> [u8; numbers::IMAGE_KEPT]
    ensures { image_limit + 1 ≡ length result }
{
    [0; numbers::IMAGE_KEPT]
}

// The same for an image of paths.
fn paths_room() -> [u8; numbers::PATHS_KEPT]
    ensures { paths_limit + 1 ≡ length result }
{
    [0; numbers::PATHS_KEPT]
}

// One byte more than a line may have.
fn line_room() -> [u8; numbers::LINE_KEPT]
    ensures { line_limit + 1 ≡ length result }
{
    [0; numbers::LINE_KEPT]
}

// Room for what is said and told of a line.
fn said_room() -> [u8; recipe_cut::WRITTEN_ROOM]
    ensures { written_room ≡ length result }
{
    [0; recipe_cut::WRITTEN_ROOM]
}

// Answers all lines with the tables that were read and the parameters, and gives the variables' used length after them. The work area is made once: every
// call leaves it zero.
fn answer_with(
    rt: &HostRuntime,
    vars: &mut [u8],
    vars_used: usize,
    shouts: bool,
    homes: &[u8],
    params: &[u8],
    paths: &[u8],
) -> usize
    ensures { Answers homes.now paths.now params.now vars.old vars_used shouts vars.new result }
{
    let mut line = line_room();
    let mut block = system::buffer();
    let mut work = system::large_buffer();
    let mut said = said_room();
    let asked = Asked { vars_used, shouts };
    answering::answer_all(
        rt, asked, &mut block, &mut line, vars, homes, params, paths, &mut work, &mut said,
    )
}

// Says on standard error how the program is called.
fn say_usage(rt: &HostRuntime) {
    system::tell(rt, b"usage: recipe [--shout] [--] [PARAMETER]... < LINES\n");
}

// Reads the three tables and hears the arguments, options and positional parameters, and answers all lines. If a table cannot be read, or an option is
// unknown, no line is answered.
fn run(
    rt: &HostRuntime,
    vars: &mut [u8],
    homes: &mut [u8],
    params: &mut [u8],
    paths: &mut [u8],
) -> bool
    requires { (image_limit + 1 ≡ length vars.old) × (image_limit + 1 ≡ length homes.old) × (image_limit + 1 ≡ length params.old)
        × (paths_limit + 1 ≡ length paths.old) }
    ensures { result ≡ true → Runs vars.new homes.new paths.new params.new }
{
    let Ok(vars_used) = recipe_load::load(rt, b"vars.tab", vars) else {
        return false;
    };
    let Ok(h) = recipe_load::load(rt, b"homes.tab", homes) else {
        return false;
    };
    let Ok(p) = recipe_load::load(rt, b"paths.tab", paths) else {
        return false;
    };
    let heard = recipe_arguments::gather(rt, 1, params);
    if !heard.known {
        say_usage(rt);
        return false;
    }
    let packed = heard.used;
    answer_with(
        rt,
        &mut vars[..numbers::IMAGE_LIMIT],
        vars_used,
        heard.shouts,
        &homes[..h],
        &params[..packed],
        &paths[..p],
    );
    true
}

fn main(rt: HostRuntime) {
    let mut vars = image_room();
    let mut homes = image_room();
    let mut params = image_room();
    let mut paths = paths_room();
    run(&rt, &mut vars, &mut homes, &mut params, &mut paths);
}
