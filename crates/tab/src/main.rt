// The table tool: `tab show KIND` reads an image from standard input and writes its lines, `tab pack KIND` reads lines and writes their image, `tab assign`
// reads assignment lines and writes the image of the current folder's variables after them, `tab insert PATH` and `tab delete PATH` read an image of paths and
// write it with that path or without it. What it cannot do it tells on standard error, and writes nothing else then. The work is that of `tab_show`,
// `tab_pack`, `tab_list`, `tab_assign`, and of the jobs themselves.
#![tactic(auto)]

mod telling;

ghost use Rattle.std.specs.Prelude.{◌≡◌, ◌+◌, ◌*◌, ◌≤◌, length};
ghost use Rattle.stages.specs.Numbers.{image_limit, paths_limit};

use call_check::Asked;
use call_update::Updated;
use std::io::Read;
use tab_pack::BadLine;
use table::Kind;
use telling::say;
use text::numbers;

// The longest image, and a byte more to see that one is longer.
fn image_room() -> [u8; numbers::PATHS_KEPT]
    ensures { paths_limit + 1 ≡ length result }
{
    [0; numbers::PATHS_KEPT]
}

// The same for variables and homes.
fn pairs_room() -> [u8; numbers::IMAGE_KEPT]
    ensures { image_limit + 1 ≡ length result }
{
    [0; numbers::IMAGE_KEPT]
}

// The lines of the longest image.
fn lines_room() -> [u8; numbers::SHOWN_ROOM]
    ensures { 4 * (paths_limit + 1) ≡ length result }
{
    [0; numbers::SHOWN_ROOM]
}

// A row's bytes, so that no message is cut.
fn message_room() -> [u8; numbers::ROW_LIMIT] {
    [0; numbers::ROW_LIMIT]
}

// Reading stopped: could the input be read to its end, or to the end of the buffer?
fn was_read(rt: &HostRuntime, n: usize, room: usize) -> bool {
    if room <= n {
        return true;
    }
    let mut one = [0u8; 16];
    if let Err(error) = rt.stdin().read(&mut one) {
        system::fail(rt, b"standard input", error);
        return false;
    }
    true
}

// A text of n bytes was read into a buffer: all of it? If not, that is told.
fn is_whole(rt: &HostRuntime, n: usize, room: usize) -> bool {
    if !was_read(rt, n, room) {
        return false;
    }
    if n == room {
        say(rt, b"tab: a text of more than 131,075 bytes\n");
        return false;
    }
    true
}

// Writes the first n bytes.
fn write_out(rt: &HostRuntime, out: &[u8], n: usize) {
    let Some(bytes) = out.get(..n) else {
        return;
    };
    if let Err(error) = system::write_out(rt, bytes) {
        system::fail(rt, b"standard output", error);
    }
}

// Shows the image that is read.
fn show_input(rt: &HostRuntime, kind: Kind, image: &mut [u8], out: &mut [u8])
    requires { 4 * length image.old ≤ length out.old }
{
    let n = system::read_full(&mut rt.stdin(), image);
    if !was_read(rt, n, image.len()) {
        return;
    }
    match tab_show::show(kind, &image[..n], out) {
        Ok(m) => write_out(rt, out, m),
        Err(_) => say(rt, b"tab: no image of this kind, or one that is too long\n"),
    }
}

fn show(rt: &HostRuntime, kind: Kind) {
    let mut image = image_room();
    let mut out = lines_room();
    show_input(rt, kind, &mut image, &mut out);
}

// Packs lines: records by their keys, fields as they stand.
fn pack_lines(kind: Kind, text: &[u8], image: &mut [u8], work: &mut [u8]) -> Result<usize, BadLine>
    requires { (paths_limit + 1 ≡ length image.old) × (length text.now ≤ length work.old) }
{
    match kind {
        Kind::Variables | Kind::Homes | Kind::Paths => tab_pack::pack(kind, text, image, work),
        Kind::Fields => tab_list::pack_fields(text, &mut image[..numbers::IMAGE_LIMIT], work),
    }
}

// Packs the lines that are read.
fn pack_input(rt: &HostRuntime, kind: Kind, text: &mut [u8], image: &mut [u8], work: &mut [u8])
    requires { (paths_limit + 1 ≡ length image.old) × (length text.old ≤ length work.old) }
{
    let n = system::read_full(&mut rt.stdin(), text);
    if !is_whole(rt, n, text.len()) {
        return;
    }
    match pack_lines(kind, &text[..n], image, work) {
        Ok(m) => write_out(rt, image, m),
        Err(bad) => telling::say_bad_line(rt, kind, bad),
    }
}

fn pack(rt: &HostRuntime, kind: Kind) {
    let mut text = lines_room();
    let mut image = image_room();
    let mut work = lines_room();
    pack_input(rt, kind, &mut text, &mut image, &mut work);
}

// Applies assignment lines to variables and writes their image.
fn assign_text(
    rt: &HostRuntime,
    text: &[u8],
    vars: &mut [u8],
    asked: Asked,
    homes: &[u8],
    params: &[u8],
    work: &mut [u8],
    message: &mut [u8],
) {
    match tab_assign::assign_lines(text, vars, asked, homes, params, work, message) {
        Ok(vars_used) => write_out(rt, vars, vars_used),
        Err(refused) => {
            let n = refused.message_len;
            telling::say_refusal(rt, refused, &message[..n]);
        }
    }
}

// Applies the assignment lines that are read to the variables of the current folder.
fn assign_input(
    rt: &HostRuntime,
    shouts: bool,
    text: &mut [u8],
    vars: &mut [u8],
    homes: &mut [u8],
    params: &[u8],
    work: &mut [u8],
    message: &mut [u8],
)
    requires { (image_limit + 1 ≡ length vars.old) × (image_limit + 1 ≡ length homes.old) }
{
    let Ok(used) = recipe_load::load(rt, b"vars.tab", vars) else {
        return;
    };
    let Ok(h) = recipe_load::load(rt, b"homes.tab", homes) else {
        return;
    };
    let n = system::read_full(&mut rt.stdin(), text);
    if !is_whole(rt, n, text.len()) {
        return;
    }
    let asked = Asked {
        vars_used: used,
        shouts,
    };
    let front = &mut vars[..numbers::IMAGE_LIMIT];
    assign_text(
        rt,
        &text[..n],
        front,
        asked,
        &homes[..h],
        params,
        work,
        message,
    );
}

// Hears the arguments behind the first: the switch, and the positional parameters of the lines.
fn assign(rt: &HostRuntime) {
    let mut params = pairs_room();
    let heard = recipe_arguments::gather(rt, 2, &mut params);
    if !heard.known {
        telling::usage(rt);
        return;
    }
    let packed = heard.used;
    let mut text = lines_room();
    let mut vars = pairs_room();
    let mut homes = pairs_room();
    let mut work = system::large_buffer();
    let mut message = message_room();
    assign_input(
        rt,
        heard.shouts,
        &mut text,
        &mut vars,
        &mut homes,
        &params[..packed],
        &mut work,
        &mut message,
    );
}

// Inserts a path into an image of n bytes, or deletes it.
fn update(job: &[u8], image: &mut [u8], n: usize, path: &[u8]) -> Updated {
    match job {
        b"insert" => drunquill::insert_path(image, n, path),
        _ => drunquill::delete_path(image, n, path),
    }
}

// Does so in the image that is read, and writes what it is then.
fn update_input(rt: &HostRuntime, job: &[u8], path: &[u8], image: &mut [u8]) {
    let n = system::read_full(&mut rt.stdin(), image);
    if !was_read(rt, n, image.len()) {
        return;
    }
    let updated = update(job, image, n, path);
    if updated.number == numbers::ACCEPTED {
        write_out(rt, image, updated.used);
    } else {
        telling::say_not_updated(rt, updated.number);
    }
}

fn update_paths(rt: &HostRuntime, job: &[u8], path: &[u8]) {
    let mut image = image_room();
    update_input(rt, job, path, &mut image);
}

// The kind of table that a word names.
fn kind_named(word: &[u8]) -> Option<Kind> {
    match word {
        b"vars" => Some(Kind::Variables),
        b"homes" => Some(Kind::Homes),
        b"paths" => Some(Kind::Paths),
        b"fields" => Some(Kind::Fields),
        _ => None,
    }
}

// Does a job with the word behind it.
fn do_job(rt: &HostRuntime, job: &[u8], word: &[u8]) {
    match (job, kind_named(word)) {
        (b"show", Some(kind)) => show(rt, kind),
        (b"pack", Some(kind)) => pack(rt, kind),
        (b"insert" | b"delete", _) => update_paths(rt, job, word),
        _ => telling::usage(rt),
    }
}

fn main(rt: HostRuntime) {
    let rt = &rt;
    let mut job = system::buffer();
    let n = system::arg(rt, 1, &mut job).unwrap_or(0);
    if matches!(&job[..n], b"assign") {
        assign(rt);
        return;
    }
    let mut word = lines_room();
    let m = system::arg(rt, 2, &mut word).unwrap_or(0);
    if system::arg_count(rt) != 3 {
        telling::usage(rt);
        return;
    }
    do_job(rt, &job[..n], &word[..m]);
}
