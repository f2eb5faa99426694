// A line's words, one after the other: each is expanded, split, and its fields are written after those before it. Places belong to the loop over the
// words alone.
#![tactic(auto)]

ghost use Rattle.std.specs.Prelude.{◌≤◌, length, take, drop};
ghost use Rattle.stages.specs.Numbers.{depth_limit, image_limit, line_limit};
ghost use Rattle.stages.specs.Images.{held};
ghost use Rattle.stages.specs.Syntax.{fresh, word};
ghost use Rattle.stages.specs.Read.{parts};
ghost use Rattle.table.specs.Around.{among};
ghost use Rattle.expand_line.specs.Answers.{line_outcome, BareSays, CopiesStill, PutsBare, WordReady, WordSays, LineReady, LineSays};

use expand_add::answers::{Extent, LineStop, Stop};
use read_mode::{Cursor, Mode};
use read_still::StillWord;
use row::{Mark, RowEnd};
use split_field::WriteError;
use table_store::NoRoom;
use text::refusal::Refusal;
use text::{Class, numbers};

// What a line's words give: the fields' image is the first `used` bytes of the output, and the variables' the first `vars_used` of their buffer.
#[derive(Clone, Copy)]
pub struct LineDone {
    pub used: usize,
    pub vars_used: usize,
}

// Where the line is read next, and how many bytes of the output are written.
#[derive(Clone, Copy)]
struct Progress {
    at: usize,
    used: usize,
}

// What one word gives: the same lengths, and where the line goes on.
#[derive(Clone, Copy)]
struct WordDone {
    used: usize,
    next: usize,
    vars_used: usize,
}

// Where the word at a place ends, if it is one that the quoter would write bare, and a blank or the line's end stands behind it.
fn bare_end(line: &[u8], at: usize) -> Option<usize>
    requires { at ≤ length line.now }
    ensures { BareSays line.now at result }
{
    let end = text::run_end(line, at, Class::BareByte);
    if at < end && end - at <= numbers::LINE_LIMIT && (end == line.len() || line[end] == b' ') {
        Some(end)
    } else {
        None
    }
}

// A bare word: its bytes are its one field, whatever the tables are. The line goes on at `next`.
fn put_bare(
    word: &[u8],
    next: usize,
    vars_used: usize,
    out: &mut [u8],
    used: usize,
) -> Result<WordDone, Stop>
    requires { (used ≤ length out.old) × (length out.old ≤ image_limit) }
    ensures { PutsBare word.now next vars_used used out.old out.new result }
{
    match split_field::put_text(word, out, used) {
        Ok(used) => Ok(WordDone {
            used,
            next,
            vars_used,
        }),
        Err(NoRoom) => Err(Stop::Refused(Refusal::OutputRoom)),
    }
}

// The word at a place, if nothing is expanded in it and it is no longer than a line may be: its bytes stand at the front of the work area.
fn copy_still(line: &[u8], at: usize, work: &mut [u8]) -> Option<StillWord>
    requires { (at ≤ length line.now) × (line_limit ≤ length work.old) }
    ensures { CopiesStill line.now at work.old work.new result }
{
    if line.len() - at > numbers::LINE_LIMIT {
        return None;
    }
    match read_still::put_still(line, at, work) {
        Some(word) if at < word.next => Some(word),
        _ => None,
    }
}

// Any word at a place: its fields, after the bytes of the output that are written. "Fields are checked for 19 in order.", and "21 is met at the end of
// the word".
fn put_expanded(
    line: &[u8],
    from: Progress,
    vars: &mut [u8],
    extent: Extent,
    homes: &[u8],
    params: &[u8],
    paths: &[u8],
    work: &mut [u8],
    out: &mut [u8],
) -> Result<WordDone, Stop>
    requires { WordReady line.now from.at vars.old extent.vars_used extent.vars_room homes.now params.now paths.now work.old
        out.old from.used }
    ensures { WordSays
        (among extent.vars_room extent.shouts homes.now params.now paths.now (length out.old))
        (parts (word fresh) depth_limit (drop from.at line.now)) line.now from.at from.used
        (held (take extent.vars_used vars.old)) vars.new out.old out.new work.new result }
{
    let word = Cursor {
        at: from.at,
        mode: Mode::Word(true),
        depth: numbers::DEPTH_LIMIT,
    };
    let start = RowEnd {
        mark: Mark::L,
        units: 0,
    };
    let row = expand_text::expand_text(line, word, start, vars, extent, homes, params, work)?;
    match split_row::put_word_fields(
        &mut work[..2 * row.units],
        vars,
        row.vars_used,
        paths,
        out,
        from.used,
    ) {
        Ok(longer) => Ok(WordDone {
            used: longer,
            next: row.next,
            vars_used: row.vars_used,
        }),
        Err(WriteError::BadClass) => Err(Stop::Refused(Refusal::BracketClass)),
        Err(WriteError::NoRoom) => Err(Stop::Refused(Refusal::OutputRoom)),
    }
}

// The word at a place: its fields, after the bytes of the output that are written. A bare word is written as it stands in the line, and of a word in which
// nothing is expanded its bytes are.
fn put_word(
    line: &[u8],
    from: Progress,
    vars: &mut [u8],
    extent: Extent,
    homes: &[u8],
    params: &[u8],
    paths: &[u8],
    work: &mut [u8],
    out: &mut [u8],
) -> Result<WordDone, Stop>
    requires { WordReady line.now from.at vars.old extent.vars_used extent.vars_room homes.now params.now paths.now work.old
        out.old from.used }
    ensures { WordSays
        (among extent.vars_room extent.shouts homes.now params.now paths.now (length out.old))
        (parts (word fresh) depth_limit (drop from.at line.now)) line.now from.at from.used
        (held (take extent.vars_used vars.old)) vars.new out.old out.new work.new result }
{
    let at = from.at;
    if let Some(end) = bare_end(line, at) {
        return put_bare(&line[at..end], end, extent.vars_used, out, from.used);
    }
    if let Some(word) = copy_still(line, at, work) {
        return put_bare(
            &work[..word.len],
            word.next,
            extent.vars_used,
            out,
            from.used,
        );
    }
    put_expanded(line, from, vars, extent, homes, params, paths, work, out)
}

// Expands a line that has been read, "left to right, first fault met": the image of its fields stands at the front of `out`, that of the variables at the
// front of `vars`.
pub fn expand_line(
    line: &[u8],
    vars: &mut [u8],
    extent: Extent,
    homes: &[u8],
    params: &[u8],
    paths: &[u8],
    work: &mut [u8],
    out: &mut [u8],
) -> Result<LineDone, LineStop>
    requires { LineReady line.now vars.old extent.vars_used extent.vars_room homes.now params.now paths.now work.old out.old }
    ensures { LineSays extent.vars_room
        (line_outcome (among extent.vars_room extent.shouts homes.now params.now paths.now (length out.old))
        line.now (held (take extent.vars_used vars.old))) vars.new out.old out.new
        work.new result }
{
    out[0] = numbers::VERSION;
    let mut at: usize = 0;
    let mut used: usize = 1;
    let mut vars_used = extent.vars_used;
    while let Some(place) = read_line::next_word(line, at) {
        let from = Progress { at: place, used };
        let reached = Extent {
            vars_used,
            ..extent
        };
        match put_word(line, from, vars, reached, homes, params, paths, work, out) {
            Err(stop) => return Err(LineStop { stop, place }),
            Ok(word) => {
                at = word.next;
                used = word.used;
                vars_used = word.vars_used;
            }
        }
    }
    Ok(LineDone { used, vars_used })
}
