// Text to tables: each line becomes a record, in the order of the kind, or the first line that is none is told with its cause.
#![tactic(auto)]

ghost use Rattle.std.specs.Prelude.{[], ◌≤◌, length};
ghost use Rattle.stages.specs.Program.{lines_of};
ghost use Rattle.table.specs.Kinds.{in_twos};
ghost use Rattle.tab_enter.specs.Records.{limit_by};
ghost use Rattle.tab_pack.specs.Packings.{packed, Packs};

use tab_escape::Fault;
use table::Kind;
use text::numbers;

// The first line that is no record of the table, and why.
#[derive(Clone, Copy)]
pub struct BadLine {
    pub line: usize,
    pub fault: Fault,
}

const NEWLINE: u8 = b'\n';

// Packs the lines of a text into an image of the kind at the front of a buffer, and answers its length. The bytes behind it stay. At a line that is no record
// the image of those before it is left. The work area has room for a line.
pub fn pack(kind: Kind, text: &[u8], image: &mut [u8], work: &mut [u8]) -> Result<usize, BadLine>
    requires { (limit_by (in_twos kind) ≤ length image.old) × (length text.now ≤ length work.old) }
    ensures { Packs (in_twos kind) (packed kind 1 [] (lines_of text.now)) image.old image.new result }
{
    image[0] = numbers::VERSION;
    let mut used: usize = 1;
    let mut at: usize = 0;
    let mut line: usize = 1;
    while at < text.len() {
        let end = at + tab_escape::find(&text[at..], NEWLINE);
        used = tab_enter::enter_line(kind, &text[at..end], image, used, work).map_err(
            |fault| BadLine { line, fault },
        )?;
        line += 1;
        at = end + 1;
    }
    Ok(used)
}
