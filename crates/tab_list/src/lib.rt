// Text to fields: each line is a field behind the one before it, or the first line that is none is told with its cause. Fields have no keys and no order of
// their own: what stands in a line twice is there twice, and an empty line is an empty field.
#![tactic(auto)]

ghost use Rattle.std.specs.Prelude.{◌≡◌, List, [], ◌≤◌, length, take};
ghost use Rattle.stages.specs.Numbers.{image_limit};
ghost use Rattle.stages.specs.Bytes.{Text};
ghost use Rattle.stages.specs.Images.{image};
ghost use Rattle.stages.specs.Program.{lines_of};
ghost use Rattle.tab_escape.specs.Escapes.{read_text};
ghost use Rattle.tab_list.specs.Listings.{lined, Adds, listed, Lists};

use tab_escape::Fault;
use tab_pack::BadLine;
use text::numbers;

const NEWLINE: u8 = b'\n';

// Writes the field of a line behind the image that the first `used` bytes are, if the buffer has room for it; if not, or if the line is no text, all bytes
// stay. The work area has room for the line. Answers the length of the new image.
fn add_line(line: &[u8], out: &mut [u8], used: usize, work: &mut [u8]) -> Result<usize, Fault>
    requires { (used ≤ length out.old) × (length out.old ≤ image_limit) × (length line.now ≤ length work.old) }
    ensures { (l : List Text) → take used out.old ≡ image l → Adds
        (lined (length out.old) (read_text line.now) l) out.old out.new result }
{
    let n = tab_escape::read_text(line, work)?;
    let m = table_store::put_record(&mut out[used..], &work[..n]).map_err(|_| Fault::TooLong)?;
    Ok(used + m)
}

// Packs the lines of a text into an image of fields at the front of a buffer, which is as long as the image may become, and answers its length. The bytes
// behind it stay. At a line that is no field the image of those before it is left. The work area has room for a line.
pub fn pack_fields(text: &[u8], out: &mut [u8], work: &mut [u8]) -> Result<usize, BadLine>
    requires { (1 ≤ length out.old) × (length out.old ≤ image_limit) × (length text.now ≤ length work.old) }
    ensures { Lists (listed (length out.old) 1 [] (lines_of text.now)) out.old out.new result }
{
    out[0] = numbers::VERSION;
    let mut used: usize = 1;
    let mut at: usize = 0;
    let mut line: usize = 1;
    while at < text.len() {
        let end = at + tab_escape::find(&text[at..], NEWLINE);
        used = add_line(&text[at..end], out, used, work).map_err(|fault| BadLine { line, fault })?;
        line += 1;
        at = end + 1;
    }
    Ok(used)
}
