// Assignment lines of a text applied to the variables one by one: each sees what those before it left. The first line that is refused ends it and is told by
// its number in the text and by the job's own answer. A text without a line is taken for one empty line, which assigns nothing, so that the tables are looked
// at in any case.
#![tactic(auto)]

ghost use Rattle.tab_assign.specs.Assignings.{buffers, lines_taken, assigning, Assigns};

use call_check::Asked;
use text::numbers;

const NEWLINE: u8 = b'\n';

// The first line that is refused, counted from 1; its number, its place, and how many bytes of the message stand in the buffer.
#[derive(Clone, Copy)]
pub struct RefusedLine {
    pub line: usize,
    pub number: u8,
    pub place: usize,
    pub message_len: usize,
}

// Applies the lines of a text. The variables are an image in the first `vars_used` bytes of their buffer. At a line that is refused they are those after the
// lines before it. Work area and message are as the job leaves them. Answers the used length after all lines.
pub fn assign_lines(
    text: &[u8],
    vars: &mut [u8],
    asked: Asked,
    homes: &[u8],
    params: &[u8],
    work: &mut [u8],
    message: &mut [u8],
) -> Result<usize, RefusedLine>
    ensures { Assigns
        (assigning homes.now params.now asked.shouts 1
        (buffers vars.old asked.vars_used work.old message.old)
        (lines_taken text.now)) vars.new work.new message.new result }
{
    let mut used = asked.vars_used;
    let mut at: usize = 0;
    let mut line: usize = 1;
    loop {
        let end = at + tab_escape::find(&text[at..], NEWLINE);
        let now = Asked {
            vars_used: used,
            shouts: asked.shouts,
        };
        let answer = drunquill::assign(&text[at..end], vars, now, homes, params, work, message);
        if answer.number != numbers::ACCEPTED {
            return Err(RefusedLine {
                line,
                number: answer.number,
                place: answer.place,
                message_len: answer.message_len,
            });
        }
        used = answer.vars_used;
        if text.len() <= end + 1 {
            return Ok(used);
        }
        at = end + 1;
        line += 1;
    }
}
