// What is looked at before the first word is expanded: document 01's "Order: 1 to 6 as numbered; then the whole line is read", where document 02's 23 is
// "checked after 4"; then room for the empty fields image. Before assignments the same, but for paths and output, which they do not take.
#![tactic(auto)]

ghost use Rattle.std.specs.Prelude.{◌≡◌, [], length, Bool, true};
ghost use Rattle.stages.specs.Bytes.{Text};
ghost use Rattle.stages.specs.Images.{is_some, fields_of};
ghost use Rattle.call_check.specs.Calls.{given};
ghost use Rattle.call_check.specs.Checks.{room_in, LendSays, PlainSays, Checks, AssignChecks};

use table::Kind;
use text::numbers;
use text::refusal::{Refusal, Refused};

// The two jobs that take a line: one gives the fields' image, the other the fields as a quoted line.
#[derive(Clone, Copy)]
pub enum Job {
    Expander,
    Normaliser,
}

// What a call says beside its buffers: so many bytes of the variables' buffer are their image, and unset names shout or not.
#[derive(Clone, Copy)]
pub struct Asked {
    pub vars_used: usize,
    pub shouts: bool,
}

// The expander's output room: "longer than the output or 8,192"; "In the normaliser the expander's output room is 8,192."
pub fn room(job: Job, out: usize) -> usize
    ensures { result ≡ room_in job out }
{
    match job {
        Job::Normaliser => numbers::IMAGE_LIMIT,
        Job::Expander => out.min(numbers::IMAGE_LIMIT),
    }
}

// A refusal whose place is 0.
fn refuse(why: Refusal) -> Refused
    ensures { result ≡ record { why = why; place = 0 } }
{
    Refused { why, place: 0 }
}

// 1 to 3: what every job that takes a line is lent.
fn check_lent(vars: &[u8], vars_used: usize, homes: &[u8], work: &[u8]) -> Result<(), Refused>
    ensures { LendSays work.now vars.now vars_used homes.now result }
{
    if work.len() < numbers::WORK_LEAST {
        return Err(refuse(Refusal::WorkTooSmall));
    }
    if vars.len() < vars_used || !table::well_formed(Kind::Variables, &vars[..vars_used]) {
        return Err(refuse(Refusal::BadVariables));
    }
    if !table::well_formed(Kind::Homes, homes) {
        return Err(refuse(Refusal::BadHomes));
    }
    Ok(())
}

// 5 and 6: what no line may be.
fn check_bytes(line: &[u8]) -> Result<(), Refused>
    ensures { PlainSays line.now result }
{
    if numbers::LINE_LIMIT < line.len() {
        return Err(refuse(Refusal::LineTooLong));
    }
    if !text::no_zero(line) {
        return Err(refuse(Refusal::ZeroByte));
    }
    Ok(())
}

// All that is checked before the first word, in the documents' order; at last the empty fields image has its byte. Neither message nor switch is looked at:
// what holds here holds whatever they are.
pub fn check(
    job: Job,
    line: &[u8],
    vars: &[u8],
    vars_used: usize,
    homes: &[u8],
    params: &[u8],
    paths: &[u8],
    work: &[u8],
    out: &[u8],
) -> Result<(), Refused>
    ensures { (shouts : Bool) (message : Text) → Checks job
        (given line.now vars.now vars_used shouts homes.now params.now paths.now work.now
        out.now message) result }
{
    check_lent(vars, vars_used, homes, work)?;
    if !table::well_formed(Kind::Paths, paths) {
        return Err(refuse(Refusal::BadPaths));
    }
    if !table::well_formed(Kind::Fields, params) {
        return Err(refuse(Refusal::BadParameters));
    }
    check_bytes(line)?;
    read_line::read_line(line)?;
    if room(job, out.len()) == 0 {
        return Err(refuse(Refusal::OutputRoom));
    }
    Ok(())
}

// All that is checked before the first assignment, in the documents' order: "The job takes neither paths nor output: 4 and 21 do not arise".
pub fn check_assignments(
    line: &[u8],
    vars: &[u8],
    vars_used: usize,
    homes: &[u8],
    params: &[u8],
    work: &[u8],
) -> Result<(), Refused>
    ensures { (shouts : Bool) (message : Text) → AssignChecks
        (given line.now vars.now vars_used shouts homes.now params.now [] work.now [] message) result }
{
    check_lent(vars, vars_used, homes, work)?;
    let numbered = table::well_formed(Kind::Fields, params);
    if !numbered {
        return Err(refuse(Refusal::BadParameters));
    }
    check_bytes(line)?;
    read_line::read_assignments(line)
}
