// Which job a case asks for, if it is a case at all.
use crate::words;

// What a case asks for, if it is one.
#[derive(Clone, Copy)]
pub enum Job {
    // The expander's, or the normaliser's.
    Line,
    Assigner,
    Quoter,
    // The insertion's of a path, or the deletion's.
    Update,
    Coster,
}

// Has the case an image where it is accepted, as long as told, and none where it is refused? Its number, the image's length and its bytes stand at these
// places.
fn has_image(case: &[u8], number: usize, length: usize, bytes: usize) -> bool {
    if words::number(words::word(case, number)) == 0 {
        words::agrees(case, length, bytes)
    } else {
        words::byte_count(words::word(case, bytes)) == 0
    }
}

// Is the case one of the expander or the normaliser: words of the right kinds, variables that their buffer holds, bytes as many as told? On a refusal
// there are none of the output or of variables.
fn is_line_case(case: &[u8]) -> bool {
    words::has_shape(case, b"jhhdshhsshsb=dddhdhdh")
        && words::fits(case, words::VARS, words::VARS_BUFFER)
        && words::agrees(case, words::OUT_LENGTH, words::OUT_BYTES)
        && words::agrees(case, words::MESSAGE_LENGTH, words::MESSAGE_BYTES)
        && has_image(case, words::NUMBER, words::USED_LENGTH, words::VARS_BYTES)
}

// Is the case one of the normaliser, by its job?
pub(crate) fn is_normaliser(case: &[u8]) -> bool {
    matches!(words::word(case, words::JOB), b"normalise")
}

// Is the case one of the assigner: words of the right kinds, variables that their buffer holds, bytes as many as told? On a refusal there are none of
// variables.
fn is_assign_case(case: &[u8]) -> bool {
    words::has_shape(case, b"jhhdshshsb=dddhdh")
        && words::fits(case, words::VARS, words::VARS_BUFFER)
        && words::agrees(
            case,
            words::ASSIGN_MESSAGE_LENGTH,
            words::ASSIGN_MESSAGE_BYTES,
        )
        && has_image(
            case,
            words::ASSIGN_NUMBER,
            words::ASSIGN_USED_LENGTH,
            words::ASSIGN_VARS_BYTES,
        )
}

// Is the case one of the quoter?
fn is_quote_case(case: &[u8]) -> bool {
    words::has_shape(case, b"jhs=dddh")
        && words::agrees(case, words::QUOTE_LENGTH, words::QUOTE_BYTES)
}

// Is the case one of the insertion of a path, by its job?
pub(crate) fn is_insertion(case: &[u8]) -> bool {
    matches!(words::word(case, words::JOB), b"insert")
}

// Is the case one of the insertion or the deletion of a path: words of the right kinds, paths that their buffer holds, bytes as many as told? On a refusal
// there are none.
fn is_update_case(case: &[u8]) -> bool {
    words::has_shape(case, b"jhdsh=dddh")
        && words::fits(case, words::UPDATE_PATHS, words::UPDATE_BUFFER)
        && has_image(
            case,
            words::UPDATE_NUMBER,
            words::UPDATE_USED_LENGTH,
            words::UPDATE_PATHS_BYTES,
        )
}

// Is the case one of the coster?
fn is_cost_case(case: &[u8]) -> bool {
    words::has_shape(case, b"jhhs=ddd")
}

// The job that a case names.
fn named(case: &[u8]) -> Option<Job> {
    match words::word(case, words::JOB) {
        b"expand" | b"normalise" => Some(Job::Line),
        b"assign" => Some(Job::Assigner),
        b"quote" => Some(Job::Quoter),
        b"insert" | b"delete" => Some(Job::Update),
        b"cost" => Some(Job::Coster),
        _ => None,
    }
}

// Is the case one of the job?
fn is_case_of(job: Job, case: &[u8]) -> bool {
    match job {
        Job::Line => is_line_case(case),
        Job::Assigner => is_assign_case(case),
        Job::Quoter => is_quote_case(case),
        Job::Update => is_update_case(case),
        Job::Coster => is_cost_case(case),
    }
}

// The job of a case that is sound and that there is room for.
pub(crate) fn job_of(case: &[u8]) -> Option<Job> {
    named(case).filter(|job| is_case_of(*job, case))
}
