// Runs one case of the insertion or the deletion of a path, as calls.rt does those of the other jobs.
use crate::laying::{Kept, PATHS_FILL, cut_to_bytes, cut_to_size, hold_image, hold_word, lay_word};
use crate::telling::Told;
use crate::words::{number, word};
use crate::{kinds, words};
use call_update::Updated;

// Holds the numbers that the job gave against the case's.
fn hold_numbers(told: Told, case: &[u8], answer: Updated) -> Told {
    let told = hold_word(
        told,
        b"number",
        answer.number as usize,
        case,
        words::UPDATE_NUMBER,
    );
    let told = hold_word(told, b"place", answer.place, case, words::UPDATE_PLACE);
    hold_word(
        told,
        b"used length",
        answer.used,
        case,
        words::UPDATE_USED_LENGTH,
    )
}

// Holds the paths against the case.
fn hold_paths(told: Told, case: &[u8], paths: &[u8]) -> Told {
    let kept = Kept {
        before: words::UPDATE_PATHS,
        used: words::UPDATE_USED,
        number: words::UPDATE_NUMBER,
        image: words::UPDATE_PATHS_BYTES,
        fill: PATHS_FILL,
    };
    hold_image(told, b"paths", b"kept paths", case, kept, paths)
}

// Calls the job.
fn call(case: &[u8], paths: &mut [u8], path: &[u8]) -> Updated {
    let used = number(word(case, words::UPDATE_USED));
    if kinds::is_insertion(case) {
        drunquill::insert_path(paths, used, path)
    } else {
        drunquill::delete_path(paths, used, path)
    }
}

// Fills the buffers, calls the job and holds what it gave against the case.
fn run_update(told: Told, case: &[u8], paths: &mut [u8], path: &mut [u8]) -> Told {
    lay_word(paths, case, words::UPDATE_PATHS, PATHS_FILL);
    lay_word(path, case, words::UPDATE_PATH, 0);
    let answer = call(case, paths, path);
    let told = hold_numbers(told, case, answer);
    hold_paths(told, case, paths)
}

// Cuts the areas to the sizes of a case, and runs it.
pub(crate) fn try_update(told: Told, case: &[u8], paths: &mut [u8], path: &mut [u8]) -> Told {
    let a = cut_to_size(case, words::UPDATE_BUFFER, paths);
    let b = cut_to_bytes(case, words::UPDATE_PATH, path);
    run_update(told, case, &mut paths[..a], &mut path[..b])
}
