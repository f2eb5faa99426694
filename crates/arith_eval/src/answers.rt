// What is known where a part of the text begins, and what is answered of it.

// How many parentheses and signs may still open, whether the part counts, how many bytes the image of variables has, how many it may have, and whether an
// unset name is refused where it is read.
#[derive(Clone, Copy)]
pub struct Scope {
    pub room: usize,
    pub counts: bool,
    pub vars_used: usize,
    pub vars_room: usize,
    pub shouts: bool,
}

// A value, the place behind its text, and how many bytes the image of variables has then.
#[derive(Clone, Copy)]
pub struct Climbed {
    pub value: i64,
    pub next: usize,
    pub vars_used: usize,
}

// Where it goes on behind a value that counts: the end, or one of the sides of a `?`.
#[derive(Clone, Copy)]
pub enum Step {
    Last(usize),
    Middle(usize),
    Behind(usize),
}
