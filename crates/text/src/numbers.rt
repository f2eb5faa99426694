// The limits of documents 01 and 02, each under one name: what a call's texts, rows and images may come to; and the number of an acceptance. Those of the
// refusals are refusal.rt's.

// "accepted, place 0"
pub const ACCEPTED: u8 = 0;

// "work area below 65,536 bytes"
pub const WORK_LEAST: usize = 65536;

// "one version byte, 1"
pub const VERSION: u8 = 1;

// "A text is a 2-byte big-endian length, then its bytes"
pub const TEXT_LIMIT: usize = 65535;

// "An image has at most 8,192 bytes"
pub const IMAGE_LIMIT: usize = 8192;

// "that of paths 32,768"
pub const PATHS_LIMIT: usize = 32768;

// "line above 2,048 bytes", and a quoted line likewise
pub const LINE_LIMIT: usize = 2048;

// "A row for a word, an operand or an arithmetic text holds at most 2,048 units"
pub const ROW_LIMIT: usize = 2048;

// "At most 8 expansions are open at once"
pub const DEPTH_LIMIT: usize = 8;

// "More than 32 open parentheses and unary signs, together, is 12."
pub const OPEN_LIMIT: usize = 32;

// "more than 64 elements or 256 text bytes is 14"
pub const ELEMENTS_LIMIT: usize = 64;

pub const COMPARED_LIMIT: usize = 256;

// The most bytes of a number's decimal text: those of -9223372036854775808 and of 18446744073709551615.
pub const MOST_DIGITS: usize = 20;

// What is kept of a line of standard input: one byte above the limit shows that it is too long.
pub const LINE_KEPT: usize = LINE_LIMIT + 1;

// What is kept of a table's file: one byte above the limit shows that it is too long.
pub const IMAGE_KEPT: usize = IMAGE_LIMIT + 1;

// The same for paths.
pub const PATHS_KEPT: usize = PATHS_LIMIT + 1;

// The lines of the longest image that is looked at: a byte takes at most four to show.
pub const SHOWN_ROOM: usize = 4 * PATHS_KEPT;

// The most bytes of the program's answer to a line: the longest quoted line, and `no `, two numbers, a blank and a newline, of which `ok ` and a newline
// are the fewer.
pub const SAID_ROOM: usize = LINE_LIMIT + 2 * MOST_DIGITS + 5;
