// What the programs ask of the system, over std: arguments, standard input and output, and what is told on standard error.
#![tactic(auto)]

ghost use Rattle.std.specs.Prelude.{◌≡◌, ◌≤◌, length, IfSome};
ghost use Rattle.system.specs.Counts.{IsPrefixLen};

use std::env::{Env, FillError};
use std::fmt::InlineText;
use std::io;
use std::io::{Eprint, Print, Read};

// 4,096 zeros.
pub fn buffer() -> [u8; 4096]
    ensures { 4096 ≡ length result }
{
    [0; 4096]
}

// 65,536 zeros.
pub fn large_buffer() -> [u8; 65536]
    ensures { 65536 ≡ length result }
{
    [0; 65536]
}

// Puts an argument, 0 being the program's own name, at the front of a buffer, and answers its length; `None` where there is none, or it is longer than the
// buffer.
pub fn arg(rt: &HostRuntime, number: usize, buffer: &mut [u8]) -> Option<usize>
    ensures { IfSome result (λ n. IsPrefixLen n buffer.new) }
{
    rt.arg(number, buffer).ok()
}

// Is there an argument of that number?
fn has_arg(rt: &HostRuntime, number: usize) -> bool {
    let mut one = [0u8; 16];
    !matches!(rt.arg(number, &mut one), Err(FillError::NotPresent))
}

// How many arguments there are, the program's own name with them.
pub fn arg_count(rt: &HostRuntime) -> usize {
    for n in 0..usize::MAX {
        if !has_arg(rt, n) {
            return n;
        }
    }
    usize::MAX
}

// Reads until the buffer is full, the input ends or a read fails, and answers how many bytes stand at the buffer's front.
pub fn read_full<R: Read>(input: &mut R, buffer: &mut [u8]) -> usize
    ensures { IsPrefixLen result buffer.new }
{
    let mut done = 0;
    while done < buffer.len() {
        let got = input.read(&mut buffer[done..]);
        let n = got.unwrap_or(0);
        if n == 0 {
            break;
        }
        done += n;
    }
    done
}

// Writes all bytes to standard output.
pub fn write_out(rt: &HostRuntime, bytes: &[u8]) -> io::Result<()> {
    rt.stdout().write_all(bytes)
}

// Tells bytes on standard error. That they cannot be written there ends nothing, and cannot be told.
pub fn tell(rt: &HostRuntime, bytes: &[u8]) {
    let _ = rt.stderr().write_all(bytes);
}

// std writes ` (os error 2)` behind the words of the C library: they end before it.
fn without_number(shown: &str) -> &str {
    match shown.rsplit_once(" (") {
        Some((words, _)) => words,
        None => shown,
    }
}

// Tells the words of an error.
fn tell_words(rt: &HostRuntime, error: io::Error) {
    let is_systems = error.raw_os_error().is_some();
    let shown = InlineText::<256>::of(error);
    let all = shown.as_str();
    let words = if is_systems { without_number(all) } else { all };
    tell(rt, words.as_bytes());
}

// Tells what failed, as the caller names it, and why.
pub fn fail(rt: &HostRuntime, what: &[u8], error: io::Error) {
    tell(rt, what);
    tell(rt, b": ");
    tell_words(rt, error);
    tell(rt, b"\n");
}

// Writes a number in decimal to standard output.
pub fn write_decimal(rt: &HostRuntime, n: u64) -> io::Result<()> {
    print!(rt; "{n}")
}

// Tells a number in decimal on standard error.
pub fn tell_decimal(rt: &HostRuntime, n: u64) {
    let _ = eprint!(rt; "{n}");
}
