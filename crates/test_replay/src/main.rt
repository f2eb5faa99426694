// Runs the cases of standard input, or of the file that its first argument names, through Drunquill's seven jobs: a case to a line, as
// tests/vectors/README.md has them. Tells each case that differs, and at the end how many were run and how many differ.
#![tactic(auto)]

mod assigns;
mod blocks;
mod calls;
mod costs;
mod kinds;
mod laying;
mod telling;
mod updates;
mod words;

ghost use Rattle.std.specs.Prelude.{◌≡◌, length};

use kinds::Job;
use std::fs::File;
use std::io::Read;
use std::{io, str};
use telling::Told;
use words::ROOM;

// How long a case may be, its newline included.
const LONGEST: usize = 262144;

// Room for a line, a table or another buffer of a call.
fn area() -> [u8; ROOM]
    ensures { 131072 ≡ length result }
{
    [0; ROOM]
}

// Room for the cases that are read at once.
fn block() -> [u8; LONGEST]
    ensures { 262144 ≡ length result }
{
    [0; LONGEST]
}

// Runs a case, and tells in what it differs.
fn try_case(
    told: Told,
    case: &[u8],
    line: &mut [u8],
    vars: &mut [u8],
    homes: &mut [u8],
    params: &mut [u8],
    paths: &mut [u8],
    work: &mut [u8],
    out: &mut [u8],
    message: &mut [u8],
) -> Told {
    let Some(job) = kinds::job_of(case) else {
        return telling::tell(told, b"not a case, or too large for its buffers here");
    };
    match job {
        Job::Line => calls::try_line(
            told, case, line, vars, homes, params, paths, work, out, message,
        ),
        Job::Assigner => {
            assigns::try_assign(told, case, line, vars, homes, params, work, message)
        }
        Job::Quoter => calls::try_quote(told, case, line, out),
        Job::Update => updates::try_update(told, case, paths, line),
        Job::Coster => costs::try_cost(told, case, line, paths, work),
    }
}

// Runs a case in room of its own.
fn try_in_areas(told: Told, case: &[u8]) -> Told {
    let mut line = area();
    let mut vars = area();
    let mut homes = area();
    let mut params = area();
    let mut paths = area();
    let mut work = area();
    let mut out = area();
    let mut message = area();
    try_case(
        told,
        case,
        &mut line,
        &mut vars,
        &mut homes,
        &mut params,
        &mut paths,
        &mut work,
        &mut out,
        &mut message,
    )
}

// Runs the case of a line, ends what is told of it, and answers whether it differs.
fn differs(rt: &HostRuntime, number: u64, case: &[u8]) -> bool {
    let begun = Told {
        rt: *rt,
        line: number,
        any: false,
    };
    let told = try_in_areas(begun, case);
    telling::end_line(told);
    told.any
}

// Runs each case that is read. A proved loop has to end, so it counts its cases up to a number that no run reaches. A line longer than the block is
// taken in pieces, which are no cases and are told.
fn run_cases<R: Read>(rt: &HostRuntime, input: &mut R, block: &mut [u8]) {
    let mut differ: u64 = 0;
    let mut have = blocks::read_behind(input, block, 0);
    for cases in 0..u64::MAX {
        if have == 0 {
            telling::say_sum(rt, cases, differ);
            return;
        }
        let end = blocks::line_end(block, have);
        if differs(rt, cases + 1, &block[..end]) {
            differ += 1;
        }
        let left = blocks::drop_line(block, have, end);
        have = blocks::read_behind(input, block, left);
    }
}

// Lends the block to a run.
fn run<R: Read>(rt: &HostRuntime, input: &mut R) {
    let mut held = block();
    run_cases(rt, input, &mut held);
}

// Runs the cases of the file of that name. A name that is no text names no file here.
fn run_file(rt: &HostRuntime, path: &[u8]) {
    let Ok(name) = str::from_utf8(path) else {
        system::fail(rt, path, io::Error::from(io::ErrorKind::InvalidFilename));
        return;
    };
    match File::open(rt, name) {
        Ok(mut file) => run(rt, &mut file),
        Err(error) => system::fail(rt, path, error),
    }
}

fn main(rt: HostRuntime) {
    if system::arg_count(&rt) < 2 {
        run(&rt, &mut rt.stdin());
        return;
    }
    let mut path = system::buffer();
    let length = system::arg(&rt, 1, &mut path).unwrap_or(0);
    run_file(&rt, &path[..length]);
}
