// A table's file of the current folder, read into a lent buffer. "(absent: no records)"; a file that is there and cannot be read is an error. What the
// system gives is fetched first, and what it stands for is settled then, by what was fetched alone.
#![tactic(auto)]

ghost use Rattle.std.specs.Prelude.{◌≡◌, ◌≤◌, length, take, replicate, IfOk};
ghost use Rattle.std.proofs.Math.Option.{none};
ghost use Rattle.std.specs.IoError.{raw_os_error};
ghost use Rattle.stages.specs.Call.{over};
ghost use Rattle.stages.specs.Program.{table_or};
ghost use Rattle.text.specs.Putting.{Puts};
ghost use Rattle.recipe_load.specs.Loads.{Fetches, Ends, unopened_by, Settles, Loads};

use std::fs::File;
use std::io;
use std::io::Read;
use text::numbers;

// C's number of the error that there is no such file.
const NO_SUCH_FILE: i32 = 2;

// A file cannot be read, and standard error says why.
#[derive(Clone, Copy, PartialEq, Eq)]
pub struct Unread;

// A read that gave no byte was the end of a file of so many bytes, or has failed.
fn end_of_file(
    rt: &HostRuntime,
    got: io::Result<usize>,
    name: &[u8],
    done: usize,
) -> Result<usize, Unread>
    ensures { Ends got done result }
{
    if let Err(error) = got {
        system::fail(rt, name, error);
        return Err(Unread);
    }
    Ok(done)
}

// Reads a file to its end, or until the buffer is full, and answers how many of its bytes stand there.
fn read_file(
    rt: &HostRuntime,
    file: &mut File,
    name: &[u8],
    buffer: &mut [u8],
) -> Result<usize, Unread>
    ensures { IfOk result (λ n. n ≤ length buffer.old) }
{
    let mut done = 0;
    while done < buffer.len() {
        let got = file.read(&mut buffer[done..]);
        let n = got.unwrap_or(0);
        if n == 0 {
            return end_of_file(rt, got, name, done);
        }
        done += n;
    }
    Ok(done)
}

// A file that cannot be opened is absent, or cannot be read.
fn unopened(rt: &HostRuntime, error: io::Error, name: &[u8]) -> Result<Option<usize>, Unread>
    ensures { result ≡ unopened_by (raw_os_error error) }
{
    if let Some(NO_SUCH_FILE) = error.raw_os_error() {
        return Ok(None);
    }
    system::fail(rt, name, error);
    Err(Unread)
}

// Fetches the file of that name, and answers how many of its bytes stand in the buffer, all or as many as it takes; `None` where there is no such file. A path
// of std is text: a name that is none cannot be read.
fn fetch(rt: &HostRuntime, name: &[u8], buffer: &mut [u8]) -> Result<Option<usize>, Unread>
    ensures { Fetches (length buffer.old) result }
{
    let Ok(path) = str::from_utf8(name) else {
        return unopened(rt, io::Error::from(io::ErrorKind::InvalidFilename), name);
    };
    match File::open(rt, path) {
        Ok(mut file) => read_file(rt, &mut file, name, buffer).map(Some),
        Err(error) => unopened(rt, error, name),
    }
}

// Writes the table without records, and zeros behind it.
fn put_no_records(buffer: &mut [u8]) -> usize
    requires { 1 ≤ length buffer.old }
    ensures { Puts (table_or none) (replicate (length buffer.old) 0) buffer.new result }
{
    text_copy::fill_zero(buffer);
    buffer[0] = numbers::VERSION;
    1
}

// Puts zeros behind the table of n bytes that was fetched.
fn clear_behind(buffer: &mut [u8], n: usize)
    requires { n ≤ length buffer.old }
    ensures { buffer.new ≡ over (take n buffer.old) (replicate (length buffer.old) 0) }
{
    text_copy::fill_zero(&mut buffer[n..]);
}

// The table that was fetched: its length, or that it cannot be read. An absent one has no records; zeros stand behind a table.
fn settle(fetched: Result<Option<usize>, Unread>, buffer: &mut [u8]) -> Result<usize, Unread>
    requires { (1 ≤ length buffer.old) × Fetches (length buffer.old) fetched }
    ensures { Settles fetched buffer.old buffer.new result }
{
    match fetched? {
        Some(n) => {
            clear_behind(buffer, n);
            Ok(n)
        }
        None => Ok(put_no_records(buffer)),
    }
}

// Reads the table of that name, and answers how many of its bytes stand in the buffer, all or as many as it takes. Behind them are zeros.
pub fn load(rt: &HostRuntime, name: &[u8], buffer: &mut [u8]) -> Result<usize, Unread>
    requires { 1 ≤ length buffer.old }
    ensures { Loads (length buffer.old) buffer.new result }
{
    let fetched = fetch(rt, name, buffer);
    settle(fetched, buffer)
}
