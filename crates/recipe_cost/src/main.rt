// The office's command: `recipe_cost TEXT PATTERN...` writes a line for each pattern, the number of pairs that it costs with the text, a blank and the pattern.
// A pattern that is not served is told on standard error, and the others are reported. What is counted is the library's; `./cost` puts the dearest first.
#![tactic(auto)]

use call_cost::Costed;
use text::numbers;

// Room for the longest argument that the system hands over.
fn argument_room() -> [u8; numbers::SHOWN_ROOM] {
    [0; numbers::SHOWN_ROOM]
}

fn say(rt: &HostRuntime, text: &[u8]) {
    system::tell(rt, text);
}

// Writes bytes to standard output; that they could not be written is told.
fn write(rt: &HostRuntime, text: &[u8]) {
    if let Err(error) = system::write_out(rt, text) {
        system::fail(rt, b"standard output", error);
    }
}

// What a pattern costs.
fn write_cost(rt: &HostRuntime, pairs: usize, pattern: &[u8]) {
    let _ = system::write_decimal(rt, pairs as u64);
    write(rt, b" ");
    write(rt, pattern);
    write(rt, b"\n");
}

// Why a pattern is not reported.
fn say_refused(rt: &HostRuntime, number: u8, pattern: &[u8]) {
    say(rt, b"cost: ");
    say(rt, pattern);
    say(rt, b": refused with ");
    system::tell_decimal(rt, number as u64);
    say(rt, b"\n");
}

// Reports one pattern.
fn report(rt: &HostRuntime, pattern: &[u8], text: &[u8], work: &mut [u8]) {
    let costed: Costed = drunquill::cost(pattern, text, work);
    if costed.number == numbers::ACCEPTED {
        write_cost(rt, costed.pairs, pattern);
    } else {
        say_refused(rt, costed.number, pattern);
    }
}

// Reports the pattern that an argument is.
fn report_argument(
    rt: &HostRuntime,
    number: usize,
    text: &[u8],
    pattern: &mut [u8],
    work: &mut [u8],
) {
    let n = system::arg(rt, number, pattern).unwrap_or(0);
    report(rt, &pattern[..n], text, work);
}

// Reports every pattern, in the order of the arguments.
fn report_all(rt: &HostRuntime, count: usize, text: &[u8], pattern: &mut [u8], work: &mut [u8]) {
    for number in 2..count {
        report_argument(rt, number, text, pattern, work);
    }
}

fn main(rt: HostRuntime) {
    let rt = &rt;
    let count = system::arg_count(rt);
    if count < 3 {
        say(rt, b"usage: cost TEXT PATTERN...\n");
        return;
    }
    let mut text = argument_room();
    let n = system::arg(rt, 1, &mut text).unwrap_or(0);
    let mut pattern = argument_room();
    let mut work = system::large_buffer();
    report_all(rt, count, &text[..n], &mut pattern, &mut work);
}
