// What a call gave is held against what the case says, and each difference is told, all those of a case on one line.
ghost use Rattle.std.specs.Prelude.{◌≡◌, true, ◌≢◌, ◌<◌, length, IfSome};

use crate::words::byte_at;

// The line of a case, and whether a difference was told of it; and what it is told by.
#[derive(Clone, Copy)]
pub struct Told {
    pub rt: HostRuntime,
    pub line: u64,
    pub any: bool,
}

fn say(rt: &HostRuntime, text: &[u8]) {
    let _ = system::write_out(rt, text);
}

fn say_number(rt: &HostRuntime, n: usize) {
    let _ = system::write_decimal(rt, n as u64);
}

fn say_byte(rt: &HostRuntime, b: u8) {
    say_number(rt, b as usize);
}

// Opens what is told of a difference, and names its subject.
fn open_with(told: Told, what: &[u8]) {
    if told.any {
        say(&told.rt, b"; ");
    } else {
        say(&told.rt, b"line ");
        let _ = system::write_decimal(&told.rt, told.line);
        say(&told.rt, b": ");
    }
    say(&told.rt, what);
}

// Ends the line of a case of which a difference was told.
pub(crate) fn end_line(told: Told) {
    if told.any {
        say(&told.rt, b"\n");
    }
}

// Tells what is wrong with a case that cannot be run.
pub(crate) fn tell(told: Told, what: &[u8]) -> Told
    ensures { (result.line ≡ told.line) × (result.any ≡ true) }
{
    open_with(told, what);
    Told { any: true, ..told }
}

// Tells that a number is not the case's.
pub(crate) fn hold_number(told: Told, what: &[u8], given: usize, wanted: usize) -> Told
    ensures { (result.line ≡ told.line) × (given ≡ wanted → result.any ≡ told.any) × ((given ≢ wanted) → result.any ≡ true) }
{
    if given == wanted {
        return told;
    }
    open_with(told, what);
    say(&told.rt, b" ");
    say_number(&told.rt, given);
    say(&told.rt, b", not ");
    say_number(&told.rt, wanted);
    Told { any: true, ..told }
}

// The byte wanted at a place: those of `after` come first, behind them those of `before`, behind both the fill.
fn wanted_at(after: &[u8], before: &[u8], fill: u8, i: usize) -> u8 {
    byte_at(after, i, byte_at(before, i, fill))
}

// The place of the first byte that is not the wanted one.
fn first_difference(area: &[u8], after: &[u8], before: &[u8], fill: u8) -> Option<usize>
    ensures { IfSome result (λ at. at < length area.now) }
{
    (0..area.len()).find(|i| area[*i] != wanted_at(after, before, fill, *i))
}

// Tells the first byte of an area that is not the wanted one.
pub(crate) fn hold_bytes(
    told: Told,
    what: &[u8],
    area: &[u8],
    after: &[u8],
    before: &[u8],
    fill: u8,
) -> Told {
    let Some(at) = first_difference(area, after, before, fill) else {
        return told;
    };
    open_with(told, what);
    say(&told.rt, b" byte ");
    say_number(&told.rt, at);
    say(&told.rt, b" is ");
    say_byte(&told.rt, area[at]);
    say(&told.rt, b", not ");
    say_byte(&told.rt, wanted_at(after, before, fill, at));
    Told { any: true, ..told }
}

// Says how many cases were run and how many of them differ.
pub(crate) fn say_sum(rt: &HostRuntime, cases: u64, differ: u64) {
    let _ = system::write_decimal(rt, cases);
    say(rt, b" cases, ");
    let _ = system::write_decimal(rt, differ);
    say(rt, b" differ\n");
}
