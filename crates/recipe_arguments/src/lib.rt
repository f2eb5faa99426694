// The program's arguments: options first, then the positional parameters, which are packed, one behind the other, into the image that every line is lent.
// Which bytes an argument has the system says; what is made of them is fixed here.
#![tactic(auto)]

ghost use Rattle.std.specs.Prelude.{◌+◌, ◌≤◌, ◌≡◌, length};
ghost use Rattle.stages.specs.Numbers.{image_limit};
ghost use Rattle.recipe_arguments.specs.Options.{word_in};
ghost use Rattle.recipe_arguments.specs.Packs.{Appends, Hears, Grows, Gathers, GathersAll};

use std::env::Env;
use text::numbers;

// What an argument is.
#[derive(Clone, Copy)]
pub enum Word {
    // `--shout`: names that are unset shout.
    Shout,
    // `--`: what follows are parameters.
    End,
    // It begins with a hyphen, something follows, and there is no such option.
    Unknown,
    // A parameter.
    Parameter,
}

// What the arguments so far say: so many bytes of the image are the parameters among them, unset names shout or not, options may come or not, and whether
// there was none that is unknown.
#[derive(Clone, Copy)]
pub struct Heard {
    pub used: usize,
    pub shouts: bool,
    pub options: bool,
    pub known: bool,
}

// Puts an argument behind the first `used` bytes of an image, and answers its new length; the whole buffer's where it has no room, so that an image that is
// too long has a length which is refused. From there on no argument finds room.
pub fn append_argument(image: &mut [u8], used: usize, argument: &[u8]) -> usize
    requires { used ≤ length image.old }
    ensures { Appends argument.now «used» image.old image.new result }
{
    match table_store::put_record(&mut image[used..], argument) {
        Ok(n) => used + n,
        Err(_) => image.len(),
    }
}

// What an argument is: an option only where options may come.
pub fn word_of(options: bool, argument: &[u8]) -> Word
    ensures { result ≡ word_in options argument.now }
{
    if !options {
        return Word::Parameter;
    }
    if text::same(argument, b"--shout") {
        return Word::Shout;
    }
    if text::same(argument, b"--") {
        return Word::End;
    }
    if argument.len() < 2 {
        return Word::Parameter;
    }
    if argument[0] == b'-' {
        return Word::Unknown;
    }
    Word::Parameter
}

// What is heard with an argument more. The first parameter ends the options.
pub fn hear(image: &mut [u8], so_far: Heard, argument: &[u8]) -> Heard
    requires { so_far.used ≤ length image.old }
    ensures { Hears argument.now so_far image.old image.new result }
{
    match word_of(so_far.options, argument) {
        Word::Shout => Heard {
            shouts: true,
            options: true,
            ..so_far
        },
        Word::End => Heard {
            options: false,
            ..so_far
        },
        Word::Unknown => Heard {
            options: true,
            known: false,
            ..so_far
        },
        Word::Parameter => Heard {
            used: append_argument(image, so_far.used, argument),
            options: false,
            ..so_far
        },
    }
}

// Fetches an argument and hears it. One that is longer than its buffer is a parameter that has no room in an image either.
fn take_argument(
    rt: &HostRuntime,
    number: usize,
    buffer: &mut [u8],
    image: &mut [u8],
    so_far: Heard,
) -> Heard
    requires { (so_far.used ≤ length image.old) × (image_limit + 1 ≡ length image.old) }
    ensures { Grows image.old so_far image.new result }
{
    match rt.arg(number, buffer) {
        Ok(n) => hear(image, so_far, &buffer[..n]),
        Err(_) => Heard {
            used: image.len(),
            options: false,
            ..so_far
        },
    }
}

// Fetches the arguments of so many from a number on. The switch is "off by default".
fn gather_in(
    rt: &HostRuntime,
    first: usize,
    count: usize,
    buffer: &mut [u8],
    image: &mut [u8],
) -> Heard
    requires { image_limit + 1 ≡ length image.old }
    ensures { GathersAll first count image.new result }
{
    image[0] = numbers::VERSION;
    let mut so_far = Heard {
        used: 1,
        shouts: false,
        options: true,
        known: true,
    };
    for number in first..count {
        so_far = take_argument(rt, number, buffer, image, so_far);
    }
    so_far
}

// Hears the program's arguments from a number on, 0 being its own name, and packs the parameters among them: the length of their image, or that of the whole
// buffer if they are too long for one.
pub fn gather(rt: &HostRuntime, first: usize, image: &mut [u8]) -> Heard
    requires { image_limit + 1 ≡ length image.old }
    ensures { Gathers image.new result }
{
    let mut buffer = system::large_buffer();
    let count = system::arg_count(rt);
    gather_in(rt, first, count, &mut buffer, image)
}
