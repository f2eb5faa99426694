// Why a call is refused: document 01's table of numbers and those that document 02 adds to it, each under the name that the stages give it.
ghost use Rattle.std.specs.Prelude.{◌≡◌, ℕ};
ghost use Rattle.text.specs.Refusals.{refusal_number};

#[derive(Clone, Copy, PartialEq, Eq)]
pub enum Refusal {
    // "work area below 65,536 bytes"
    WorkTooSmall = 1,
    // "variables malformed, too long, or used length beyond the buffer"
    BadVariables = 2,
    // "homes malformed or too long"
    BadHomes = 3,
    // "paths malformed or too long"
    BadPaths = 4,
    // "line above 2,048 bytes"
    LineTooLong = 5,
    // "zero byte in the line"
    ZeroByte = 6,
    // "line ends inside a quote, brace or arithmetic, or after a backslash"
    Unended = 7,
    // "bare operator"
    BareOperator = 8,
    // "command substitution"
    Substitution = 9,
    // "parameter not served"
    Unserved = 10,
    // "other bad syntax"
    BadSyntax = 11,
    // "too deep"
    TooDeep = 12,
    // "`?` form on a missing value"
    Demanded = 13,
    // "above 2,048 units"
    TooManyUnits = 14,
    // "not a number"
    NotNumber = 15,
    // "arithmetic syntax"
    ArithmeticSyntax = 16,
    // "overflow"
    Overflow = 17,
    // "zero divisor"
    ZeroDivisor = 18,
    // "bracket class"
    BracketClass = 19,
    // "no room for a variable"
    VariableRoom = 20,
    // "no room for output"
    OutputRoom = 21,
    // "fields image malformed or too long"
    BadFields = 22,
    // "A malformed or too long list" of positional parameters
    BadParameters = 23,
    // "A path already there, or one not there to delete"
    BadPath = 24,
    // an unset parameter that is looked up, the switch being on
    UnsetName = 25,
}

impl Refusal {
    // The number that a call answers by.
    pub fn number(self) -> u8
        ensures { result ≡ refusal_number self }
    {
        self as u8
    }
}

// What says why a call is refused: a refusal, or a number alone, which need not be one's.
pub trait Reason: Copy {
    ghost number_of: { Self → ℕ };

    // The number that a call answers by.
    fn as_number(self) -> u8
        ensures { result ≡ number_of self };

    // The same as this refusal.
    fn of(why: Refusal) -> Self
        ensures { number_of result ≡ refusal_number why };
}

impl Reason for Refusal {
    ghost number_of = { refusal_number };

    fn as_number(self) -> u8 {
        self.number()
    }

    fn of(why: Refusal) -> Refusal {
        why
    }
}

impl Reason for u8 {
    ghost number_of = { λ n. n };

    fn as_number(self) -> u8 {
        self
    }

    fn of(why: Refusal) -> u8 {
        why.number()
    }
}

// A refusal, and the place that is reported with it.
#[derive(Clone, Copy, PartialEq, Eq)]
pub struct Refused {
    pub why: Refusal,
    pub place: usize,
}
