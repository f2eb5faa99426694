// What expanding a text is given and answers, beside the lent bytes.
ghost use Rattle.std.specs.Prelude.{◌≡◌};
ghost use Rattle.expand_add.specs.Expanded.{row_on};
ghost use Rattle.expand_add.specs.declared.answers.Stop.TheVariants.{Refused};

use text::refusal::Refusal;

// The variables in their buffer: the first `vars_used` bytes are their image, which may grow to `vars_room`. An unset one that is looked up is refused if
// `shouts` says so.
#[derive(Clone, Copy)]
pub struct Extent {
    pub vars_used: usize,
    pub vars_room: usize,
    pub shouts: bool,
}

// How a text goes on after what was added: at `next`, with so many bytes of the variables' image, and whether `$@` of no parameters came in it.
#[derive(Clone, Copy)]
pub struct Onward {
    pub next: usize,
    pub vars_used: usize,
    pub of_none: bool,
}

impl Onward {
    // The row of so many units that was added, behind which the text goes on so.
    pub fn row(self, units: usize) -> Row
        ensures { result ≡ row_on self units }
    {
        Row {
            units,
            next: self.next,
            vars_used: self.vars_used,
            of_none: self.of_none,
        }
    }
}

// A row that was expanded: it has so many units and stands at the front of the area, the text goes on at `next`, the variables' image has `vars_used` bytes,
// and `of_none` says whether `$@` of no parameters came in it.
#[derive(Clone, Copy)]
pub struct Row {
    pub units: usize,
    pub next: usize,
    pub vars_used: usize,
    pub of_none: bool,
}

// Why expanding stopped: a refusal, or a missing value was demanded, whose message is the area's `len` bytes from `at` on.
#[derive(Clone, Copy)]
pub enum Stop {
    Refused(Refusal),
    Demanded { at: usize, len: usize },
}

impl From<Refusal> for Stop {
    ghost from_gives = { λ why stop. stop ≡ Refused why };

    fn from(why: Refusal) -> Stop {
        Stop::Refused(why)
    }
}

// Why a whole line stopped, and the place that is reported with it.
#[derive(Clone, Copy)]
pub struct LineStop {
    pub stop: Stop,
    pub place: usize,
}
