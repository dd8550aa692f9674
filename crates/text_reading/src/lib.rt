#![tactic(auto)]
// A text of the words label, gap and same, read into lent lists.
ghost use Rattle.std.specs.Prelude.{◌≡◌};
ghost use Rattle.ground.specs.Rules.{number_of_rule};
ghost use Rattle.text_rows.specs.Taking.{no_field};
ghost use Rattle.text_reading.specs.Readings.{unread};

use ground::Refusal;
use ground::rules::Rule;
use text_rows::{BadLine, NO_FIELD};

pub mod problem;
pub mod read;
mod store;
mod work;

// Bytes of a text, at most.
pub const TEXT_MOST: usize = 16384;

// How many labels and gaps a text has.
#[derive(Clone, Copy, Debug, PartialEq, Eq)]
pub struct Counts {
    pub labels: usize,
    pub gaps: usize,
}

// A text that is refused: its refusal, and the bad field of its line, or NO_FIELD.
#[derive(Clone, Copy, Debug, PartialEq, Eq)]
pub struct Unread {
    pub refusal: Refusal,
    pub field: usize,
}

// The answer of the reader: a sheet of so many labels and gaps, or the text is refused.
pub type Reading = Result<Counts, Unread>;

impl Unread {
    // A text that breaks a rule as a whole.
    pub(crate) fn whole(rule: Rule) -> Unread
        ensures { result ≡ unread (number_of_rule rule) 0 no_field }
    {
        Unread {
            refusal: Refusal::at(rule, 0),
            field: NO_FIELD,
        }
    }

    // A text with a bad line; with a text there is no ring.
    pub(crate) fn of_line(bad: BadLine, line: usize) -> Unread
        ensures { result ≡ unread bad.number line bad.field }
    {
        Unread {
            refusal: Refusal {
                number: bad.number,
                place: line,
                ring: 0,
            },
            field: bad.field,
        }
    }
}
