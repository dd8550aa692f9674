// The rules of the refusal table, and the refusals of those who break them.
ghost use Rattle.std.specs.Prelude.{◌≡◌};
ghost use Rattle.ground.specs.Rules.{number_of_rule};
ghost use Rattle.ground.specs.Answers.{refused_at};

use crate::Refusal;

// A rule of a sheet or of its text.
#[derive(Clone, Copy, Debug, PartialEq, Eq)]
pub enum Rule {
    Labels,
    Gaps,
    Lengths,
    Room,
    Wanted,
    Weight,
    Ends,
    Distance,
    Ring,
    Fields,
    Text,
    Place,
    Word,
    Number,
    Turn,
    Kind,
}

// The number that a station is told.
impl From<Rule> for usize {
    ghost from_gives = { λ rule number. number ≡ number_of_rule rule };

    fn from(rule: Rule) -> usize {
        match rule {
            Rule::Labels => 1,
            Rule::Gaps => 2,
            Rule::Lengths => 3,
            Rule::Room => 4,
            Rule::Wanted => 5,
            Rule::Weight => 6,
            Rule::Ends => 7,
            Rule::Distance => 8,
            Rule::Ring => 9,
            Rule::Fields => 10,
            Rule::Text => 11,
            Rule::Place => 12,
            Rule::Word => 13,
            Rule::Number => 14,
            Rule::Turn => 15,
            Rule::Kind => 23,
        }
    }
}

impl Refusal {
    // A refusal by a rule at a place; no ring is told.
    pub fn at(rule: Rule, place: usize) -> Refusal
        ensures { result ≡ refused_at (number_of_rule rule) place }
    {
        Refusal {
            number: rule.into(),
            place,
            ring: 0,
        }
    }
}
