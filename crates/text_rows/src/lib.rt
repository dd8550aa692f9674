#![tactic(auto)]
// The lines of a text, their fields, and the records that they tell.
ghost use Rattle.std.specs.Prelude.{◌≡◌};
ghost use Rattle.ground.specs.Rules.{number_of_rule};

use ground::GapRecord;
use ground::rules::Rule;

mod field;
pub mod lines;
pub mod rows;

// A label's record: its wanted place and its weight. Its number is the count of labels before it.
#[derive(Clone, Copy, Debug, PartialEq, Eq)]
pub struct LabelRow {
    pub wanted: i64,
    pub weight: i64,
}

// A record of the text: a label, or a gap of either kind, whose word is gap or same.
#[derive(Clone, Copy, Debug, PartialEq, Eq)]
pub enum Row {
    Label(LabelRow),
    Gap(GapRecord),
}

// No field of a line; fields count from 1. It is a number, since a listing prints it as one.
pub const NO_FIELD: usize = 0;

// What came before a line: so many labels.
#[derive(Clone, Copy, Debug, PartialEq, Eq)]
pub struct Earlier {
    pub labels: usize,
}

// A line that is no record: its refusal's number, as the definition of a reading has it, and the bad field.
#[derive(Clone, Copy, Debug, PartialEq, Eq)]
pub struct BadLine {
    pub number: usize,
    pub field: usize,
}

// What the record reader makes of a line.
pub type Taken = Result<Row, BadLine>;

impl BadLine {
    // A line that breaks a rule at a field.
    pub(crate) fn at(rule: Rule, field: usize) -> BadLine
        ensures { (result.number ≡ number_of_rule rule) × (result.field ≡ field) }
    {
        BadLine {
            number: rule.into(),
            field,
        }
    }
}
