#![tactic(auto)]
// One advance of an outer step: the blocks at the two ends of a pushing gap, and what gives way first.
use ground::Label;

pub mod advance;
pub mod side;

// What is pushed: the label `to` is to stand `reach` to the right of the label `from`.
#[derive(Clone, Copy, Debug, PartialEq, Eq)]
pub struct Push {
    pub from: Label,
    pub to: Label,
    pub reach: i64,
}
