#![tactic(auto)]
// The entries over single fractions: rounding, by two rules for halves, and the slack of a gap. Any numbers may be given.
use exact::Fraction;
use ground::Refusal;

mod half_up;
mod places;
pub mod round;
pub mod slack;

// Where halves go: away from zero, or up to the larger number.
#[derive(Clone, Copy, Debug, PartialEq, Eq)]
pub enum Ties {
    AwayFromZero,
    Up,
}

// The answer of a rounding: the whole unit, or a refusal.
pub type Rounded = Result<i64, Refusal>;

// The slack of a gap, or a refusal.
pub type SlackAnswer = Result<Fraction, Refusal>;
