#![tactic(auto)]
// Sums over a block of the forest, and elimination from its last label to its first.
pub mod block;
pub mod eliminate;

// The sums over a block: the weight of its labels, and the weighted sum of what they want, less their offsets.
#[derive(Clone, Copy, Debug, PartialEq, Eq)]
pub struct Sums {
    pub weight: i64,
    pub wanted: i64,
}
