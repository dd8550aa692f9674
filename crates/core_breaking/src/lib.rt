#![tactic(auto)]
// Breaking points of a block, and what gives way first at the two ends of a pushing gap.
use core_elimination::Sums;
use exact::Fraction;
use ground::GapNumber;

pub mod breaking;
pub mod decide;

// A gap of a block whose multiplier comes to zero as a push grows, and the push at which it does.
#[derive(Clone, Copy, Debug, PartialEq, Eq)]
pub struct BreakingPoint {
    pub gap: GapNumber,
    pub push: Fraction,
}

// What is found of the block at one end: its sums, whether the other end stands in it, and its first breaking point.
#[derive(Clone, Copy, Debug, PartialEq, Eq)]
pub struct Side {
    pub count: usize,
    pub sums: Sums,
    pub joined: bool,
    pub first: Option<BreakingPoint>,
}

// What gives way: a marked gap is dropped, or the gap becomes tight, or nothing does and there is a ring.
#[derive(Clone, Copy, Debug, PartialEq, Eq)]
pub enum Outcome {
    Dropped(GapNumber),
    Reached,
    Ring,
}
