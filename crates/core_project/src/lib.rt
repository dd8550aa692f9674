#![tactic(auto)]
// The least move on plain slices: places, multipliers and marks that satisfy the conditions, or a ring.
use core_ring::RingSize;

pub mod project;
pub mod solve;
pub mod write;

// What the core comes to: every label is placed, or a ring of so many gaps was written.
pub type Projected = Result<(), RingSize>;
