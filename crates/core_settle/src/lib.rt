#![tactic(auto)]
// The method: outer steps over forests of marked gaps until every gap holds, or a ring is found.
use core_ring::RingSize;

pub mod raise;
pub mod settle;
pub mod turn;

// What the outer loop comes to: every gap holds where the labels stand, or a ring of so many gaps was written.
pub type Found = Result<(), RingSize>;
