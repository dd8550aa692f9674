#![tactic(auto)]
// The gap that lacks most, in doubles: of those into a block for the first guess, and of all for the second. Nobody trusts it.
pub mod widest;
pub mod worst;
