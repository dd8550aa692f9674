#![tactic(auto)]
// A gap pushes the trees at its ends apart: which marked gaps give way, and the two trees that meet. Nobody trusts it.
pub mod push;
mod weakest;
