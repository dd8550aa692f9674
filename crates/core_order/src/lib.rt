#![tactic(auto)]
// The first guess: the labels in the order of the gaps. Nobody trusts it.
pub mod order;
