#![tactic(auto)]
// The forest of marked gaps in doubles: how the labels hang, with the sums over what hangs under each. Nobody trusts it.
pub mod nodes;
pub mod sums;
