#![tactic(auto)]
// The first guess: what is known of labels, blocks and gaps while blocks are merged, and how it starts. Nobody trusts it.
pub mod circles;
pub mod start;
pub mod state;
