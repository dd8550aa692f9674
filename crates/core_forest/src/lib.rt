#![tactic(auto)]
// The forest of marked gaps, searched from a root.
pub mod chain;
pub mod search;
pub mod state;
