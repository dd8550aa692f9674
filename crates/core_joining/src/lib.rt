#![tactic(auto)]
// The first guess: two blocks become one. In doubles, and nobody trusts it.
pub mod joining;
