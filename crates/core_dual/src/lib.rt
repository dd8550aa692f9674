#![tactic(auto)]
// The method of the outer loop in doubles. Nobody trusts it: its bytes are read as any others.
pub mod dual;
