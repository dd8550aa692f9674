#![tactic(auto)]
// The first guess, in doubles: labels are taken in the order of the gaps, and blocks are merged leftwards while gaps into them lack.
// Nobody trusts it: its bytes are read as any others.
pub mod merge;
