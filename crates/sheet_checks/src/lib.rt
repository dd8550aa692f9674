#![tactic(auto)]
// What a station lends, and the checks 1 to 8 and 23 of the refusal table.
pub mod check;
