#![tactic(auto)]
// Exact fractions: lowest terms, comparison and difference in whole numbers of 64 bits.

pub mod compare;
pub mod difference;
pub mod divide;
pub mod known;

// A whole number over a whole number above zero. An entry may be given any two numbers.
// `==` asks for the same two numbers: 1/2 and 2/4 differ, and `compare` finds them equal.
#[derive(Clone, Copy, Debug, PartialEq, Eq)]
pub struct Fraction {
    pub num: i64,
    pub den: i64,
}
