#![tactic(auto)]
// What every crate shares: the limits of a sheet, its work arrays, the numbers of labels, blocks and gaps,
// a gap as a record, the rules that refuse, and answers.
pub mod answers;
pub mod copies;
pub mod limits;
pub mod lists;
pub mod problem;
pub mod rules;

// Labels, blocks and gaps by their numbers. Each counts from 0, and none may stand where another is meant.
// A block's number is kept as a byte.
#[derive(Clone, Copy, Debug, PartialEq, Eq)]
pub struct Label(pub usize);

#[derive(Clone, Copy, Debug, PartialEq, Eq)]
pub struct Block(pub u8);

#[derive(Clone, Copy, Debug, PartialEq, Eq)]
pub struct GapNumber(pub usize);

// A gap as a station lends it in a list of records; its kind is AT_LEAST or EXACTLY of `limits`, and any other is refused.
#[derive(Clone, Copy, Debug, PartialEq, Eq)]
pub struct GapRecord {
    pub left: usize,
    pub right: usize,
    pub distance: i64,
    pub kind: u8,
}

// A refusal: its number, its place, and with 9 the ring's length (else 0: it is told to C so). Every answer that may be refused has it.
// The number is that of one of `rules`; it is a number here, since `write_listing` promises the listing of any.
#[derive(Clone, Copy, Debug, PartialEq, Eq)]
pub struct Refusal {
    pub number: usize,
    pub place: usize,
    pub ring: usize,
}

// The answer of a layout: placed, or refused with its number, its place and the ring's length.
pub type Answer = Result<(), Refusal>;
