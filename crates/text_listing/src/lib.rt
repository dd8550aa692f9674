#![tactic(auto)]
// The listing of an answer.
use ground::Refusal;

mod lent;
pub mod listing;
mod slacks;
mod text;

// Bytes of a refused record, at most, and of a whole listing.
pub const REFUSED_ROOM: usize = 72;

pub const LISTING_ROOM: usize = 24576;

// The answer of the listing: so many bytes written, or a refusal.
pub type Listed = Result<usize, Refusal>;
