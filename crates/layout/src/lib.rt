#![tactic(auto)]
// Lays out a sheet, and lends the filled parts of the ring buffers.
pub mod lists;
pub mod part;
