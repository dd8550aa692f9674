#![tactic(auto)]
// What stands under the guesses at the forest of marked gaps: doubles, room for labels and gaps, marks that are carried, gaps that are
// wished, and the block numbers by which labels are joined.
pub mod blocks;
pub mod doubles;
pub mod marks;
pub mod room;
pub mod wishes;
