// A sheet in work arrays, as the core and its guesses read it.
use crate::limits::{GapBytes, GapIndices, GapInts, LabelInts};

// So many labels with their wants and weights, and so many gaps by their ends, distances and kinds. What stands in an array past them
// does not count. There is an array for each thing, as a station lends them and as a loop over one thing reads them.
#[derive(Drop)]
pub struct Problem {
    pub labels: usize,
    pub gaps: usize,
    pub left: GapIndices,
    pub right: GapIndices,
    pub distance: GapInts,
    pub kind: GapBytes,
    pub wanted: LabelInts,
    pub weight: LabelInts,
}
