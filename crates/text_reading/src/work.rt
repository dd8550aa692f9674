// The work arrays of a reading.
ghost use Rattle.text_reading.specs.Parts.{WorkArrays};

use ground::limits::{GapBytes, GapIndices, GapInts, LabelInts};

// A number for each label and gap that there is room for. What stands past those that are read does not count. (No `Problem`: of a text
// that is refused more labels and gaps may be counted than there is room for, so the counts stand apart.)
#[derive(Drop)]
pub(crate) struct Work {
    pub wanted: LabelInts,
    pub weight: LabelInts,
    pub left: GapIndices,
    pub right: GapIndices,
    pub distance: GapInts,
    pub kind: GapBytes,
    ghost sizes: { WorkArrays (record { wanted = wanted; weight = weight; left = left; right = right; distance = distance; kind = kind }) },
}
