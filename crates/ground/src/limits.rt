// The limits of a sheet, and the arrays of those lengths that the part works on.

// Labels and gaps on a sheet, at most.
pub const LABELS: usize = 48;

pub const GAPS: usize = 192;

// Block numbers are bytes.
pub const BLOCKS: usize = 256;

// A wanted place and a gap's distance, either way; a weight, at least and at most.
pub const WANTED_MOST: i64 = 200000;

pub const DISTANCE_MOST: i64 = 20000;

pub const WEIGHT_LEAST: i64 = 1;

pub const WEIGHT_MOST: i64 = 100;

// A gap's kind: it asks for at least its distance, or for exactly that.
pub const AT_LEAST: u8 = 0;

pub const EXACTLY: u8 = 1;

// A place that is rounded or whose slack is asked for: its denominator at most, its numerator either way.
pub const PLACE_DEN_MOST: i64 = 4800;

pub const PLACE_NUM_MOST: i64 = 5472000000;

// A fraction that is compared: its denominator at most, its numerator's magnitude at most.
pub const FRACTION_DEN_MOST: i64 = 518400;

pub const FRACTION_NUM_MOST: u64 = 4611686018427387904;

// A number, an index, a byte or a double for each label.
pub type LabelInts = [i64; LABELS];

pub type LabelIndices = [usize; LABELS];

pub type LabelBytes = [u8; LABELS];

pub type LabelDoubles = [f64; LABELS];

// The same for each gap, and a double for each block number.
pub type GapInts = [i64; GAPS];

pub type GapIndices = [usize; GAPS];

pub type GapBytes = [u8; GAPS];

pub type GapDoubles = [f64; GAPS];

pub type BlockDoubles = [f64; BLOCKS];
