// Room in the work arrays of the guesses. A remainder by a power of two is one instruction, and an index that is one needs no test.

// Room for each label in a work array. A label is a byte there: `(x.0 % ROOM) as u8` at each place, since a call would be no shorter.
pub const ROOM: usize = 64;

// As many gap numbers as a byte tells apart.
pub const GAP_ROOM: usize = 256;

// A byte that is no gap's number: it stands for none, where an Option would take two bytes and more.
pub const NO_GAP: u8 = 255;
