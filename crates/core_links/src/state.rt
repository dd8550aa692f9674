// What is known of the labels, blocks and gaps while blocks are merged. A block has the number of one of its labels. Numbers are bytes:
// all that is kept is cleared for each guess.
ghost use Rattle.std.specs.Prelude.{◌≡◌, ◌<◌};
ghost use Rattle.core_guess.specs.Guess.{Guessed};
ghost use Rattle.core_links.specs.Room.{is_gap, room};
ghost use Rattle.ground.specs.Limits.{gaps_most};

use core_guess::room::{GAP_ROOM, NO_GAP, ROOM};
use ground::limits::GAPS;
use ground::{Block, GapNumber, Label};

// A gap or what stands for none, in one byte, where an Option takes sixteen. (A walk that asked for an Option at each gap was slower too.)
#[derive(Clone, Copy, Debug, PartialEq, Eq)]
pub struct MaybeGap(pub u8);

impl MaybeGap {
    pub const NONE: MaybeGap = MaybeGap(NO_GAP);

    // In the search for an order, in place of a gap to look at: the label is new, or done. (Bytes beside those of gaps: the search reads one
    // array, and an enum with a gap in it takes two bytes and more.)
    pub const NEW: MaybeGap = MaybeGap(254);

    pub const DONE: MaybeGap = MaybeGap(253);

    // A gap.
    pub fn of(e: GapNumber) -> MaybeGap
        requires { e.0 < gaps_most }
        ensures { result.0 ≡ e.0 }
    {
        MaybeGap(e.0 as u8)
    }

    // Whether it is a gap.
    pub fn is_gap(self) -> bool
        ensures { result ≡ is_gap self.0 }
    {
        usize::from(self.0) < GAPS
    }

    // The number of the gap that it is.
    pub fn number(self) -> GapNumber
        ensures { result.0 ≡ self.0 }
    {
        GapNumber(usize::from(self.0))
    }
}

// The search for an order knows no places, and the search for the gap that lacks most changes none: so these are two.
#[derive(Clone, Copy)]
pub struct Links {
    // The block of a label; the next label of its block, in a circle; and how many labels a block has.
    pub block: [Block; ROOM],
    pub next: [u8; ROOM],
    pub size: [u8; ROOM],
    // A gap into each block, where the walk round its circle ends.
    pub end: [MaybeGap; ROOM],
    // Of the search for an order: the gap into a label to look at next; the open labels, each found from the one before; and the labels
    // that are done, in the order asked for.
    pub look: [MaybeGap; ROOM],
    pub opened: [u8; ROOM],
    pub done: [u8; ROOM],
    // The next gap in its circle, with room for as many as a byte tells apart.
    pub circle: [MaybeGap; GAP_ROOM],
}

#[derive(Clone, Copy)]
pub struct Spots {
    // How far a label stands from the place of its block; the place of a block; and its weight.
    pub offset: [f64; ROOM],
    pub place: [f64; ROOM],
    pub weight: [f64; ROOM],
}

// Where a block stands in an array.
pub fn entry(b: Block) -> usize
    ensures { result < room }
{
    usize::from(b.0) % ROOM
}

impl Links {
    // Nothing is known.
    pub fn new() -> Links
        ensures { Guessed result }
    {
        Links {
            block: [Block(NO_GAP); ROOM],
            next: [NO_GAP; ROOM],
            size: [NO_GAP; ROOM],
            end: [MaybeGap::NONE; ROOM],
            look: [MaybeGap::NONE; ROOM],
            opened: [NO_GAP; ROOM],
            done: [NO_GAP; ROOM],
            circle: [MaybeGap::NONE; GAP_ROOM],
        }
    }

    // The block of a label.
    pub fn block_of(&self, x: Label) -> Block
        ensures { Guessed result }
    {
        self.block[x.0 % ROOM]
    }

    // The gap after which the walk round the gaps into a label's block begins.
    pub fn end_of(&self, x: Label) -> MaybeGap
        ensures { Guessed result }
    {
        self.end[x.0 % ROOM]
    }

    // The next gap in a circle. (After none comes none: its entry is never written.)
    pub fn after(&self, e: MaybeGap) -> MaybeGap
        ensures { Guessed result }
    {
        self.circle[usize::from(e.0)]
    }
}

impl Spots {
    // Nothing is known.
    pub fn new() -> Spots
        ensures { Guessed result }
    {
        Spots {
            offset: [0.0; ROOM],
            place: [0.0; ROOM],
            weight: [0.0; ROOM],
        }
    }

    // How far a label stands from the place of its block.
    pub fn offset_of(&self, x: Label) -> f64
        ensures { Guessed result }
    {
        self.offset[x.0 % ROOM]
    }

    // Where a label stands.
    pub fn place_of(&self, x: Label, links: &Links) -> f64
        ensures { Guessed result }
    {
        self.place[entry(links.block_of(x))] + self.offset_of(x)
    }
}
