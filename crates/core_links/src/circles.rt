// The gaps into each block, in a circle: of each block one gap is known, and of each gap the next one.
ghost use Rattle.std.specs.Prelude.{◌≤◌};
ghost use Rattle.core_guess.specs.Guess.{Guessed};
ghost use Rattle.ground.specs.Limits.{gaps_most};

use crate::state::{Links, MaybeGap, entry};
use core_guess::room::ROOM;
use ground::problem::Problem;
use ground::{Block, GapNumber};

// The circle in which gap e is, if it is a gap, becomes part of that of block b: where two gaps of two circles change what comes next,
// the circles become one.
pub fn attach(e: MaybeGap, b: Block, links: &mut Links)
    ensures { Guessed links.new }
{
    let v = entry(b);
    let last = links.end[v];
    if !last.is_gap() {
        links.end[v] = e;
    } else if e.is_gap() {
        // two stores: the slice's swap asks first which index is lower
        let (i, j) = (usize::from(e.0), usize::from(last.0));
        (links.circle[i], links.circle[j]) = (links.circle[j], links.circle[i]);
    }
}

// Puts every gap into the circle of the label on its right. No circle has a gap before.
pub(crate) fn enclose_all(p: &Problem, links: &mut Links)
    requires { p.now.gaps ≤ gaps_most }
{
    for e in 0..p.gaps {
        let own = MaybeGap::of(GapNumber(e));
        links.circle[e] = own;
        attach(own, Block((p.right[e] % ROOM) as u8), links);
    }
}
