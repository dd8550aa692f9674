// Blocks are merged leftwards: while a gap into a block from another one lacks, the two blocks at the ends of the gap that lacks
// most become one.
ghost use Rattle.std.specs.Prelude.{◌≤◌, ◌<◌};
ghost use Rattle.core_guess.specs.Guess.{Wished};
ghost use Rattle.ground.specs.Limits.{gaps_most, labels_most};

use core_joining::joining::close;
use core_lacking::widest::{is_from, widest};
use core_links::start::start;
use core_links::state::{Links, Spots};
use core_order::order::in_order;
use ground::limits::{EXACTLY, GapBytes, LABELS};
use ground::problem::Problem;
use ground::{GapNumber, Label};

// Merges the block of label x with others while a gap into it lacks. Wishes those gaps.
fn drain(x: Label, p: &Problem, links: &mut Links, spots: &mut Spots, wish: &mut GapBytes)
    requires { p.now.gaps ≤ gaps_most }
    ensures { Wished p.now.gaps wish.old wish.new }
{
    for _ in 0..LABELS {
        let Some(e) = widest(x, p, links, spots) else {
            return;
        };
        if p.gaps <= e.0 {
            return;
        }
        close(e, p, links, spots);
        wish[e.0] = 1;
    }
}

// Drains the block of every label, in the order of the gaps.
fn sweep(p: &Problem, links: &mut Links, spots: &mut Spots, wish: &mut GapBytes)
    requires { (p.now.labels ≤ labels_most) × (p.now.gaps ≤ gaps_most) }
    ensures { Wished p.now.gaps wish.old wish.new }
{
    for i in 0..p.labels {
        let x = Label(usize::from(links.done[i]));
        drain(x, p, links, spots, wish);
    }
}

// Whether gap e is exact, or made so by an opposite one and wished already, and goes from one block to another.
fn is_to_close(e: GapNumber, p: &Problem, wish: &GapBytes, links: &Links) -> bool
    requires { e.0 < gaps_most }
{
    let is_exact = p.kind[e.0] == EXACTLY || wish[e.0] == 1;
    is_exact && !is_from(e, links.block_of(Label(p.right[e.0])), p, links)
}

// Merges the blocks at the ends of each exact gap, and of each gap that an opposite one makes exact.
fn close_exact(p: &Problem, wish: &GapBytes, links: &mut Links, spots: &mut Spots)
    requires { p.now.gaps ≤ gaps_most }
{
    for e in 0..p.gaps {
        if is_to_close(GapNumber(e), p, wish, links) {
            close(GapNumber(e), p, links, spots);
        }
    }
}

// Merges blocks, exact gaps first. Unless the order is straight, which it is where no gap closes a ring, a block may move right after
// the gaps into it were looked at, so they are looked at again.
fn merge_all(straight: bool, p: &Problem, links: &mut Links, spots: &mut Spots, wish: &mut GapBytes)
    requires { (p.now.labels ≤ labels_most) × (p.now.gaps ≤ gaps_most) }
    ensures { Wished p.now.gaps wish.old wish.new }
{
    close_exact(p, wish, links, spots);
    sweep(p, links, spots, wish);
    if !straight {
        sweep(p, links, spots, wish);
    }
}

// The first proposal where no mark is carried.
pub fn first(p: &Problem, wish: &mut GapBytes)
    requires { (p.now.labels ≤ labels_most) × (p.now.gaps ≤ gaps_most) }
    ensures { Wished p.now.gaps wish.old wish.new }
{
    if p.gaps == 0 {
        return;
    }
    let mut links = Links::new();
    let mut spots = Spots::new();
    start(p, &mut links, &mut spots);
    let straight = in_order(p, &mut links, wish);
    merge_all(straight, p, &mut links, &mut spots, wish);
}
