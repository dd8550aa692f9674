// Before blocks are merged every label is one, and stands where it is wanted.
ghost use Rattle.std.specs.Prelude.{◌≤◌};
ghost use Rattle.core_guess.specs.Guess.{Guessed};
ghost use Rattle.ground.specs.Limits.{gaps_most, labels_most};

use crate::circles::enclose_all;
use crate::state::{Links, MaybeGap, Spots};
use core_guess::doubles::double;
use ground::Block;
use ground::problem::Problem;

// Every label is a block of its own, and they are in order as they are numbered.
fn part(labels: usize, links: &mut Links)
    requires { labels ≤ labels_most }
{
    for i in 0..labels {
        let own = i as u8;
        links.block[i] = Block(own);
        links.next[i] = own;
        links.size[i] = 1;
        links.done[i] = own;
        links.look[i] = MaybeGap::NEW;
    }
}

// Every label stands where it is wanted.
fn place(p: &Problem, spots: &mut Spots)
    requires { p.now.labels ≤ labels_most }
{
    for i in 0..p.labels {
        spots.place[i] = double(p.wanted[i]);
        spots.weight[i] = double(p.weight[i]);
    }
}

// Every label is a block of its own and stands where it is wanted, and every gap is in the circle of the label on its right.
pub fn start(p: &Problem, links: &mut Links, spots: &mut Spots)
    requires { (p.now.labels ≤ labels_most) × (p.now.gaps ≤ gaps_most) }
    ensures { Guessed links.new × Guessed spots.new }
{
    part(p.labels, links);
    enclose_all(p, links);
    place(p, spots);
}
