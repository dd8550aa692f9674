// Two blocks become one, which stands where its weighted mean is.
ghost use Rattle.std.specs.Prelude.{◌<◌};
ghost use Rattle.core_guess.specs.Guess.{Guessed};
ghost use Rattle.ground.specs.Limits.{gaps_most};

use core_guess::doubles::double;
use core_guess::room::ROOM;
use core_links::circles::attach;
use core_links::state::{Links, Spots, entry};
use ground::problem::Problem;
use ground::{Block, GapNumber, Label};

// Block from becomes part of block to. Its labels stand farther from the place of block to by so much. And the place and the weight that
// the two come to.
#[derive(Clone, Copy, Debug, PartialEq)]
struct Joint {
    to: Block,
    from: Block,
    by: f64,
    place: f64,
    weight: f64,
}

// Block from, whose labels stand farther from the place of block to by so much, joined to it.
fn joined(to: Block, from: Block, by: f64, spots: &Spots) -> Joint {
    let a = entry(to);
    let b = entry(from);
    let one = spots.weight[a];
    let two = spots.weight[b];
    let weight = one + two;
    let place = (spots.place[a] * one + (spots.place[b] - by) * two) / weight;
    Joint {
        to,
        from,
        by,
        place,
        weight,
    }
}

// How the blocks at the ends of gap e become one in which it is tight. The smaller one is moved. (Both branches end in the sums: a
// processor foresees most of them, and a choice of the blocks before would wait for the sizes.)
fn joint_of(e: GapNumber, p: &Problem, links: &Links, spots: &Spots) -> Joint
    requires { e.0 < gaps_most }
{
    let u = Label(p.left[e.0]);
    let v = Label(p.right[e.0]);
    let a = links.block_of(u);
    let b = links.block_of(v);
    let by = spots.offset_of(u) + double(p.distance[e.0]) - spots.offset_of(v);
    if links.size[entry(a)] < links.size[entry(b)] {
        return joined(b, a, -by, spots);
    }
    joined(a, b, by, spots)
}

// The labels of block from go to block to, and stand farther from its place.
fn move_labels(joint: Joint, links: &mut Links, spots: &mut Spots) {
    let mut i = entry(joint.from);
    for _ in 0..links.size[i] {
        links.block[i] = joint.to;
        spots.offset[i] += joint.by;
        i = usize::from(links.next[i]) % ROOM;
    }
}

// The circles of the labels of the two become one, and the circles of the gaps into them.
fn join_circles(joint: Joint, links: &mut Links) {
    let a = entry(joint.to);
    let b = entry(joint.from);
    links.size[a] = links.size[a].wrapping_add(links.size[b]);
    // two stores: the slice's swap asks first which index is lower
    (links.next[a], links.next[b]) = (links.next[b], links.next[a]);
    attach(links.end[b], joint.to, links);
}

// The blocks at the ends of gap e become one, in which the gap is tight.
pub fn close(e: GapNumber, p: &Problem, links: &mut Links, spots: &mut Spots)
    requires { e.0 < gaps_most }
    ensures { Guessed links.new × Guessed spots.new }
{
    let joint = joint_of(e, p, links, spots);
    let a = entry(joint.to);
    spots.place[a] = joint.place;
    spots.weight[a] = joint.weight;
    move_labels(joint, links, spots);
    join_circles(joint, links);
}
