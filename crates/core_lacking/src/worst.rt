// Of all gaps the one that lacks most, for the second guess.
ghost use Rattle.std.specs.Prelude.{◌≤◌};
ghost use Rattle.core_guess.specs.Guess.{Guessed};
ghost use Rattle.ground.specs.Limits.{gaps_most};

use core_guess::doubles::{TOLERANCE, double};
use core_trees::nodes::{Pushing, Trees};
use ground::limits::{EXACTLY, GapDoubles};
use ground::problem::Problem;
use ground::{GapNumber, Label};

// The reach of a gap that asks nothing: no two labels stand so far apart that it lacks. (So the loop over the gaps asks no kinds.)
const NO_REACH: f64 = -1000000000000.0;

// The distance of a gap as a double. A gap that asks nothing never lacks.
fn reach_of(distance: i64, kind: u8) -> f64 {
    if EXACTLY < kind {
        return NO_REACH;
    }
    double(distance)
}

// The reach of every gap.
pub fn reaches(p: &Problem, reach: &mut GapDoubles)
    requires { p.now.gaps ≤ gaps_most }
    ensures { Guessed reach.new }
{
    for e in 0..p.gaps {
        reach[e] = reach_of(p.distance[e], p.kind[e]);
    }
}

// The gap that lacks most, if one lacks. (The loop keeps a number and no Option: a state in whole words is faster.)
pub fn worst_gap(p: &Problem, reach: &GapDoubles, trees: &Trees) -> Option<Pushing>
    requires { p.now.gaps ≤ gaps_most }
    ensures { Guessed result }
{
    let mut most = TOLERANCE;
    let mut worst = 0;
    for e in 0..p.gaps {
        let lack = trees.lack_between(Label(p.left[e]), Label(p.right[e]), reach[e]);
        if most < lack {
            most = lack;
            worst = e;
        }
    }
    (TOLERANCE < most).then_some(Pushing {
        gap: GapNumber(worst),
        left: Label(p.left[worst]),
        right: Label(p.right[worst]),
        reach: reach[worst],
    })
}
