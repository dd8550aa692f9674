// One turn of the outer loop: the gap that holds least is raised, and the blocks that changed are balanced.
ghost use Rattle.std.specs.Prelude.{◌≡◌, ◌<◌, ◌≤◌, nat_abs};
ghost use Rattle.ground.specs.Entries.{int};
ghost use Rattle.core_forest.specs.Problem.{Limits};
ghost use Rattle.core_settle.specs.Settle.{Outlying, RingFilled, TurnSays, push_of, turn_writes};
ghost use Rattle.core_standing.specs.Standing.{StandingState};
ghost use Rattle.ground.specs.Limits.{distance_most, gaps_most};

use crate::Found;
use crate::raise::raise;
use core_advance::Push;
use core_balance::rebalance;
use core_forest::search::Work;
use core_forest::state::State;
use core_ring::{Ring, way};
use core_worst_gap::{Lacking, worst_gap};
use ground::Label;
use ground::problem::Problem;

// The push of a gap that does not hold: an exact gap may push backwards, from its right end to its left.
fn push_of(p: &Problem, lacking: Lacking) -> Push
    requires { (lacking.gap.0 < gaps_most) × (nat_abs (int p.now.distance lacking.gap.0) ≤ distance_most) }
    ensures { result ≡ push_of p.now lacking }
{
    let k = lacking.gap.0;
    let left = Label(p.left[k]);
    let right = Label(p.right[k]);
    if lacking.backwards {
        return Push {
            from: right,
            to: left,
            reach: -p.distance[k],
        };
    }
    Push {
        from: left,
        to: right,
        reach: p.distance[k],
    }
}

// Takes one outer step, if a gap does not hold. Gives what the outer loop comes to, unless another step is due.
pub(crate) fn turn(p: &Problem, s: &mut State, ring: &mut Ring) -> Option<Found>
    requires { Limits p.now × StandingState p.now s.old }
    ensures { TurnSays p.now s.old result s.new ring.new
        × Outlying p.now s.old s.new
        × RingFilled (turn_writes result) ring.old ring.new }
{
    let Some(lacking) = worst_gap(p, &s.num, &s.den) else {
        return Some(Ok(()));
    };
    let push = push_of(p, lacking);
    let mut w = Work::new();
    if raise(p, lacking.gap, push, &mut w, s) {
        rebalance(p, &mut w, s);
        return None;
    }
    Some(Err(way(p, lacking, push.from, push.to, &w, ring)))
}
