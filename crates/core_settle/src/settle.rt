// The outer loop.
ghost use Rattle.core_forest.specs.Problem.{Limits};
ghost use Rattle.core_standing.specs.Standing.{StandingState};
ghost use Rattle.core_settle.specs.Settle.{Outlying, RingFilled, SettleSays, settle_writes};

use crate::Found;
use crate::turn::turn;
use core_forest::state::State;
use core_ring::Ring;
use ground::problem::Problem;

// Takes outer steps until every gap holds, or a ring of so many gaps was written.
pub fn settle(p: &Problem, s: &mut State, ring: &mut Ring) -> Found
    requires { Limits p.now × StandingState p.now s.old }
    ensures { SettleSays p.now result s.new ring.new
        × Outlying p.now s.old s.new
        × RingFilled (settle_writes result) ring.old ring.new }
{
    loop {
        if let Some(found) = turn(p, s, ring) {
            return found;
        }
    }
}
