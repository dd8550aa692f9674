// The core on work arrays.
ghost use Rattle.core_forest.specs.Problem.{Limits};
ghost use Rattle.core_project.specs.Core.{CoreSays};

use core_forest::state::State;
use core_proposal::propose;
use core_ring::Ring;
use core_settle::Found;
use core_settle::settle::settle;
use ground::limits::GapBytes;
use ground::problem::Problem;

// Lays the labels out. Placed, every gap holds where the state puts the labels. Otherwise a ring of so many gaps stands in the front of
// the ring's arrays.
pub(crate) fn solve(p: &Problem, carried: &GapBytes, s: &mut State, ring: &mut Ring) -> Found
    requires { Limits p.now }
    ensures { CoreSays p.now result s.new ring.new }
{
    if propose(p, carried, s) {
        return Ok(());
    }
    settle(p, s, ring)
}
