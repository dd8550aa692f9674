// One advance of a push.
ghost use Rattle.std.specs.Prelude.{◌<◌, ◌≤◌, nat_abs};
ghost use Rattle.core_forest.specs.Chain.{ChainsOf};
ghost use Rattle.core_forest.specs.Problem.{Limits};
ghost use Rattle.core_advance.specs.Advance.{Gives, Searched};
ghost use Rattle.ground.specs.Limits.{distance_most};

use crate::Push;
use crate::side::side;
use core_breaking::Outcome;
use core_breaking::decide::{decide, within};
use core_forest::chain::Chains;
use core_forest::search::Work;
use ground::limits::GapBytes;
use ground::problem::Problem;

// Finds what gives way first, along chains of the marked gaps. Nothing is marked or dropped here.
// A ring can be read out of w; else w is what the searches of the two blocks left.
pub fn advance(p: &Problem, mark: &GapBytes, chains: &Chains, push: Push, w: &mut Work) -> Outcome
    requires { Limits p.now
        × (push.from.0 < p.now.labels)
        × (push.to.0 < p.now.labels)
        × (nat_abs push.reach ≤ distance_most)
        × ChainsOf p.now mark.now chains.now }
    ensures { Gives p.now mark.now push result w.new × Searched p.now mark.now push w.old w.new }
{
    let one = side(p, mark, chains, push.from, push.to, 1, w);
    if one.joined {
        return within(one.first);
    }
    let two = side(p, mark, chains, push.to, push.from, -1, w);
    decide(push.reach, one, two)
}
