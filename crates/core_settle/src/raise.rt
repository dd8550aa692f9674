// One outer step: the push of a gap that does not hold grows until the gap is tight, or a ring shows.
ghost use Rattle.std.specs.Prelude.{◌<◌, ◌≤◌, nat_abs};
ghost use Rattle.core_forest.specs.Problem.{Limits};
ghost use Rattle.core_settle.specs.Raise.{MarksChanged, Raised};
ghost use Rattle.ground.specs.Limits.{distance_most};

use core_advance::Push;
use core_advance::advance::advance;
use core_balance::change_mark;
use core_breaking::Outcome;
use core_forest::chain::chains_of;
use core_forest::search::Work;
use core_forest::state::State;
use ground::GapNumber;
use ground::problem::Problem;

// Drops the gaps that give way, and marks the gap that pushes when it is tight. Says whether it came to that; if not, nothing gives way.
pub(crate) fn raise(p: &Problem, gap: GapNumber, push: Push, w: &mut Work, s: &mut State) -> bool
    requires { Limits p.now
        × (gap.0 < p.now.gaps)
        × (push.from.0 < p.now.labels)
        × (push.to.0 < p.now.labels)
        × (nat_abs push.reach ≤ distance_most) }
    ensures { Raised p.now s.old.mark gap.0 push result s.new.mark w.new
        × MarksChanged p.now s.old s.new }
{
    // A gap that is dropped may stay in the chains: a search passes none that is not marked.
    let chains = chains_of(p, &s.mark);
    loop {
        match advance(p, &s.mark, &chains, push, w) {
            Outcome::Dropped(e) => change_mark(p, e, 0, s),
            Outcome::Reached => {
                change_mark(p, gap, 1, s);
                return true;
            }
            Outcome::Ring => return false,
        }
    }
}
