// What gives way first at the two ends of a pushing gap.
ghost use Rattle.std.specs.Prelude.{◌≡◌, ◌≤◌, nat_abs};
ghost use Rattle.core_elimination.specs.Block.{SumsInRange};
ghost use Rattle.core_breaking.specs.Breaking.{BreakInRange};
ghost use Rattle.core_breaking.specs.Decide.{meeting_of, decided, within_block};
ghost use Rattle.ground.specs.Limits.{distance_most};

use crate::breaking::nearer;
use crate::{BreakingPoint, Outcome, Side};
use core_elimination::Sums;
use exact::Fraction;
use exact::compare::compare;
use std::cmp::Ordering;

// The push at which the gap is tight, over the sum of the two blocks' weights.
fn meeting(h: i64, one: Sums, two: Sums) -> i64
    requires { (nat_abs h ≤ distance_most) × SumsInRange one × SumsInRange two }
    ensures { result ≡ meeting_of h one two }
{
    let both = one.weight * two.weight;
    2 * (one.wanted * two.weight + h * both - two.wanted * one.weight)
}

// Between two blocks: the first breaking point gives way if it comes before the gap is tight.
pub fn decide(h: i64, one: Side, two: Side) -> Outcome
    requires { (nat_abs h ≤ distance_most)
        × SumsInRange one.sums
        × SumsInRange two.sums
        × BreakInRange one.first
        × BreakInRange two.first }
    ensures { result ≡ decided h one two }
{
    let Some(first) = nearer(one.first, two.first) else {
        return Outcome::Reached;
    };
    let tight = Fraction {
        num: meeting(h, one.sums, two.sums),
        den: one.sums.weight + two.sums.weight,
    };
    match compare(first.push, tight) {
        Ordering::Less => Outcome::Dropped(first.gap),
        Ordering::Equal | Ordering::Greater => Outcome::Reached,
    }
}

// Within one block: the first breaking point gives way; where there is none, nothing does.
pub fn within(first: Option<BreakingPoint>) -> Outcome
    ensures { result ≡ within_block first }
{
    match first {
        None => Outcome::Ring,
        Some(point) => Outcome::Dropped(point.gap),
    }
}
