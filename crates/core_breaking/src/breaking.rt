// Breaking points: the pushes at which the multipliers of a block's gaps come to zero.
ghost use Rattle.std.specs.Prelude.{◌≡◌, ◌+◌, ◌<◌};
ghost use Rattle.core_elimination.specs.Block.{IsSign};
ghost use Rattle.core_breaking.specs.Breaking.{BreakInRange, Breakable, candidate_of, least_break, losing_end, nearer_of};
ghost use Rattle.ground.specs.Limits.{gaps_most};

use crate::BreakingPoint;
use core_forest::search::Work;
use exact::Fraction;
use exact::compare::compare;
use ground::limits::{AT_LEAST, LabelInts};
use ground::problem::Problem;
use ground::{GapNumber, Label};
use std::cmp::Ordering;

// The nearer of two breaking points; the first where they are equal.
pub(crate) fn nearer(a: Option<BreakingPoint>, b: Option<BreakingPoint>) -> Option<BreakingPoint>
    requires { BreakInRange a × BreakInRange b }
    ensures { result ≡ nearer_of a b }
{
    let Some(near) = a else {
        return b;
    };
    let Some(next) = b else {
        return a;
    };
    match compare(next.push, near.push) {
        Ordering::Less => b,
        Ordering::Equal => a,
        Ordering::Greater => a,
    }
}

// The end of a gap at which the label under the gap stands, for a gap that loses load as the push grows:
// with sign 1 those point away from the root, with sign -1 to it. (The sign is a number, as what is held was multiplied by it.)
fn losing_end(p: &Problem, e: GapNumber, sign: i64) -> Label
    requires { e.0 < gaps_most }
    ensures { result.0 ≡ losing_end sign p.now.left p.now.right e.0 }
{
    if sign == 1 {
        return Label(p.right[e.0]);
    }
    Label(p.left[e.0])
}

// The breaking point of the label at position k: of its parent gap, if that is of the kind at least and loses load as
// the push grows. (What is held and the shares are the caller's two arrays: a struct of them would serve this call alone.)
fn candidate(
    p: &Problem,
    k: usize,
    sign: i64,
    w: &Work,
    held: &LabelInts,
    share: &LabelInts,
) -> Option<BreakingPoint>
    requires { Breakable (k + 1) w.now.queue w.now.via held.now share.now × (0 < k) }
    ensures { result ≡ candidate_of p.now sign w.now held.now share.now k }
{
    let x = w.queue[k];
    let gap = GapNumber(w.via[x]);
    if p.kind[gap.0] != AT_LEAST || share[x] < 1 || losing_end(p, gap, sign) != Label(x) {
        return None;
    }
    let push = Fraction {
        num: held[x],
        den: share[x],
    };
    Some(BreakingPoint { gap, push })
}

// The first breaking point of the block.
pub fn least_break(
    p: &Problem,
    sign: i64,
    w: &Work,
    held: &LabelInts,
    share: &LabelInts,
) -> Option<BreakingPoint>
    requires { Breakable w.now.count w.now.queue w.now.via held.now share.now
        × IsSign sign }
    ensures { result ≡ least_break w.now.count (candidate_of p.now sign w.now held.now share.now) }
{
    let mut best = None;
    for k in 1..w.count {
        best = nearer(best, candidate(p, k, sign, w, held, share));
    }
    best
}
