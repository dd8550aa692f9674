// Sums over a block, the places that they give its labels, and the shares that elimination starts from. (Each loop reads
// other arrays: as one loop that is given a closure they would need a contract for each closure beside their own.)
ghost use Rattle.std.specs.Prelude.{◌≡◌, ℕ, ◌<◌, ◌≤◌, nat_abs, ◌*ℤ◌};
ghost use Rattle.ground.specs.Entries.{nat, int};
ghost use Rattle.core_elimination.specs.Block.{IsSign, Listed, InRange, weight_sum, wanted_sum, SumsInRange, Given, numerator, surplus_at, only_at};
ghost use Rattle.ground.specs.Limits.{offset_most};

use crate::Sums;
use core_forest::search::Work;
use ground::Label;
use ground::limits::LabelInts;
use ground::problem::Problem;

// The sums over the block: W and P.
pub fn sums(p: &Problem, w: &Work) -> Sums
    requires { Listed w.now.count w.now.queue × InRange w.now.count w.now.queue w.now.off p.now.wanted p.now.weight }
    ensures { (result.weight ≡ weight_sum w.now.count w.now.queue p.now.weight)
        × (result.wanted ≡ wanted_sum w.now.count w.now.queue w.now.off p.now.wanted p.now.weight) }
{
    let mut total: i64 = 0;
    let mut moment: i64 = 0;
    for k in 0..w.count {
        let x = w.queue[k];
        total += p.weight[x];
        moment += p.weight[x] * (p.wanted[x] - w.off[x]);
    }
    Sums {
        weight: total,
        wanted: moment,
    }
}

// Writes the places of the block's labels: num[x] over den[x].
pub fn places(w: &Work, s: Sums, num: &mut LabelInts, den: &mut LabelInts)
    requires { Listed w.now.count w.now.queue
        × SumsInRange s
        × ((k : ℕ) → k < w.now.count → nat_abs (int w.now.off (nat w.now.queue k)) ≤ offset_most) }
    ensures { Given w.now.count w.now.queue (numerator s w.now.off) num.old num.new
        × Given w.now.count w.now.queue (λ x. s.weight) den.old den.new }
{
    for k in 0..w.count {
        let x = w.queue[k];
        num[x] = s.wanted + w.off[x] * s.weight;
        den[x] = s.weight;
    }
}

// Gives each label of the block what it lacks of its balance, times the sign (1 or -1, a number as it is multiplied by).
pub fn surplus(p: &Problem, w: &Work, s: Sums, sign: i64, held: &mut LabelInts)
    requires { Listed w.now.count w.now.queue
        × InRange w.now.count w.now.queue w.now.off p.now.wanted p.now.weight
        × SumsInRange s
        × IsSign sign }
    ensures { Given w.now.count w.now.queue (λ x. sign *ℤ surplus_at s w.now.off p.now.wanted p.now.weight x) held.old
        held.new }
{
    for k in 0..w.count {
        let x = w.queue[k];
        let lack = s.wanted + w.off[x] * s.weight - p.wanted[x] * s.weight;
        held[x] = sign * (2 * (p.weight[x] * lack));
    }
}

// Gives each label of the block its weight.
pub fn shares(p: &Problem, w: &Work, held: &mut LabelInts)
    requires { Listed w.now.count w.now.queue }
    ensures { Given w.now.count w.now.queue (int p.now.weight) held.old held.new }
{
    for k in 0..w.count {
        let x = w.queue[k];
        held[x] = p.weight[x];
    }
}

// Gives the whole share to label v, and nothing to the block's other labels.
pub fn share_at(w: &Work, v: Label, share: i64, held: &mut LabelInts)
    requires { Listed w.now.count w.now.queue }
    ensures { Given w.now.count w.now.queue (only_at v.0 share) held.old held.new }
{
    for k in 0..w.count {
        let x = w.queue[k];
        held[x] = if Label(x) == v { share } else { 0 };
    }
}
