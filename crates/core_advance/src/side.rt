// The block at one end of a pushing gap.
ghost use Rattle.std.specs.Prelude.{◌<◌};
ghost use Rattle.core_forest.specs.Chain.{ChainsOf};
ghost use Rattle.core_forest.specs.Problem.{Limits};
ghost use Rattle.core_advance.specs.Side.{SideSays};
ghost use Rattle.core_advance.specs.Shares.{Shared};
ghost use Rattle.core_elimination.specs.Block.{IsSign, Listed};
ghost use Rattle.ground.specs.Limits.{labels_most};

use core_breaking::Side;
use core_breaking::breaking::least_break;
use core_elimination::block::{share_at, shares, sums, surplus};
use core_elimination::eliminate::eliminate;
use core_forest::chain::Chains;
use core_forest::search::{Work, search_along};
use ground::Label;
use ground::limits::{GapBytes, LABELS, LabelInts};
use ground::problem::Problem;

// Gives each label of the block its share of the push, and says whether the other end stands in the block: if so, the
// whole share is there.
fn shared(p: &Problem, other: Label, total: i64, w: &Work, share: &mut LabelInts) -> bool
    requires { Listed w.now.count w.now.queue × (other.0 < labels_most) }
    ensures { Shared w.now.count w.now.at w.now.queue p.now.weight other.0 total result share.old share.new }
{
    if w.at[other.0] == 0 {
        shares(p, w, share);
        return false;
    }
    share_at(w, other, total, share);
    true
}

// Searches the block of the root, and eliminates what its labels lack of their balance, times the sign, and their
// shares of the push. (The sign is 1 or -1, a number as it is multiplied by.
// It has the two ends of the push turned at the second call, so they are no struct.)
pub(crate) fn side(
    p: &Problem,
    mark: &GapBytes,
    chains: &Chains,
    root: Label,
    other: Label,
    sign: i64,
    w: &mut Work,
) -> Side
    requires { Limits p.now
        × (root.0 < p.now.labels)
        × (other.0 < p.now.labels)
        × IsSign sign
        × ChainsOf p.now mark.now chains.now }
    ensures { SideSays p.now mark.now root.0 other.0 sign result w.old w.new }
{
    search_along(p, mark, chains, root, w);
    let sums = sums(p, w);
    let mut held = [0i64; LABELS];
    surplus(p, w, sums, sign, &mut held);
    let mut share = [0i64; LABELS];
    let joined = shared(p, other, sums.weight, w, &mut share);
    eliminate(w, &mut held);
    eliminate(w, &mut share);
    Side {
        count: w.count,
        sums,
        joined,
        first: least_break(p, sign, w, &held, &share),
    }
}
