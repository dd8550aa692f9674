#![tactic(auto)]
// The search for a gap that does not hold. Whether one does is told by the sign of its slack.
ghost use Rattle.std.specs.Prelude.{None, Some, ◌≡◌, ◌⊎◌, ◌≢◌, ◌+◌, ◌<◌, eqb};
ghost use Rattle.exact.specs.Fraction.{fraction_at};
ghost use Rattle.core_worst_gap.specs.WorstGap.{Comparable, WorstOf, lacking, lead_of};
ghost use Rattle.ground.specs.Limits.{labels_most};

use exact::Fraction;
use exact::difference::between;
use ground::limits::{AT_LEAST, EXACTLY, LabelInts};
use ground::problem::Problem;
use ground::{GapNumber, Label};

// A gap that does not hold, and whether it is pushed backwards.
#[derive(Clone, Copy, Debug, PartialEq, Eq)]
pub struct Lacking {
    pub gap: GapNumber,
    pub backwards: bool,
}

// The worst gap so far, and how many whole units it lacks. The tag is 0 where there is none, 1, or 2 where it is
// pushed backwards: with whole words alone the loop copies no padding. (An Option or a flag beside the gap would.)
#[derive(Clone, Copy, Debug, PartialEq, Eq)]
struct Lead {
    tag: usize,
    gap: GapNumber,
    whole: i64,
}

// The worst gap, as it is told.
fn told(lead: Lead) -> Option<Lacking>
    ensures { result ≡ lead_of lead }
{
    if lead.tag == 0 {
        return None;
    }
    Some(Lacking {
        gap: lead.gap,
        backwards: lead.tag == 2,
    })
}

// Gap e, or the lead where that is a gap: whichever lacks more whole units, so that the outer loop ends soon.
// (It ends with any gap that does not hold, so the contract leaves the choice open.)
fn better(lead: Lead, e: GapNumber, tag: usize, whole: i64) -> Lead
    requires { tag ≢ 0 }
    ensures { (lead_of result ≡ Some (lacking e (eqb tag 2)))
        ⊎ ((lead_of result ≡ lead_of lead) × (lead_of lead ≢ None)) }
{
    if lead.tag != 0 && whole <= lead.whole {
        return lead;
    }
    Lead { tag, gap: e, whole }
}

// The place of a label.
fn place_at(i: Label, num: &LabelInts, den: &LabelInts) -> Fraction
    requires { i.0 < labels_most }
    ensures { result ≡ fraction_at num.now den.now i.0 }
{
    let k = i.0;
    Fraction {
        num: num[k],
        den: den[k],
    }
}

// Takes gap e into account.
fn consider(p: &Problem, e: GapNumber, lead: Lead, num: &LabelInts, den: &LabelInts) -> Lead
    requires within { e.0 < p.now.gaps }
    requires comparable { Comparable p.now num.now den.now }
    requires worst_of { WorstOf p.now num.now den.now e.0 (lead_of lead) }
    ensures { WorstOf p.now num.now den.now (e.0 + 1) (lead_of result) }
{
    let k = e.0;
    let what = p.kind[k];
    if EXACTLY < what {
        return lead;
    }
    let from = place_at(Label(p.left[k]), num, den);
    let to = place_at(Label(p.right[k]), num, den);
    let slack = between(from, to, p.distance[k]);
    if slack.num < 0 {
        return better(lead, e, 1, -slack.num / slack.den);
    }
    if what == AT_LEAST {
        return lead;
    }
    if 0 < slack.num {
        return better(lead, e, 2, slack.num / slack.den);
    }
    lead
}

// A gap that does not hold, if there is one.
pub fn worst_gap(p: &Problem, num: &LabelInts, den: &LabelInts) -> Option<Lacking>
    requires { Comparable p.now num.now den.now }
    ensures { WorstOf p.now num.now den.now p.now.gaps result }
{
    let mut lead = Lead {
        tag: 0,
        gap: GapNumber(0),
        whole: 0,
    };
    for k in 0..p.gaps {
        lead = consider(p, GapNumber(k), lead, num, den);
    }
    told(lead)
}
