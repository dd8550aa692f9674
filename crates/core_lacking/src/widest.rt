// Of the gaps into a block the one that lacks most, for the first guess.
ghost use Rattle.std.specs.Prelude.{◌<◌};
ghost use Rattle.core_guess.specs.Guess.{Guessed};
ghost use Rattle.ground.specs.Limits.{gaps_most};

use core_guess::doubles::{TOLERANCE, double};
use core_links::state::{Links, MaybeGap, Spots, entry};
use ground::limits::{EXACTLY, GAPS};
use ground::problem::Problem;
use ground::{Block, GapNumber, Label};

// Whether gap e starts in block b.
pub fn is_from(e: GapNumber, b: Block, p: &Problem, links: &Links) -> bool
    requires { e.0 < gaps_most }
    ensures { Guessed result }
{
    links.block_of(Label(p.left[e.0])) == b
}

// A gap that lacks, if one does, and how much.
#[derive(Clone, Copy, Debug, PartialEq)]
struct Lead {
    gap: Option<GapNumber>,
    lack: f64,
}

// Gap e if it lacks more than the lead, else the lead. A gap of no kind is passed over.
fn wider(e: GapNumber, lead: Lead, p: &Problem, links: &Links, spots: &Spots) -> Lead
    requires { e.0 < gaps_most }
{
    let from = spots.place_of(Label(p.left[e.0]), links);
    let lack = from + double(p.distance[e.0]) - spots.place_of(Label(p.right[e.0]), links);
    if lead.lack < lack && p.kind[e.0] <= EXACTLY {
        return Lead { gap: Some(e), lack };
    }
    lead
}

// Takes gap e out of the circle of block b. The gap before it stays, and the circle ends there if it ended with gap e. No gap is left
// where that is gap e itself.
fn take_out(e: GapNumber, stays: MaybeGap, b: Block, links: &mut Links)
    requires { e.0 < gaps_most }
{
    let out = MaybeGap::of(e);
    let i = entry(b);
    links.circle[usize::from(stays.0)] = links.after(out);
    if links.end[i] == out {
        links.end[i] = if stays == out { MaybeGap::NONE } else { stays };
    }
}

// The gap into the block of label x from another one that lacks most. Gaps within the block are taken out of its circle on the way.
pub fn widest(x: Label, p: &Problem, links: &mut Links, spots: &Spots) -> Option<GapNumber>
    ensures { Guessed links.new × Guessed result }
{
    let b = links.block_of(x);
    let last = links.end[entry(b)];
    if !last.is_gap() {
        return None;
    }
    let mut lead = Lead {
        gap: None,
        lack: TOLERANCE,
    };
    let mut stays = last;
    for _ in 0..GAPS {
        let at = links.after(stays);
        if !at.is_gap() {
            break;
        }
        let e = at.number();
        if is_from(e, b, p, links) {
            take_out(e, stays, b, links);
        } else {
            lead = wider(e, lead, p, links, spots);
            stays = at;
        }
        if at == last {
            break;
        }
    }
    lead.gap
}
