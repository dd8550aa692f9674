// The labels in the order of the gaps: the left label of a gap comes before the right one, but for gaps that close a ring. The
// search goes depth first from a label to those on the left of the gaps into it.
ghost use Rattle.std.specs.Prelude.{◌≤◌, ◌<◌};
ghost use Rattle.core_guess.specs.Guess.{Wished};
ghost use Rattle.ground.specs.Limits.{gaps_most, labels_most};

use core_guess::doubles::double;
use core_guess::room::ROOM;
use core_links::state::{Links, MaybeGap};
use ground::limits::{GAPS, GapBytes};
use ground::problem::Problem;
use ground::{GapNumber, Label};

// Steps of the search: it opens each label, is done with it, and looks at each gap, and again at one through which it came back.
const STEPS: usize = 512;

// How many labels are open, each found from the one before, and how many are done.
#[derive(Drop)]
struct Search {
    opened: usize,
    done: usize,
}

impl Search {
    // Label x is opened. (With no gap into it this looks after none, where none comes.)
    fn open(&mut self, x: Label, links: &mut Links) {
        let i = x.0 % ROOM;
        self.opened = self.opened % ROOM + 1;
        links.look[i] = links.after(links.end[i]);
        links.opened[self.opened % ROOM] = i as u8;
    }

    // Label x, the last open one, is done.
    fn finish(&mut self, x: Label, links: &mut Links)
        requires { 1 ≤ self.old.opened }
    {
        let i = x.0 % ROOM;
        let n = self.done % ROOM;
        links.look[i] = MaybeGap::DONE;
        links.done[n] = i as u8;
        self.opened -= 1;
        self.done = n + 1;
    }

    // Begins at label x, if it is new.
    fn begin(&mut self, x: Label, links: &mut Links) {
        if links.look[x.0 % ROOM] == MaybeGap::NEW {
            self.open(x, links);
        }
    }

    // Goes on at the last open label: looks at its next gap, or is done with it. Gives the gap if it comes from a label that is open:
    // it closes a ring.
    fn go_on(&mut self, p: &Problem, links: &mut Links) -> Option<GapNumber>
        requires { 1 ≤ self.old.opened }
    {
        let x = Label(usize::from(links.opened[self.opened % ROOM]));
        let look = links.look[x.0 % ROOM];
        if !look.is_gap() {
            self.finish(x, links);
            return None;
        }
        let e = look.number();
        let u = Label(p.left[e.0]);
        let state = links.look[u.0 % ROOM];
        if state == MaybeGap::NEW {
            self.open(u, links);
            return None;
        }
        links.look[x.0 % ROOM] = look_after(e, x, links);
        if state == MaybeGap::DONE {
            return None;
        }
        Some(e)
    }
}

// What there is to look at of label x after gap e: no gap after the last in the circle.
fn look_after(e: GapNumber, x: Label, links: &Links) -> MaybeGap
    requires { e.0 < gaps_most }
{
    let here = MaybeGap::of(e);
    if links.end_of(x) == here {
        return MaybeGap::NONE;
    }
    links.after(here)
}

// Whether gap f goes from where gap e ends and has the negated distance.
fn opposes(f: GapNumber, e: GapNumber, p: &Problem) -> bool
    requires { (f.0 < gaps_most) × (e.0 < gaps_most) }
{
    p.left[f.0] == p.right[e.0] && double(p.distance[f.0]) == -double(p.distance[e.0])
}

// Whether a gap the other way with the negated distance stands beside gap e: the two are as good as an exact gap.
fn is_opposed(e: GapNumber, p: &Problem, links: &Links) -> bool
    requires { e.0 < gaps_most }
{
    let last = links.end_of(Label(p.left[e.0]));
    let mut at = last;
    for _ in 0..GAPS {
        at = links.after(at);
        if at.is_gap() && opposes(at.number(), e, p) {
            return true;
        }
        if at == last {
            return false;
        }
    }
    false
}

// Whether every gap goes from a label to a later one: then the labels are in order as they are numbered.
fn is_rising(p: &Problem) -> bool
    requires { p.now.gaps ≤ gaps_most }
{
    for e in 0..p.gaps {
        if p.right[e] <= p.left[e] {
            return false;
        }
    }
    true
}

// Brings the labels in order, without a search where none is needed. Wishes gaps that close a ring and that opposite gaps make exact.
// Says whether no gap closes a ring.
pub fn in_order(p: &Problem, links: &mut Links, wish: &mut GapBytes) -> bool
    requires { (p.now.labels ≤ labels_most) × (p.now.gaps ≤ gaps_most) }
    ensures { Wished p.now.gaps wish.old wish.new }
{
    if is_rising(p) {
        return true;
    }
    let mut search = Search { opened: 0, done: 0 };
    let mut straight = true;
    let mut next = 0;
    for _ in 0..STEPS {
        if search.opened == 0 {
            if p.labels <= next {
                return straight;
            }
            search.begin(Label(next), links);
            next += 1;
        } else if let Some(e) = search.go_on(p, links) {
            if e.0 < p.gaps {
                straight = false;
                if is_opposed(e, p, links) {
                    wish[e.0] = 1;
                }
            }
        }
    }
    straight
}
