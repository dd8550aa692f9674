// The core on plain slices.
ghost use Rattle.core_project.specs.Project.{Held, Listed, ProjectSays, Ready, buffers_lent, buffers_now, problem_in};

use crate::Projected;
use crate::solve::solve;
use crate::write::fractions_out;
use core_forest::state::State;
use core_ring::Ring;
use ground::copies::copy_front;
use ground::limits::{GAPS, LABELS};
use ground::lists::Lists;
use ground::problem::Problem;

// Takes the sheet into work arrays. (They are the caller's, so that none is copied.)
fn take(lists: Lists, p: &mut Problem)
    requires { Listed (problem_in lists) }
    ensures { Held (problem_in lists.entry) p.new }
{
    let labels = lists.wanted.len();
    let gaps = lists.left.len();
    p.labels = labels;
    p.gaps = gaps;
    copy_front(gaps, lists.left, &mut p.left);
    copy_front(gaps, lists.right, &mut p.right);
    copy_front(gaps, lists.distance, &mut p.distance);
    copy_front(gaps, lists.kind, &mut p.kind);
    copy_front(labels, lists.wanted, &mut p.wanted);
    copy_front(labels, lists.weight, &mut p.weight);
}

// Finds the least move. Placed: the first entries of the buffers hold places and multipliers in lowest terms, and the carried bytes the
// marks, which no ignored gap has. Otherwise a ring stands in the front of the ring buffer, with 1 in the back buffer beside a gap that is
// passed backwards and 0 beside any other. Nothing else is changed. (The buffers are lent one by one, as those who call `lay_out` lend them.)
pub fn project(
    lists: Lists,
    carried: &mut [u8],
    place_num: &mut [i64],
    place_den: &mut [i64],
    mult_num: &mut [i64],
    mult_den: &mut [i64],
    ring: &mut [usize],
    back: &mut [u8],
) -> Projected
    requires { Ready (problem_in lists) (buffers_now place_num place_den mult_num mult_den carried ring back) }
    ensures { let b = buffers_lent place_num place_den mult_num mult_den carried ring back in
        ProjectSays (problem_in lists.entry) result b.entry b.exit }
{
    let mut p = Problem {
        labels: 0,
        gaps: 0,
        left: [0; GAPS],
        right: [0; GAPS],
        distance: [0; GAPS],
        kind: [0; GAPS],
        wanted: [0; LABELS],
        weight: [0; LABELS],
    };
    take(lists, &mut p);
    let mut proposed = [0u8; GAPS];
    copy_front(p.gaps, carried, &mut proposed);
    let mut s = State::new();
    let mut found = Ring::new();
    if let Err(size) = solve(&p, &proposed, &mut s, &mut found) {
        copy_front(size.0, &found.gaps, ring);
        copy_front(size.0, &found.back, back);
        return Err(size);
    }
    fractions_out(p.labels, &s.num, &s.den, place_num, place_den);
    fractions_out(p.gaps, &s.load, &s.over, mult_num, mult_den);
    copy_front(p.gaps, &s.mark, carried);
    Ok(())
}
