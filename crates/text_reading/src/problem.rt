// A text read as the problem that it tells, for those that own what they read.
ghost use Rattle.std.specs.Prelude.{◌≡◌, ◌≤◌, IfOk, take};
ghost use Rattle.ground.specs.Limits.{gaps_most, labels_most};
ghost use Rattle.text_reading.specs.Problems.{problem_read};

use crate::Unread;
use crate::read::read_sheet;
use ground::limits::{GAPS, LABELS};
use ground::lists::Lists;
use ground::problem::Problem;

// Reads a text. What stands in the problem's arrays past its labels and gaps is 0.
pub fn read_problem(text: &[u8]) -> Result<Problem, Unread>
    ensures read { result ≡ problem_read text.now }
    ensures within { IfOk result (λ p. (p.labels ≤ labels_most) × (p.gaps ≤ gaps_most)) }
{
    let mut wanted = [0; LABELS];
    let mut weight = [0; LABELS];
    let mut left = [0; GAPS];
    let mut right = [0; GAPS];
    let mut distance = [0; GAPS];
    let mut kind = [0; GAPS];
    let counts = read_sheet(
        text,
        &mut wanted,
        &mut weight,
        &mut left,
        &mut right,
        &mut distance,
        &mut kind,
    )?;
    Ok(Problem {
        labels: counts.labels,
        gaps: counts.gaps,
        left,
        right,
        distance,
        kind,
        wanted,
        weight,
    })
}

// What is told of the problem's labels and gaps, as lists.
pub fn lists_of(p: &Problem) -> Lists<'_>
    requires { (p.now.labels ≤ labels_most) × (p.now.gaps ≤ gaps_most) }
    ensures wanted { result.wanted.now ≡ take p.now.labels p.now.wanted }
    ensures weight { result.weight.now ≡ take p.now.labels p.now.weight }
    ensures left { result.left.now ≡ take p.now.gaps p.now.left }
    ensures right { result.right.now ≡ take p.now.gaps p.now.right }
    ensures distance { result.distance.now ≡ take p.now.gaps p.now.distance }
    ensures kind { result.kind.now ≡ take p.now.gaps p.now.kind }
{
    Lists {
        wanted: &p.wanted[..p.labels],
        weight: &p.weight[..p.labels],
        left: &p.left[..p.gaps],
        right: &p.right[..p.gaps],
        distance: &p.distance[..p.gaps],
        kind: &p.kind[..p.gaps],
    }
}
