// Right place less left place less distance, which is the slack of a gap before lowest terms are taken.
ghost use Rattle.std.specs.Prelude.{◌≡◌, ◌≤◌, nat_abs};
ghost use Rattle.ground.specs.Limits.{distance_most};
ghost use Rattle.exact.specs.Slack.{Measurable, difference};

use crate::Fraction;

// The slack of a gap, over the product of the denominators. Whether the gap holds is told by its sign, which lowest
// terms keep; so they are taken only where the slack itself is asked for.
pub fn between(left: Fraction, right: Fraction, distance: i64) -> Fraction
    requires { Measurable left × Measurable right × (nat_abs distance ≤ distance_most) }
    ensures { result ≡ difference left right distance }
{
    let both = left.den * right.den;
    let apart = right.num * left.den - left.num * right.den;
    Fraction {
        num: apart - distance * both,
        den: both,
    }
}
