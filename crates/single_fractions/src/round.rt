// Rounding to whole units, by either rule for halves, with refusal 12.
ghost use Rattle.std.specs.Prelude.{◌≡◌, pos, ◌≤ℤ◌};
ghost use Rattle.exact.specs.Divide.{InRange};
ghost use Rattle.single_fractions.specs.RoundingCases.{AgainstHalf};
ghost use Rattle.exact.specs.Nearest.{round_ties_to_away};
ghost use Rattle.single_fractions.specs.Round.{rounded, whole_of};

use crate::half_up::half_up;
use crate::places::within_places;
use crate::{Rounded, Ties};
use ground::Refusal;
use ground::rules::Rule;
use std::cmp::Ordering;

// The whole number given, which is 0 for a refusal.
pub fn whole_of(answer: Rounded) -> i64
    ensures { result ≡ whole_of answer }
{
    answer.unwrap_or(0)
}

// How the remainder of a magnitude by den stands to half of den: under, at or over it.
fn against_half(magnitude: i64, den: i64) -> Ordering
    requires { (pos 0 ≤ℤ magnitude) × InRange (record { num = magnitude; den = den }) }
    ensures { AgainstHalf result magnitude den }
{
    (2 * (magnitude % den)).cmp(&den)
}

// The nearest whole number to num/den, halves away from zero, by six cases: zero or above and below zero, and for each
// the remainder of the magnitude under, at or over half.
fn ties_to_away(num: i64, den: i64) -> i64
    requires { InRange (record { num = num; den = den }) }
    ensures { result ≡ round_ties_to_away num den }
{
    if num >= 0 {
        let part = num / den;
        match against_half(num, den) {
            Ordering::Less => part,
            Ordering::Equal => part + 1,
            Ordering::Greater => part + 1,
        }
    } else {
        let magnitude = -num;
        let part = magnitude / den;
        match against_half(magnitude, den) {
            Ordering::Less => -part,
            Ordering::Equal => -(part + 1),
            Ordering::Greater => -(part + 1),
        }
    }
}

// Rounds a fraction to the nearest whole unit, or refuses it with 12. Any two numbers may be given.
pub fn round(ties: Ties, num: i64, den: i64) -> Rounded
    ensures { result ≡ rounded ties num den }
{
    if !within_places(num, den) {
        return Err(Refusal::at(Rule::Place, 0));
    }
    match ties {
        Ties::AwayFromZero => Ok(ties_to_away(num, den)),
        Ties::Up => Ok(half_up(num, den)),
    }
}
