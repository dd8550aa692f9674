// The fractions that refusal 12 does not meet.
ghost use Rattle.std.specs.Prelude.{◌≡◌};
ghost use Rattle.single_fractions.specs.Places.{within_places};

use ground::limits::{PLACE_DEN_MOST, PLACE_NUM_MOST};

// Whether a fraction is within the limits of a place.
#[tactic(auto, using(crate::proofs::PlaceLimits::at_most, crate::proofs::PlaceLimits::places_are))]
pub(crate) fn within_places(num: i64, den: i64) -> bool
    ensures { result ≡ within_places num den }
{
    (1..=PLACE_DEN_MOST).contains(&den) && num.unsigned_abs() <= PLACE_NUM_MOST as u64
}
