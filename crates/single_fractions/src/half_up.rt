// The nearest whole number, halves to the larger one.
ghost use Rattle.std.specs.Prelude.{◌≡◌, true, pos, nat_abs, ◌<ℤ◌};
ghost use Rattle.exact.specs.Nearest.{floor_of, round_half_up};
ghost use Rattle.single_fractions.specs.Places.{within_places};

// The largest whole number at most num/den.
fn floor(num: i64, den: i64) -> i64
    requires { pos 0 <ℤ den }
    ensures { result ≡ floor_of num (nat_abs den) }
{
    num.div_euclid(den)
}

// The nearest whole number to num/den, halves to the larger one: the largest at most num/den + 1/2.
#[tactic(auto, using(crate::proofs::PlaceLimits::places_passed))]
pub(crate) fn half_up(num: i64, den: i64) -> i64
    requires { within_places num den ≡ true }
    ensures { result ≡ round_half_up num den }
{
    floor(2 * num + den, 2 * den)
}
