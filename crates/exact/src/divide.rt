// The greatest common divisor, and fractions in lowest terms.
ghost use Rattle.std.specs.Prelude.{◌≡◌, pos, ◌<ℤ◌};
ghost use Rattle.std.specs.Int.Signed.{rem_z};
ghost use Rattle.exact.specs.Fraction.{Reduced};
ghost use Rattle.exact.specs.Divide.{GreatestCommonDivisor, IsDivisor};

use crate::Fraction;
use crate::known::{Divisor, no_divisor};

// The greatest common divisor, by Euclid's remainders.
// Each is taken to the nearer multiple, so that y at least halves at every turn.
pub fn gcd(a: u64, b: u64) -> u64
    ensures { GreatestCommonDivisor a b result }
{
    let mut x = a;
    let mut y = b;
    while y != 0 {
        let rest = x % y;
        x = y;
        y = rest.min(y - rest);
    }
    x
}

// The divisor of a fraction: the one known before, where denominator and remainder are the same.
// The remainder stands in for the numerator, so that no magnitude overflows.
pub fn divisor(num: i64, den: i64, before: Divisor) -> Divisor
    requires { (pos 0 <ℤ den) × IsDivisor before }
    ensures { IsDivisor result × (result.den ≡ den) × (result.rest ≡ rem_z num den) }
{
    let rest = num % den;
    if den == before.den && rest == before.rest {
        return before;
    }
    Divisor {
        den,
        rest,
        common: gcd(den.unsigned_abs(), rest.unsigned_abs()) as i64,
    }
}

// The same fraction in lowest terms, by its divisor. By 1 nothing is divided.
pub fn lowest_by(num: i64, den: i64, d: Divisor) -> Fraction
    requires { IsDivisor d × (d.den ≡ den) × (d.rest ≡ rem_z num den) }
    ensures { Reduced (record { num = num; den = den }) result }
{
    let g = d.common;
    if g == 1 {
        return Fraction { num, den };
    }
    Fraction {
        num: num / g,
        den: den / g,
    }
}

// The same fraction in lowest terms.
pub fn lowest(num: i64, den: i64) -> Fraction
    requires { pos 0 <ℤ den }
    ensures { Reduced (record { num = num; den = den }) result }
{
    lowest_by(num, den, divisor(num, den, no_divisor()))
}
