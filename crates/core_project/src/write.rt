// Results written to the front of lent lists.
ghost use Rattle.std.specs.Prelude.{◌≡◌, ℕ, ◌<◌, ◌≤◌, length, pos, ◌≤ℤ◌, ◌<ℤ◌};
ghost use Rattle.exact.specs.Divide.{IsDivisor};
ghost use Rattle.exact.specs.Fraction.{Reduced};
ghost use Rattle.ground.specs.Entries.{int};
ghost use Rattle.core_project.specs.Project.{FractionsWritten};

use exact::Fraction;
use exact::divide::{divisor, lowest_by};
use exact::known::{Divisor, no_divisor};

// A fraction in lowest terms, by the divisor known, which is that of the fraction then. Most multipliers are zero, which takes no
// division.
fn reduced(num: i64, den: i64, known: &mut Divisor) -> Fraction
    requires { (pos 0 <ℤ den) × IsDivisor known.old }
    ensures { Reduced (record { num = num; den = den }) result × IsDivisor known.new }
{
    if num == 0 {
        return Fraction { num: 0, den: 1 };
    }
    *known = divisor(num, den, *known);
    lowest_by(num, den, *known)
}

// Writes fractions in lowest terms. Those of one block often share the divisor. (Numerators and denominators are lists of their own, as C
// lends them.)
pub(crate) fn fractions_out(
    count: usize,
    num: &[i64],
    den: &[i64],
    upper: &mut [i64],
    lower: &mut [i64],
)
    requires { (count ≤ length num.now)
        × (count ≤ length den.now)
        × (count ≤ length upper.old)
        × (count ≤ length lower.old)
        × ((k : ℕ) → k < count → pos 1 ≤ℤ int den.now k) }
    ensures { FractionsWritten count num.now den.now upper.old lower.old upper.new lower.new }
{
    let mut known = no_divisor();
    for k in 0..count {
        let q = reduced(num[k], den[k], &mut known);
        upper[k] = q.num;
        lower[k] = q.den;
    }
}
