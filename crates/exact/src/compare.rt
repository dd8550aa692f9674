// The order of two fractions.
ghost use Rattle.std.specs.Prelude.{◌≡◌};
ghost use Rattle.exact.specs.Divide.{InRange, order_of};

use crate::Fraction;
use std::cmp::Ordering;

// Where a stands to b: by the whole parts, and by the remainders only where those agree,
// so that no product overflows.
pub fn compare(a: Fraction, b: Fraction) -> Ordering
    requires { InRange a × InRange b }
    ensures { result ≡ order_of a b }
{
    let p = a.num / a.den;
    let q = b.num / b.den;
    if p != q {
        return p.cmp(&q);
    }
    let x = (a.num % a.den) * b.den;
    let y = (b.num % b.den) * a.den;
    x.cmp(&y)
}
