// The divisor that is known from one fraction to the next.
ghost use Rattle.std.specs.Prelude.{◌≡◌};
ghost use Rattle.exact.specs.Divide.{no_divisor};

// A denominator, the remainder of a numerator by it, and their greatest common divisor.
#[derive(Clone, Copy, Debug, PartialEq, Eq)]
pub struct Divisor {
    pub den: i64,
    pub rest: i64,
    pub common: i64,
}

impl Divisor {
    // The divisor of 0/1, where none is known before.
    pub const NONE: Divisor = Divisor {
        den: 1,
        rest: 0,
        common: 1,
    };
}

// The same from a call, since the contract of a function can say what it is.
pub fn no_divisor() -> Divisor
    ensures { result ≡ no_divisor }
{
    Divisor::NONE
}
