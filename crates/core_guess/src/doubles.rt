// Doubles, in which the guesses count.
ghost use Rattle.std.specs.Prelude.{◌≡◌};
ghost use Rattle.core_guess.specs.WholeDoubles.{bounded, double_of};

// A gap that lacks less than this holds: places are rounded.
pub const TOLERANCE: f64 = 0.000001;

// Whole numbers up to this, either way, are doubles. Those of a sheet are far below.
const WHOLE_MOST: i64 = 1000000000000;

// A number, or 0 for one beyond the bound. (A function of its own, which compiles to a choice without a branch.)
fn within_bound(x: i64) -> i64
    ensures { result ≡ bounded x }
{
    if x < -WHOLE_MOST || WHOLE_MOST < x {
        return 0;
    }
    x
}

// A number as a double. Those beyond the bound count as 0.
pub fn double(x: i64) -> f64
    ensures { result ≡ double_of x }
{
    within_bound(x) as f64
}
