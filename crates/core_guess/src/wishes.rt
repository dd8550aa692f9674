// Bytes in which the second guess wishes gaps: 1 for a gap that is wished, as the carried record has it for a mark.
ghost use Rattle.std.specs.Prelude.{◌≤◌};
ghost use Rattle.core_guess.specs.Guess.{Unwished, Wished};
ghost use Rattle.ground.specs.Limits.{gaps_most};

use ground::GapNumber;
use ground::limits::GapBytes;

// Wishes gap e, if there is one of that number.
pub fn wish_one(gaps: usize, e: GapNumber, wish: &mut GapBytes)
    requires { gaps ≤ gaps_most }
    ensures { Wished gaps wish.old wish.new }
{
    if e.0 < gaps {
        wish[e.0] = 1;
    }
}

// No gap is wished.
pub fn wish_none(gaps: usize, wish: &mut GapBytes)
    requires { gaps ≤ gaps_most }
    ensures { Unwished gaps wish.old wish.new }
{
    wish[..gaps].fill(0);
}
