// Marks that are carried.
ghost use Rattle.std.specs.Prelude.{◌≤◌, ◌≡◌};
ghost use Rattle.core_guess.specs.Guess.{any_marked};
ghost use Rattle.ground.specs.Limits.{gaps_most};

use ground::limits::GapBytes;

// Whether a gap is marked in a carried record. (Without a way out of the loop, so that a vector holds many marks.)
pub fn any_marked(gaps: usize, carried: &GapBytes) -> bool
    requires { gaps ≤ gaps_most }
    ensures { result ≡ any_marked gaps carried.now }
{
    let mut some = false;
    for e in 0..gaps {
        if carried[e] == 1 {
            some = true;
        }
    }
    some
}
