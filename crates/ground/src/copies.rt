// Copies of the first entries of a list to the front of another; what lies behind them stays.
ghost use Rattle.std.specs.Prelude.{◌≤◌, ◌≡◌, length};
ghost use Rattle.ground.specs.Entries.{over};

// Copies so many entries.
pub fn copy_front<T: Copy>(count: usize, from: &[T], to: &mut [T])
    requires { (count ≤ length from.now) × (count ≤ length to.old) }
    ensures { to.new ≡ over count from.now to.old }
{
    to[..count].copy_from_slice(&from[..count]);
}
