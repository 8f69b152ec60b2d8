// The lent rows: a list goes into their first places.

ghost use Rattle.std.specs.Prelude.{◌≤◌, ◌≡◌, ◌++◌, length, drop};
ghost use Rattle.rules.specs.Limits.{titles_max};
ghost use Rattle.planner.specs.inner.Steps.{first_of};

use rules::TITLES_MAX;

// Writes the first places of one row into those of another; later places stay.
pub fn write(from: &[u64; TITLES_MAX], many: usize, to: &mut [u64])
    requires { (many ≤ titles_max) × (many ≤ length to.old) }
    ensures { to.new ≡ first_of from.now many ++ drop many to.old }
{
    to[..many].copy_from_slice(&from[..many]);
}
