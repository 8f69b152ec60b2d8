// The numbers that are given, within their limits.

ghost use Rattle.std.specs.Prelude.{◌≡◌};
ghost use Rattle.playouts.specs.Playout.{playout_limits};

use judging::TICKS_MAX;
use rules::{ASKED_MAX, ID_MAX, POOL_MAX, POOL_MIN, within};

pub fn in_limits(pool: u64, title: u64, from: u64, ticks: u64) -> bool
    ensures { result ≡ playout_limits pool title from ticks }
{
    within(POOL_MIN, POOL_MAX, pool)
        && title <= ID_MAX
        && from <= ASKED_MAX
        && within(1, TICKS_MAX as u64, ticks)
}
