// What one lane more is worth to a title. A request that weighs titles otherwise changes `gain`, and no other function.
ghost use Rattle.std.specs.Prelude.{◌≡◌};
ghost use Rattle.sharing_titles.specs.Term.{worth};
ghost use Rattle.sharing_titles.specs.inner.Weighing.{Weighable};

use super::titles::Rated;

// What the sum loses when the title with count k gets one lane more, a whole number; 0 at its cap. A lane more halves
// the slot, so that what is lost is as much as what is left.
pub fn gain(t: Rated, k: u32) -> u64
    requires { Weighable t }
    ensures { result ≡ worth t k }
{
    let cap = t.cap as u64;
    let count = k as u64;
    if count < cap {
        let tick = grid::tick(t.length as u64, t.floor as u64, cap);
        let slot = tick * grid::slot(cap, count + 1);
        (t.rate as u64) * slot
    } else {
        0
    }
}
