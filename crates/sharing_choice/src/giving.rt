// Lanes given one at a time, each to the title to which it is worth most: work grows with lanes times titles.
ghost use Rattle.std.specs.Prelude.{◌≡◌, ◌+◌, length};
ghost use Rattle.sharing_titles.specs.Titles.{titles, row_total};
ghost use Rattle.sharing_choice.specs.Choice.{Way, shared};
ghost use Rattle.sharing_titles.specs.inner.Weighing.{Sound};
ghost use Rattle.sharing_choice.specs.inner.Giving.{Fillable, Neediest};

use sharing_titles::term::gain;
use sharing_titles::titles::{floor_total, title_at};

// The title that gets the next lane, the first of several alike; the number of titles where all are at their caps.
fn next_title(rates: &[u32], lengths: &[u32], floors: &[u32], caps: &[u32], counts: &[u32]) -> usize
    requires sound { Sound rates.now lengths.now floors.now caps.now }
    requires way { Way (titles rates.now lengths.now floors.now caps.now) counts.now }
    ensures { Neediest
        (titles rates.now lengths.now floors.now caps.now) counts.now result }
{
    let n = rates.len();
    let mut best = n;
    let mut most: u64 = 0;
    for i in 0..n {
        let t = title_at(rates, lengths, floors, caps, i);
        let worth = gain(t, counts[i]);
        // a gain is never 0 below the cap, so the first title that has one is taken, and a tie stays with the earlier
        if most < worth {
            best = i;
            most = worth;
        }
    }
    best
}

// From the floors on, the spare lanes are given out, as many as the caps admit.
fn give(
    rates: &[u32],
    lengths: &[u32],
    floors: &[u32],
    caps: &[u32],
    spare: u64,
    counts: &mut [u32],
)
    requires sound { Sound rates.now lengths.now floors.now caps.now }
    requires counts_value { counts.old ≡ floors.now }
    ensures { counts.new ≡ shared (row_total floors.now + spare)
        (titles rates.now lengths.now floors.now caps.now) }
{
    for _ in 0..spare {
        let at = next_title(rates, lengths, floors, caps, counts);
        if at < rates.len() {
            counts[at] += 1;
        }
    }
}

// The shared counts, into a row with one place to a title.
pub fn fill(
    pool: u64,
    rates: &[u32],
    lengths: &[u32],
    floors: &[u32],
    caps: &[u32],
    counts: &mut [u32],
)
    requires { Fillable pool rates.now lengths.now floors.now caps.now counts.old }
    ensures { counts.new ≡ shared pool
        (titles rates.now lengths.now floors.now caps.now) }
{
    // kept: std's copy is compiled to memmove here, which who links the C library need not have (docs/LIBRARY.md)
    for i in 0..floors.len() {
        counts[i] = floors[i];
    }
    let spare = pool - floor_total(floors);
    give(rates, lengths, floors, caps, spare, counts);
}
