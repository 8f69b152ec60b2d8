// A title's numbers, gathered from the four rows.
ghost use Rattle.std.specs.Prelude.{◌≡◌, ◌≤◌, ◌<◌, length};
ghost use Rattle.rules.specs.Limits.{titles_max};
ghost use Rattle.sharing_titles.specs.Titles.{rated_title, titles, row_total, SameLengths};

// What the sharing knows of a title.
#[derive(Clone, Copy)]
pub struct Rated {
    pub rate: u32,
    pub length: u32,
    pub floor: u32,
    pub cap: u32,
}

// The title at a place of the rows.
pub fn title_at(rates: &[u32], lengths: &[u32], floors: &[u32], caps: &[u32], i: usize) -> Rated
    requires same_lengths { SameLengths rates.now lengths.now floors.now caps.now }
    requires i_in_bounds { i < length rates.now }
    ensures { result
        ≡ rated_title (titles rates.now lengths.now floors.now caps.now) i }
{
    Rated {
        rate: rates[i],
        length: lengths[i],
        floor: floors[i],
        cap: caps[i],
    }
}

// The floors together: what any choice takes at least.
pub fn floor_total(floors: &[u32]) -> u64
    requires { length floors.now ≤ titles_max }
    ensures { result ≡ row_total floors.now }
{
    let mut sum: u64 = 0;
    for floor in floors {
        sum += u64::from(*floor);
    }
    sum
}
