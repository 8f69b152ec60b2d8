// Whether numbers are what a limit allows: what the calls' code shares.

ghost use Rattle.std.specs.Prelude.{◌≤◌, ◌≡◌, leb, length, get_or};
ghost use Rattle.rules.specs.Search.{every};

// The first n numbers of a row are at most a limit.
pub fn row_within(row: &[u64], n: usize, most: u64) -> bool
    requires { n ≤ length row.now }
    ensures { result ≡ every (λ j. leb (get_or row.now j 0) most) n }
{
    row[..n].iter().all(|x| *x <= most)
}
