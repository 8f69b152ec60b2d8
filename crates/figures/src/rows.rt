// Two rows of numbers, computed and published.

ghost use Rattle.std.specs.Prelude.{◌≡◌};
ghost use Rattle.figures.specs.Rows.{agree as agreeing};

// Whether two rows have the same numbers.
pub fn agree(a: &[u64], b: &[u64]) -> bool
    ensures { result ≡ agreeing a.now b.now }
{
    a == b
}
