// How far a place of a window is from its end.

ghost use Rattle.std.specs.Prelude.{◌≡◌};
ghost use Rattle.journals.specs.Start.{is_far};

use notice::LONGEST_NOTICE;

// Whether what is read at a place is settled: the longest notice would be there, or no byte will follow.
pub fn far(size: usize, place: usize, over: bool) -> bool
    ensures { result ≡ is_far size place over }
{
    over || LONGEST_NOTICE <= size.saturating_sub(place)
}
