// The buffer between what was read and the lines in it: a line goes from its start up to the newline that
// `bytes::run_end` finds with `Sort::Line`; what is left of a block moves to the buffer's front before the next is read.

ghost use Rattle.text.specs.Feed.{Moved};

// Moves the bytes from `from` up to `to` to the buffer's front and gives back how many they are. Bytes past them stay.
// Where the places are no part of the buffer, nothing moves.
pub fn compact(buffer: &mut [u8], from: usize, to: usize) -> usize
    ensures { Moved buffer.old from to buffer.new result }
{
    if buffer.len() < to || to < from {
        return 0;
    }
    buffer.copy_within(from..to, 0);
    to - from
}
