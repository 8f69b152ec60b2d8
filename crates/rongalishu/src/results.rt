// Numbers that a call gives back besides its answer go into the first places of a lent row; later places stay.

ghost use Rattle.std.specs.Prelude.{◌≤◌, ◌≡◌, length};
ghost use Rattle.rongalishu.specs.Results.{resulting};

use rules::DONE;

// An answer; its numbers go into a row that has their places where it is done.
pub fn give(answer: u8, numbers: &[u64], row: &mut [u64]) -> u8
    requires { length numbers.now ≤ length row.old }
    ensures answers { result ≡ answer }
    ensures leaves { row.new ≡ resulting answer numbers.now row.old }
{
    if answer == DONE {
        row[..numbers.len()].copy_from_slice(numbers);
    }
    answer
}
