// Numbers of a line that stand the same number of places apart: one of each title.

ghost use Rattle.std.specs.Prelude.{◌≡◌, ◌≤◌, length};
ghost use Rattle.console_commands.specs.Commands.{titles_most, title_numbers};
ghost use Rattle.console_pools.specs.Shares.{column as column_of};

use console_commands::commands::TITLES_MOST;
use console_lines::lines::NUMBERS_MOST;
use text::numbers;

// From a place on, each at most the largest of four bytes.
pub fn column(row: &[u64; NUMBERS_MOST], first: usize, apart: usize) -> [u32; TITLES_MOST]
    requires { (first ≤ title_numbers) × (apart ≤ title_numbers) }
    ensures { (result ≡ column_of row.now first apart titles_most) × (length result ≡ titles_most) }
{
    let mut c = [0u32; TITLES_MOST];
    for (i, n) in c.iter_mut().enumerate() {
        *n = numbers::as_four_bytes(row[first + apart * i]);
    }
    c
}
