// The small box: its table, filled for a line that asks it, and the words for a title that it does not know.

ghost use Rattle.text.specs.Pages.{Puts};
ghost use Rattle.console_boxes.specs.Small.{small_text};
ghost use Rattle.rom_table.specs.Table.{IsTable};

use rom_table::{ENTRIES, ROM_CAP, ROM_FLOOR};
use text::page::Page;

pub fn table() -> [u16; ENTRIES]
    ensures { IsTable result }
{
    let mut numbers = [0; ENTRIES];
    rom_table::fill(&mut numbers);
    numbers
}

pub fn put_small(page: &mut Page<'_>)
    ensures { Puts page.old small_text page.new }
{
    page.put(b", the small box has floor ");
    page.put_number(ROM_FLOOR);
    page.put(b" and cap ");
    page.put_number(ROM_CAP);
    page.put(b" alone");
}
