// A notice's bytes as the console writes them.

ghost use Rattle.notice.specs.Encode.{bytes_of};
ghost use Rattle.text.specs.Pages.{Puts};
ghost use Rattle.text.specs.Digits.{hex_text};

use notice::Notice;
use text::page::Page;

// A notice's bytes in hexadecimal.
pub fn put_bytes(page: &mut Page<'_>, n: Notice)
    ensures { Puts page.old (hex_text (bytes_of n)) page.new }
{
    let mut room = [0u8; notice::LONGEST_NOTICE];
    notice::write(n, &mut room);
    let size = notice::size(n);
    page.put_hex(&room[..size]);
}
