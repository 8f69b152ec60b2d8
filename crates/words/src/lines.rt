// A text of which each line ends in a newline, and one line of it.

ghost use Rattle.std.specs.Prelude.{◌≡◌, ◌≤◌, length, drop};
ghost use Rattle.text.specs.Pages.{Puts};
ghost use Rattle.words.specs.Lines.{line_numbered, after_first};

use text::bytes;
use text::bytes::Sort;
use text::page::Page;

// The place behind the newline that ends the line at a place; the text's end where none does.
fn behind(text: &[u8], from: usize) -> usize
    ensures { (drop result text.now ≡ after_first (drop from text.now))
        × (result ≤ length text.now) }
{
    let end = bytes::run_end(text, from, Sort::Line);
    if end < text.len() {
        end + 1
    } else {
        text.len()
    }
}

// Where the k-th line begins, from 0.
fn line_start(text: &[u8], k: u8) -> usize
    ensures { (line_numbered (drop result text.now) 0 ≡ line_numbered text.now k)
        × (result ≤ length text.now) }
{
    let mut from = 0;
    for _ in 0..k {
        from = behind(text, from);
    }
    from
}

// Writes the k-th line, from 0, without its newline; nothing where the text has no such line.
pub fn put_line(page: &mut Page<'_>, text: &[u8], k: u8)
    ensures { Puts page.old (line_numbered text.now k) page.new }
{
    let from = line_start(text, k);
    let end = bytes::run_end(text, from, Sort::Line);
    page.put(&text[from..end]);
}
