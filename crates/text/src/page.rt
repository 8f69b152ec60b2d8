// A lent row that is written from a place on. Nothing is written past the row's end: what has no room is left out.

ghost use Rattle.std.specs.Prelude.{◌≡◌, ◌∷◌, []};
ghost use Rattle.text.specs.Digits.{decimal, hex_text};
ghost use Rattle.text.specs.Pages.{Puts, Opens};

use crate::{digits, output};

#[derive(Drop)]
pub struct Page<'a> {
    pub row: &'a mut [u8],
    // the place behind what is written
    pub at: usize,
}

impl<'a> Page<'a> {
    // A row that is written from its start on.
    pub fn new(row: &'a mut [u8]) -> Page<'a>
        ensures { Opens row.entry 0 result }
    {
        Page { row, at: 0 }
    }

    // A row that is written from a place on.
    pub fn from(row: &'a mut [u8], at: usize) -> Page<'a>
        ensures { Opens row.entry at result }
    {
        Page { row, at }
    }

    // Ends the page: the place behind what is written.
    pub fn end(self) -> usize
        ensures place { result ≡ self.entry.at }
        ensures row { self.exit.0.now ≡ self.entry.row.now }
    {
        let Page { row: _, at } = self;
        at
    }

    // One byte.
    pub fn put_byte(&mut self, b: u8)
        ensures { Puts self.old (b ∷ []) self.new }
    {
        self.at = output::put_byte(self.row, self.at, b);
    }

    // Bytes in their order.
    pub fn put(&mut self, bytes: &[u8])
        ensures { Puts self.old bytes.now self.new }
    {
        self.at = output::put(self.row, self.at, bytes);
    }

    // A number in decimal.
    pub fn put_number(&mut self, n: u64)
        ensures { Puts self.old (decimal n) self.new }
    {
        self.at = digits::put_number(self.row, self.at, n);
    }

    // Bytes in lower-case hexadecimal.
    pub fn put_hex(&mut self, bytes: &[u8])
        ensures { Puts self.old (hex_text bytes.now) self.new }
    {
        self.at = digits::put_hex(self.row, self.at, bytes);
    }
}
