// Which bytes part words, and which spell numbers.

ghost use Rattle.std.specs.Prelude.{◌≡◌, ◌<◌};
ghost use Rattle.text.specs.Bytes.{is_sort, run_end as reached, digit_of};

// What a run of bytes may be made of.
#[derive(Clone, Copy)]
pub enum Sort {
    Separator,
    Word,
    Digit,
    Hex,
    // whatever ends no line
    Line,
}

pub fn is_separator(b: u8) -> bool
    ensures { result ≡ Rattle.text.specs.Bytes.separator b }
{
    matches!(b, b' ' | b'\t' | b'\r')
}

pub fn is_digit(b: u8) -> bool
    ensures { result ≡ Rattle.text.specs.Bytes.digit b }
{
    b.is_ascii_digit()
}

pub fn is_hex(b: u8) -> bool
    ensures { result ≡ Rattle.text.specs.Bytes.hex_digit b }
{
    b.is_ascii_hexdigit()
}

pub fn is_sort(sort: Sort, b: u8) -> bool
    ensures { result ≡ is_sort sort b }
{
    match sort {
        Sort::Separator => is_separator(b),
        Sort::Word => !is_separator(b),
        Sort::Digit => is_digit(b),
        Sort::Hex => is_hex(b),
        Sort::Line => b != b'\n',
    }
}

// The place past the run of such bytes that begins at from; from itself where none stands there, or past the line's
// end.
pub fn run_end(s: &[u8], from: usize, sort: Sort) -> usize
    ensures { result ≡ reached sort s.now from }
{
    for i in from..s.len() {
        if !is_sort(sort, s[i]) {
            return i;
        }
    }
    from.max(s.len())
}

// What a decimal digit is worth; 0 for bytes below the digits.
pub fn digit_of(b: u8) -> u64
    ensures { (result ≡ digit_of b) × (result < 256) }
{
    u64::from(b.saturating_sub(b'0'))
}
