// Words in either case.

ghost use Rattle.std.specs.Prelude.{◌≡◌};
ghost use Rattle.text.specs.Texts.{same};
ghost use Rattle.console_commands.specs.Letters.{lower_of, lowered};

// A capital as a small letter, any other byte as it is.
pub fn lower(b: u8) -> u8
    ensures { result ≡ lower_of b }
{
    b.to_ascii_lowercase()
}

// Whether a word in either case is a name in small letters.
pub fn alike(word: &[u8], name: &[u8]) -> bool
    ensures { result ≡ same (lowered word.now) name.now }
{
    word.len() == name.len() && word.iter().zip(name).all(|(w, n)| lower(*w) == *n)
}
