//! The styles of words.

ghost use Rattle.std.specs.Prelude.{◌≡◌, ◌==◌, ◌||◌, ◌++◌, OnOk, string_bytes};
ghost use Rattle.std.specs.List.{list_all};
ghost use Rattle.painting.specs.Painted.{begin, end, is_code, is_space, style_of_source, style_of_start, style_of_word, styled};

use std::alloc::AllocError;

/// The style of a text.
#[derive(Clone, Copy, PartialEq, Eq, Debug)]
pub enum Style {
    /// No style.
    Plain,
    /// The style of a place.
    Bold,
    /// The style of a fault's code and of carets.
    Red,
    /// The style of a warning.
    Yellow,
    /// The style of notes and remedies.
    Cyan,
}

impl Style {
    /// The escape sequence before a text in this style.
    fn begin(self) -> &'static str
        ensures { result.now ≡ begin self }
    {
        match self {
            Style::Plain => "",
            Style::Bold => "\x1b[1m",
            Style::Red => "\x1b[1;31m",
            Style::Yellow => "\x1b[1;33m",
            Style::Cyan => "\x1b[1;36m",
        }
    }

    /// The escape sequence after a text in this style.
    fn end(self) -> &'static str
        ensures { result.now ≡ end self }
    {
        match self {
            Style::Plain => "",
            _ => "\x1b[0m",
        }
    }

    /// Appends a text in this style. The only error is a failed allocation.
    pub fn push(self, out: &mut String, text: &str) -> Result<(), AllocError>
        ensures { OnOk result (string_bytes out.new ≡ string_bytes out.old ++ styled self text.now) }
    {
        out.push_str(self.begin())?;
        out.push_str(text)?;
        out.push_str(self.end())
    }

    /// The style of the first word of a line.
    pub fn of_start(word: &str) -> Style
        ensures { result ≡ style_of_start word.now }
    {
        match word {
            "" => Style::Plain,
            "note:" | "help:" => Style::Cyan,
            _ => Style::Bold,
        }
    }

    /// The style of the word after a place.
    pub fn of_word(word: &str) -> Style
        ensures { result ≡ style_of_word word.now }
    {
        match word {
            "note:" => Style::Cyan,
            "warning:" => Style::Yellow,
            _ => match is_code(word) {
                true => Style::Red,
                false => Style::Plain,
            },
        }
    }

    /// The style of a line of the source: a line of carets has one.
    pub fn of_source(line: &str) -> Style
        ensures { result ≡ style_of_source line.now }
    {
        match is_marks(line.as_bytes()) {
            true => Style::Red,
            false => Style::Plain,
        }
    }
}

/// Whether the word is E and two digits.
fn is_code(word: &str) -> bool
    ensures { result ≡ is_code word.now }
{
    match word.as_bytes() {
        [e, tens, ones] => *e == b'E' && tens.is_ascii_digit() && ones.is_ascii_digit(),
        _ => false,
    }
}

/// Whether the line is spaces and carets.
fn is_marks(line: &[u8]) -> bool
    ensures { result ≡ list_all (λ byte. is_space byte || (byte == 94)) line.now }
{
    for byte in line {
        if *byte != b' ' && *byte != b'^' {
            return false;
        }
    }
    true
}
