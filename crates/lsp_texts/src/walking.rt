//! Positions of bytes.

ghost use Rattle.std.specs.Prelude.{◌≡◌, ◌+◌, ◌*◌, ◌<◌, ◌≤◌, ◌^◌, length, slice_get};
ghost use Rattle.lsp_texts.specs.Positions as positions;

/// A position in a text.
#[derive(Clone, Copy, Debug, PartialEq, Eq)]
pub struct Position {
    /// The number of lines before it.
    pub line: u64,
    /// The number of UTF-16 units before it in its line.
    pub unit: u64,
}

/// The number of UTF-16 units that begin with a byte of UTF-8: two for a character of four bytes, and none for a
/// continuation byte.
pub(crate) fn units_of(byte: u8) -> u64
    ensures units { result ≡ positions.units_of byte }
    ensures few { result ≤ 2 }
{
    match byte {
        0x80..=0xBF => 0,
        0xF0..=0xFF => 2,
        _ => 1,
    }
}

/// Whether `byte` ends its line, where `next` follows it.
pub(crate) fn ends_line(byte: u8, next: Option<u8>) -> bool
    ensures { result ≡ positions.ends_line byte next }
{
    byte == b'\n' || byte == b'\r' && next != Some(b'\n')
}

/// The byte after the byte `at` of a text.
pub(crate) fn next_of(text: &[u8], at: usize) -> Option<u8>
    requires { at < length text.now }
    ensures { result ≡ slice_get text.now (at + 1) }
{
    text.get(at + 1).copied()
}

impl Position {
    ghost use Rattle.std.specs.Prelude.{◌≡◌, ◌+◌, ◌<◌, ◌≤◌, ◌^◌};
    ghost use Rattle.lsp_texts.specs.Positions as positions;

    /// The position after `byte`, where `next` follows it.
    fn behind(self, byte: u8, next: Option<u8>) -> Position
        requires lines { self.line < 2 ^ 63 }
        requires units { self.unit + 2 < 2 ^ 64 }
        ensures place { result ≡ positions.behind self byte next }
        ensures few_lines { result.line ≤ self.line + 1 }
        ensures few_units { result.unit ≤ self.unit + 2 }
    {
        if ends_line(byte, next) {
            return Position {
                line: self.line + 1,
                unit: 0,
            };
        }
        if byte == b'\r' {
            return self;
        }
        Position {
            line: self.line,
            unit: self.unit + units_of(byte),
        }
    }
}

/// A text, with the position of one of its bytes.
#[derive(Clone, Copy)]
pub struct Walker<'a> {
    text: &'a [u8],
    at: usize,
    position: Position,
    ghost within: { at ≤ length text.now },
    ghost short: { length text.now < 2 ^ 63 },
    ghost is: { position ≡ positions.position_of text.now at },
    ghost few_lines: { position.line ≤ at },
    ghost few_units: { position.unit ≤ 2 * at },
}

impl<'a> Walker<'a> {
    ghost use Rattle.std.specs.Prelude.{◌≡◌, ◌<◌, ◌^◌, length};
    ghost use Rattle.lsp_texts.specs.Positions as positions;

    /// A walker at the start of `text`.
    pub fn new(text: &'a [u8]) -> Walker<'a>
        ensures same { result.text.now ≡ text.entry.now }
        ensures first { result.at ≡ 0 }
    {
        Walker {
            text,
            at: 0,
            position: Position { line: 0, unit: 0 },
        }
    }

    /// Moves on to the byte `to`, byte by byte.
    fn advance(&mut self, to: usize)
        requires ahead { self.old.at ≤ to }
        requires within { to ≤ length self.old.text.now }
        ensures same { self.new.text.now ≡ self.old.text.now }
        ensures moved { self.new.at ≡ to }
    {
        let text = self.text;
        let mut position = self.position;
        for at in self.at..to {
            position = position.behind(text[at], next_of(text, at));
        }
        self.at = to;
        self.position = position;
    }

    /// The position of the byte `at`; of the text's end, where the text is shorter.
    pub fn position_of(&mut self, at: usize) -> Position
        ensures same { self.new.text.now ≡ self.old.text.now }
        ensures position { result ≡ positions.position_of self.old.text.now at }
    {
        let to = at.min(self.text.len());
        if to < self.at {
            *self = Walker::new(self.text);
        }
        self.advance(to);
        self.position
    }
}
