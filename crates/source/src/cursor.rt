//! Lines and columns of bytes in a text.

ghost use Rattle.std.specs.Prelude.{◌≡◌, ◌+◌, ◌≤◌, length};
ghost use Rattle.source.specs.Faults.{line_of, column_of};

/// A position in a text: a byte, or the text's end, with its line and column, both counted from 1.
#[derive(Clone, Copy)]
pub struct Cursor<'a> {
    text: &'a [u8],
    at: usize,
    /// The line, from 1.
    pub line: usize,
    /// The column, in bytes from 1.
    pub column: usize,
    ghost within: { at ≤ length text.now },
    ghost of_line: { line ≡ line_of text.now at },
    ghost of_column: { column ≡ column_of text.now at },
    ghost few_lines: { line ≤ at + 1 },
    ghost few_columns: { column ≤ at + 1 },
}

impl<'a> Cursor<'a> {
    /// A cursor at the beginning of `text`.
    pub fn new(text: &'a [u8]) -> Cursor<'a>
        ensures same { result.text.now ≡ text.entry.now }
        ensures first { result.at ≡ 0 }
    {
        Cursor {
            text,
            at: 0,
            line: 1,
            column: 1,
        }
    }

    // Moves forward to `to` over the bytes between, one by one.
    fn advance(&mut self, to: usize)
        requires ahead { self.old.at ≤ to }
        requires within { to ≤ length self.old.text.now }
        ensures same { self.new.text.now ≡ self.old.text.now }
        ensures moved { self.new.at ≡ to }
    {
        let (mut line, mut column) = (self.line, self.column);
        for byte in &self.text[self.at..to] {
            if *byte == b'\n' {
                line += 1;
                column = 1;
            } else {
                column += 1;
            }
        }
        self.at = to;
        self.line = line;
        self.column = column;
    }

    /// Moves to the byte at `start`, or to the end of the text if `start` lies past it. A move forward reads only the
    /// bytes between; a move back reads those from the beginning.
    pub fn go_to(&mut self, start: usize)
        ensures same { self.new.text.now ≡ self.old.text.now }
        ensures line { self.new.line ≡ line_of self.old.text.now start }
        ensures column { self.new.column ≡ column_of self.old.text.now start }
    {
        let to = start.min(self.text.len());
        if to < self.at {
            *self = Cursor::new(self.text);
        }
        self.advance(to);
    }
}
