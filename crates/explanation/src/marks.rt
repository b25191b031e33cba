//! Lines and columns of any bytes of a text, found from marks in it.

ghost use Rattle.std.specs.Prelude.{◌≡◌, IfOk};
ghost use Rattle.source.specs.Faults.{line_of, column_of};
ghost use Rattle.explanation.specs.Working.Marks.{AreOf};

use source::cursor::Cursor;
use source::memory::NoMemory;
use std::alloc::Global;

/// The number of bytes between two marks.
const STRIDE: usize = 4096;

/// A text, with marks at regular distances that have the line and column of their byte. The text is read once, and
/// positions can be looked up in any order.
#[derive(Drop)]
pub struct CursorMarks<'a> {
    text: &'a [u8],
    each: Vec<Cursor<'a>>,
    ghost of_text: { AreOf text.now each.items },
}

impl<'a> CursorMarks<'a> {
    /// The marks of `text`.
    pub fn of(alloc: Global, text: &'a [u8]) -> Result<CursorMarks<'a>, NoMemory>
        ensures { IfOk result (λ marks. marks.text.now ≡ text.entry.now) }
    {
        let mut cursor = Cursor::new(text);
        let mut each = Vec::new(alloc);
        for number in 0..text.len() / STRIDE + 1 {
            cursor.go_to(number * STRIDE);
            each.push(cursor)?;
        }
        Ok(CursorMarks { text, each })
    }

    /// The line and column of the byte at `place`, or of the end of the text if `place` lies past it.
    pub fn at(&self, place: usize) -> Cursor<'a>
        ensures line { result.line ≡ line_of self.now.text.now place }
        ensures column { result.column ≡ column_of self.now.text.now place }
    {
        let mut cursor = match self.each.get(place / STRIDE) {
            Some(mark) => *mark,
            None => Cursor::new(self.text),
        };
        cursor.go_to(place);
        cursor
    }
}
