//! Lines and columns of all bytes of a text.

ghost use Rattle.std.specs.Prelude.{◌≡◌, IfOk};
ghost use Rattle.report_check.specs.Working.Positions.{IsPositionOf, ArePositionsOf};

use code::places::LineColumn;
use source::cursor::Cursor;
use source::memory::NoMemory;
use std::alloc::Global;

/// A text, with the line and column of each byte. The text is read once, and positions can be looked up in any order.
#[derive(Drop)]
pub struct Positions<'a> {
    text: &'a [u8],
    each: Vec<LineColumn>,
    ghost positions: { ArePositionsOf text.now each.items },
}

impl<'a> Positions<'a> {
    /// The positions of `text`.
    pub fn of(alloc: Global, text: &'a [u8]) -> Result<Positions<'a>, NoMemory>
        ensures { IfOk result (λ positions. positions.text.now ≡ text.now) }
    {
        let mut cursor = Cursor::new(text);
        let mut each = Vec::with_capacity(alloc, text.len())?;
        for at in 0..text.len() {
            cursor.go_to(at);
            each.push(LineColumn {
                line: cursor.line,
                column: cursor.column,
            })?;
        }
        Ok(Positions { text, each })
    }

    /// The position of the byte at `place`, or of the end of the text if `place` lies past it.
    pub fn at(&self, place: usize) -> LineColumn
        ensures { IsPositionOf self.now.text.now place result }
    {
        match self.each.get(place) {
            Some(position) => *position,
            None => {
                let mut cursor = Cursor::new(self.text);
                cursor.go_to(place);
                LineColumn {
                    line: cursor.line,
                    column: cursor.column,
                }
            }
        }
    }
}
