//! Positions of bytes, in any order.

ghost use Rattle.std.specs.Prelude.{◌≡◌, IfOk};
ghost use Rattle.lsp_texts.specs.Working.Marks.{AreOf};

use crate::walking::Walker;
use std::alloc::{AllocError, Global};

/// The distance of two marks, in bytes.
const STRIDE: usize = 4096;

/// A text, with a walker at each of its marks. Many places in any order are found in one walk over the text.
#[derive(Drop)]
pub struct PositionMarks<'a> {
    text: &'a [u8],
    each: Vec<Walker<'a>>,
    ghost of_text: { AreOf text.now each.items },
}

impl<'a> PositionMarks<'a> {
    /// The marks of `text`.
    ///
    /// # Errors
    ///
    /// A growth is refused.
    pub fn of(alloc: Global, text: &'a [u8]) -> Result<PositionMarks<'a>, AllocError>
        ensures { IfOk result (λ marks. marks.text.now ≡ text.entry.now) }
    {
        let mut walker = Walker::new(text);
        let mut each = Vec::new(alloc);
        for number in 0..text.len() / STRIDE + 1 {
            walker.position_of(number * STRIDE);
            each.push(walker)?;
        }
        Ok(PositionMarks { text, each })
    }

    /// A walker over the text that stands at the last mark before the byte `place`.
    pub fn near(&self, place: usize) -> Walker<'a>
        ensures { result.text.now ≡ self.now.text.now }
    {
        match self.each.get(place / STRIDE) {
            Some(mark) => *mark,
            None => Walker::new(self.text),
        }
    }
}
