//! A text that is put together piece by piece.

use source::memory::NoMemory;
use std::alloc::{AllocError, Global};

/// A text, and whether a growth of it was refused. `finish` returns that error, and a function that appends several
/// pieces need not return after each.
#[derive(Drop)]
pub struct Told {
    /// The text so far, without what was refused.
    pub text: String,
    is_refused: bool,
}

impl Told {
    /// The empty text.
    pub fn new(alloc: Global) -> Told {
        Told {
            text: String::new(alloc),
            is_refused: false,
        }
    }

    /// Notes whether a growth of the text was refused.
    pub fn note(&mut self, grown: Result<(), AllocError>) {
        if grown.is_err() {
            self.is_refused = true;
        }
    }

    /// Appends a piece.
    pub fn push_str(&mut self, piece: &str) {
        let grown = self.text.push_str(piece);
        self.note(grown);
    }

    /// The whole text, unless a growth of it was refused.
    pub fn finish(self) -> Result<String, NoMemory> {
        if self.is_refused {
            return Err(NoMemory);
        }
        Ok(self.text)
    }
}
