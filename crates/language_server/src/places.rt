//! The places of diagnostics. The one error is a refused growth.

ghost use Rattle.std.specs.Prelude.{◌≡◌, IfOk};
ghost use Rattle.serde_json.specs.View.{view};
ghost use Rattle.language_server.specs.Diagnostics as list;

use explanation::end_of;
use lsp_texts::{PositionMarks, range_value};
use serde_json::{Value, json};
use std::alloc::{AllocError, Global};

/// A document.
#[derive(Clone, Copy)]
pub struct Document<'a> {
    /// The document's URI.
    pub uri: &'a str,
    /// The document's text.
    pub text: &'a [u8],
}

/// A document with marks in its text.
#[derive(Drop)]
pub struct Places<'a> {
    document: Document<'a>,
    marks: PositionMarks<'a>,
    ghost same: { marks.text.now ≡ document.text.now },
}

impl<'a> Places<'a> {
    /// The places of a document.
    pub fn of(alloc: Global, document: Document<'a>) -> Result<Places<'a>, AllocError>
        ensures { IfOk result (λ places. places.document ≡ document.entry) }
    {
        Ok(Places {
            document,
            marks: PositionMarks::of(alloc, document.text)?,
        })
    }

    /// The range of the word that begins at byte `start`.
    pub fn range(&self, alloc: Global, start: usize) -> Result<Value, AllocError>
        ensures { IfOk result (λ told. view told ≡ list.word_range self.now.document.text.now start) }
    {
        let mut walker = self.marks.near(start);
        range_value(alloc, &mut walker, start, end_of(self.document.text, start))
    }

    /// The related information `words` on the word that begins at byte `start`.
    pub fn related(&self, alloc: Global, start: usize, words: &str) -> Result<Value, AllocError>
        ensures { IfOk result (λ told. view told ≡ list.related_data self.now.document.uri.now
            self.now.document.text.now start words.now) }
    {
        let range = self.range(alloc, start)?;
        json!(in alloc; {"location": {"range": &range, "uri": self.document.uri}, "message": words})
    }
}
