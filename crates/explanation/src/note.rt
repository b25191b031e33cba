//! Notes on a fault beyond its line.

/// A note on a place of a source text, or on the fault as a whole.
#[derive(Debug, Drop)]
pub struct Note {
    /// The byte of the text, from 0, if the note is on a place.
    pub start: Option<usize>,
    /// The words of the note.
    pub words: String,
}
