//! Ranges of a text.

/// A range of a text: the bytes from `start` up to but without `end`. Both count bytes from 0.
///
/// They take four bytes each, since some texts have a token for nearly every byte, and each tree has the position of
/// each of its parts.
#[derive(Clone, Copy, Debug, PartialEq, Eq)]
pub struct Span {
    /// The first byte.
    pub start: u32,
    /// The byte after the last one; at least `start` in a token of the lexer.
    pub end: u32,
}
