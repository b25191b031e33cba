//! The state that decides the gap before the next piece.

ghost use Rattle.std.specs.Prelude.{◌≡◌, ◌+◌, ◌≤◌};
ghost use Rattle.source.specs.Texts.{is_name_byte, SOURCE_LIMIT};
ghost use Rattle.formatting.specs.Layout.{START, least, most, lines, is_block, depth_at, inline_at, is_second, is_apart};
ghost use Rattle.formatting.specs.Layout.{spaces, indent, behind};

use crate::kind::PieceKind;

/// The state of the layout after the pieces so far.
#[derive(Clone, Copy, Debug)]
pub struct LayoutState {
    /// The number of open blocks on lines of their own. One that was just opened is not counted yet.
    pub depth: usize,
    /// The number of open blocks on one line within them.
    pub inline: usize,
    /// The last token; `Semicolon` at the beginning and after a comment between statements.
    pub last: PieceKind,
    /// The first byte of the last token.
    pub first: u8,
    /// Whether a piece has come.
    pub has_begun: bool,
    /// Whether the last piece was a comment.
    pub is_behind_comment: bool,
}

fn is_letter_or_digit(b: u8) -> bool
    ensures { result ≡ is_name_byte b }
{
    matches!(b, b'A'..=b'Z' | b'a'..=b'z' | b'_' | b'0'..=b'9')
}

fn is_second_byte(b: u8) -> bool
    ensures { result ≡ is_second b }
{
    matches!(b, b'=' | b'&' | b'|')
}

/// Whether tokens that begin with these bytes may touch.
fn may_touch(a: u8, b: u8) -> bool
    ensures { result ≡ is_apart a b }
{
    !(is_second_byte(b) || b == b'/') && !(is_letter_or_digit(b) && is_letter_or_digit(a))
}

impl LayoutState {
    /// The state at the beginning of a text.
    pub fn start() -> LayoutState
        ensures { result ≡ START }
    {
        LayoutState {
            depth: 0,
            inline: 0,
            last: PieceKind::Semicolon,
            first: 0,
            has_begun: false,
            is_behind_comment: false,
        }
    }

    // The fewest line feeds before the next piece.
    fn least(self, next: PieceKind) -> usize
        ensures { result ≡ least self next }
    {
        let is_new = self.last.does_end() && self.inline == 0 && next.begins_line()
            || self.is_behind_comment;
        if self.has_begun && is_new { 1 } else { 0 }
    }

    // The most line feeds before the next piece.
    fn most(self, next: PieceKind) -> usize
        ensures { result ≡ most self next }
    {
        let may_end = self.is_behind_comment
            || next.is_comment()
            || self.last.is_ended() && self.inline == 0;
        if self.has_begun && may_end {
            self.last.limit(next)
        } else {
            0
        }
    }

    /// The number of line feeds before the next piece, if the text has `found` there.
    #[tactic(auto, unfolding(crate::specs::Layout::lines))]
    pub fn lines(self, next: PieceKind, found: usize) -> usize
        ensures { result ≡ lines self next found }
    {
        self.least(next).max(found.min(self.most(next)))
    }

    // Whether a block that was just opened is on lines of its own.
    fn is_block(self, next: PieceKind, feeds: usize) -> bool
        ensures { result ≡ is_block self next feeds }
    {
        self.inline == 0 && (next.is_comment() || feeds != 0)
    }

    // The number of open blocks before the next piece: on lines of their own, and on one line.
    fn levels(self, next: PieceKind, feeds: usize) -> (usize, usize)
        requires { self.depth + self.inline ≤ SOURCE_LIMIT }
        ensures depth { result.0 ≡ depth_at self next feeds }
        ensures inline { result.1 ≡ inline_at self next feeds }
        ensures few { result.0 + result.1 ≤ self.depth + self.inline + 1 }
    {
        if !self.last.is_open() {
            return (self.depth, self.inline);
        }
        if self.is_block(next, feeds) {
            (self.depth + 1, self.inline)
        } else {
            (self.depth, self.inline + 1)
        }
    }

    /// The number of spaces before a next piece on the same line that begins with the byte `first`.
    pub fn spaces(self, next: PieceKind, first: u8) -> usize
        ensures { result ≡ spaces self next first }
    {
        if !self.has_begun {
            return 0;
        }
        if next.is_comment() || matches!(next, PieceKind::Init) && self.last.is_ended() {
            return 2;
        }
        if self.last.is_tight(next) && may_touch(self.first, first) {
            0
        } else {
            1
        }
    }

    /// The indentation of a line that begins with the next piece.
    pub fn indent(self, next: PieceKind, feeds: usize) -> usize
        requires { self.depth + self.inline ≤ SOURCE_LIMIT }
        ensures { result ≡ indent self next feeds }
    {
        let (depth, inline) = self.levels(next, feeds);
        let within = if self.last.is_ended() { 0 } else { 1 };
        let closed = if matches!(next, PieceKind::CloseBrace) {
            1
        } else {
            0
        };
        2 * (depth + inline + within).saturating_sub(closed)
    }

    /// The state after a next piece that begins with the byte `first`.
    #[tactic(auto, unfolding(crate::specs::Layout::behind))]
    pub fn behind(self, next: PieceKind, first: u8, feeds: usize) -> LayoutState
        requires { self.depth + self.inline ≤ SOURCE_LIMIT }
        ensures is { result ≡ behind self next first feeds }
        ensures few { result.depth + result.inline ≤ self.depth + self.inline + 1 }
    {
        let (depth, inline) = self.levels(next, feeds);
        let is_close = matches!(next, PieceKind::CloseBrace);
        LayoutState {
            depth: if is_close && inline == 0 {
                depth.saturating_sub(1)
            } else {
                depth
            },
            inline: if is_close {
                inline.saturating_sub(1)
            } else {
                inline
            },
            last: self.last.behind(next),
            first,
            has_begun: true,
            is_behind_comment: next.is_comment(),
        }
    }
}
