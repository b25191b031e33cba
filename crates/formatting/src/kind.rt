//! The kinds of tokens that the layout distinguishes.

ghost use Rattle.std.specs.Prelude.{◌≡◌};
ghost use Rattle.source.specs.Tokens.{seen_token};
ghost use Rattle.formatting.specs.Kinds.{sign_kind, word_kind, kind_of, is_open, is_comment, is_ended, does_end, begins_line};
ghost use Rattle.formatting.specs.Kinds.{is_operand, is_tight, last_behind, limit};

use source::token::{Keyword, Sign, Token};

/// The kind of a token for the layout, or a comment.
#[derive(Clone, Copy, Debug, PartialEq, Eq)]
pub enum PieceKind {
    /// `{`
    OpenBrace,
    /// `}`
    CloseBrace,
    /// `(`
    OpenParen,
    /// `[`
    OpenBracket,
    /// `)` or `]`
    Closing,
    /// `;`
    Semicolon,
    /// `,`
    Comma,
    /// `:`
    Colon,
    /// `.`
    Dot,
    /// `-`. The piece before it says whether it is a prefix.
    Minus,
    /// `!`, or a `-` that is a prefix.
    Prefix,
    /// Any other sign.
    Operator,
    /// `if`, `while`, `print` or `return`.
    Head,
    /// `else`
    Else,
    /// `init`
    Init,
    /// A name, a number or any other keyword.
    Word,
    /// A comment.
    Comment,
}

fn kind_of_sign(sign: Sign) -> PieceKind
    ensures { result ≡ sign_kind sign }
{
    match sign {
        Sign::OpenBrace => PieceKind::OpenBrace,
        Sign::CloseBrace => PieceKind::CloseBrace,
        Sign::OpenParen => PieceKind::OpenParen,
        Sign::OpenBracket => PieceKind::OpenBracket,
        Sign::CloseParen | Sign::CloseBracket => PieceKind::Closing,
        Sign::Semicolon => PieceKind::Semicolon,
        Sign::Comma => PieceKind::Comma,
        Sign::Colon => PieceKind::Colon,
        Sign::Dot => PieceKind::Dot,
        Sign::Minus => PieceKind::Minus,
        Sign::Not => PieceKind::Prefix,
        _ => PieceKind::Operator,
    }
}

fn kind_of_word(word: Keyword) -> PieceKind
    ensures { result ≡ word_kind word }
{
    match word {
        Keyword::If | Keyword::While | Keyword::Print | Keyword::Return => PieceKind::Head,
        Keyword::Else => PieceKind::Else,
        Keyword::Init => PieceKind::Init,
        _ => PieceKind::Word,
    }
}

impl PieceKind {
    /// The kind of `token`.
    pub fn of(token: &Token) -> PieceKind
        ensures { result ≡ kind_of (seen_token token.now).kind }
    {
        match token {
            Token::Mark(_, sign) => kind_of_sign(*sign),
            Token::Word(_, word) => kind_of_word(*word),
            Token::Name(_, _) | Token::Int(_, _) | Token::Large(_) | Token::End(_) =>
                PieceKind::Word,
        }
    }

    /// Whether the piece is `{`.
    pub fn is_open(self) -> bool
        ensures { result ≡ is_open self }
    {
        matches!(self, PieceKind::OpenBrace)
    }

    pub fn is_comment(self) -> bool
        ensures { result ≡ is_comment self }
    {
        matches!(self, PieceKind::Comment)
    }

    /// Whether no statement or declaration has begun after the piece.
    pub fn is_ended(self) -> bool
        ensures { result ≡ is_ended self }
    {
        matches!(
            self,
            PieceKind::Semicolon | PieceKind::CloseBrace | PieceKind::OpenBrace
        )
    }

    /// Whether the piece ends a statement or a declaration.
    pub fn does_end(self) -> bool
        ensures { result ≡ does_end self }
    {
        matches!(self, PieceKind::Semicolon | PieceKind::CloseBrace)
    }

    /// Whether the piece begins a line after the end of a statement or declaration.
    pub fn begins_line(self) -> bool
        ensures { result ≡ begins_line self }
    {
        !matches!(self, PieceKind::Else | PieceKind::Init | PieceKind::Comment)
    }

    // Whether the piece ends an operand, so that a `-` after it is not a prefix.
    fn is_operand(self) -> bool
        ensures { result ≡ is_operand self }
    {
        matches!(self, PieceKind::Word | PieceKind::Closing)
    }

    /// Whether no space is written between the piece and `next`.
    pub fn is_tight(self, next: PieceKind) -> bool
        ensures { result ≡ is_tight self next }
    {
        match self {
            PieceKind::OpenParen | PieceKind::OpenBracket | PieceKind::Dot | PieceKind::Prefix =>
                return true,
            _ => {}
        }
        match next {
            PieceKind::Semicolon
            | PieceKind::Comma
            | PieceKind::Closing
            | PieceKind::Dot
            | PieceKind::OpenBracket => true,
            PieceKind::Colon => !matches!(self, PieceKind::Closing),
            PieceKind::OpenParen => matches!(self, PieceKind::Word),
            _ => false,
        }
    }

    /// The most line feeds between the piece and `next` where a line may end. No line is blank at either end of a
    /// block.
    pub fn limit(self, next: PieceKind) -> usize
        ensures { result ≡ limit self next }
    {
        match (self, next) {
            (PieceKind::OpenBrace, PieceKind::CloseBrace) => 0,
            (PieceKind::OpenBrace, _) => 1,
            (_, PieceKind::CloseBrace) => 1,
            (_, PieceKind::Else) => 0,
            (_, _) => 2,
        }
    }

    /// The kind by which `next` counts for the pieces after it.
    pub fn behind(self, next: PieceKind) -> PieceKind
        ensures { result ≡ last_behind self next }
    {
        match next {
            PieceKind::Comment => {
                if self.is_ended() {
                    PieceKind::Semicolon
                } else {
                    self
                }
            }
            PieceKind::Minus => {
                if self.is_operand() {
                    PieceKind::Minus
                } else {
                    PieceKind::Prefix
                }
            }
            _ => next,
        }
    }
}
