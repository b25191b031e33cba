//! Places among the tokens of a text.

ghost use Rattle.std.specs.Prelude.{◌≡◌};
ghost use Rattle.source.specs.Tokens.{seen, seen_token};
ghost use Rattle.language_server.specs.Changes as changes;

use source::token::{Sign, Token};

/// The byte after a token.
fn end_of_token(token: &Token) -> usize
    ensures { result ≡ (seen_token token.now).span.end }
{
    match token {
        Token::Name(start, text) => *start as usize + text.as_str().len(),
        Token::Int(span, _) => span.end as usize,
        Token::Large(number) => number.span.end as usize,
        Token::Word(span, _) => span.end as usize,
        Token::Mark(span, _) => span.end as usize,
        Token::End(at) => *at as usize,
    }
}

/// The end of the token that begins at byte `start`; `start` where no token does.
pub fn token_end(tokens: &[Token], start: usize) -> usize
    ensures { result ≡ changes.token_end (seen tokens.now) start }
{
    let mut rest = tokens;
    'tokens: while let [token, behind @ ..] = rest {
        if token.start() as usize == start {
            return end_of_token(token);
        }
        rest = behind;
    }
    start
}

/// Whether an annotation may stand before `token`.
fn follows_annotation(token: &Token) -> bool
    ensures { result ≡ changes.follows_annotation (seen_token token.now).kind }
{
    matches!(token, Token::Mark(_, Sign::Equals | Sign::Semicolon))
}

/// The place for an annotation of what has its name at byte `name`: the end of the last token before the next `=` or
/// `;`.
pub fn annotation_place(tokens: &[Token], name: usize) -> usize
    ensures { result ≡ changes.annotation_place (seen tokens.now) name }
{
    let mut place = 0;
    let mut rest = tokens;
    'tokens: while let [token, behind @ ..] = rest {
        if token.start() as usize >= name && follows_annotation(token) {
            return place;
        }
        place = end_of_token(token);
        rest = behind;
    }
    place
}
