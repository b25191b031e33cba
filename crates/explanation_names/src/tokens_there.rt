//! The tokens at a place.

ghost use Rattle.std.specs.Prelude.{◌≡◌, ◌<◌, IfSome, length, slice_get};
ghost use Rattle.std.specs.Option.{option_map};
ghost use Rattle.source.specs.Tokens.{seen};
ghost use Rattle.explanation_names.specs.TokensThere.{has_dot, has_two_fields, name_of, name_there, token_at};
ghost use Rattle.explanation_names.specs.Working.Viewed.{text_at, token_seen};

use source::token::{Sign, Token};

/// The index of the token that starts at the byte `at`.
pub fn token_at(at: usize, tokens: &[Token]) -> Option<usize>
    ensures place { result ≡ token_at at (seen tokens.now) }
    ensures within { IfSome result (λ i. i < length tokens.now) }
{
    for (i, token) in tokens.iter().enumerate() {
        if token.start() as usize == at {
            return Some(i);
        }
    }
    None
}

/// The name of a token, if it is one.
pub fn name_of(token: Option<&Token>) -> Option<&str>
    ensures { option_map text_at result ≡ name_of (option_map token_seen token.entry) }
{
    match token {
        Some(Token::Name(_, text)) => Some(text.as_str()),
        _ => None,
    }
}

fn has_dot(token: Option<&Token>) -> bool
    ensures { result ≡ has_dot (option_map token_seen token.entry) }
{
    matches!(token, Some(Token::Mark(_, Sign::Dot)))
}

/// The token with this index.
pub fn token_of(i: usize, tokens: &[Token]) -> Option<&Token>
    ensures { option_map token_seen result ≡ slice_get (seen tokens.now) i }
{
    if i < tokens.len() {
        Some(&tokens[i])
    } else {
        None
    }
}

/// The name that begins at the byte `at`.
pub fn name_there(at: usize, tokens: &[Token]) -> Option<&str>
    ensures { option_map text_at result ≡ name_there at (seen tokens.now) }
{
    let i = token_at(at, tokens)?;
    name_of(token_of(i, tokens))
}

/// Whether at least two fields follow the name with this index.
pub fn has_two_fields(i: usize, tokens: &[Token]) -> bool
    requires { i < length tokens.now }
    ensures { result ≡ has_two_fields i (seen tokens.now) }
{
    has_dot(token_of(i + 1, tokens)) && has_dot(token_of(i + 3, tokens))
}
