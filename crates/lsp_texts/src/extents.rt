//! The extent of a declaration.

ghost use Rattle.std.specs.Prelude.{◌≡◌, ◌≤◌, ◌<◌, ◌+◌, drop, length};
ghost use Rattle.std.specs.List.{prefix_len};
ghost use Rattle.lsp_texts.specs.Extents as extents;
ghost use Rattle.lsp_texts.specs.Names as names;

use crate::names::{sign_at, text_at, word_at};
use source::token::{Keyword, Sign, Token};

/// Whether the token `at` is `global` or `final`.
fn is_global_or_final(tokens: &[Token], at: usize) -> bool
    ensures { result ≡ extents.is_global_or_final (names.word_at tokens.now at) }
{
    matches!(word_at(tokens, at), Some(Keyword::Global | Keyword::Final))
}

/// The token of the type's name before a declared name, or otherwise that name.
fn type_token(tokens: &[Token], at: usize) -> usize
    ensures { result ≡ extents.type_token tokens.now at }
{
    let near = at.saturating_sub(1);
    if text_at(tokens, near).is_some() {
        near
    } else {
        at
    }
}

/// The first token of the declaration of a name.
pub(crate) fn first_token(tokens: &[Token], at: usize) -> usize
    ensures first { result ≡ extents.first_token tokens.now at }
    ensures before { result ≤ at }
{
    let kind = type_token(tokens, at).saturating_sub(1);
    let before = kind.saturating_sub(1);
    if is_global_or_final(tokens, before) {
        before
    } else {
        kind
    }
}

/// Whether the token `at` ends a parameter.
fn ends_parameter(tokens: &[Token], at: usize) -> bool
    ensures { result ≡ extents.ends_parameter (names.sign_at tokens.now at) }
{
    matches!(sign_at(tokens, at), Some(Sign::Comma | Sign::CloseParen))
}

/// Whether the word may stand after a declared name.
fn is_type_word(word: Keyword) -> bool
    ensures { result ≡ extents.is_type_word word }
{
    matches!(
        word,
        Keyword::Int | Keyword::Ref | Keyword::ProtectedBy | Keyword::Lock
    )
}

/// Whether the sign may stand after a declared name.
fn is_type_sign(sign: Sign) -> bool
    ensures { result ≡ extents.is_type_sign sign }
{
    matches!(
        sign,
        Sign::OpenParen
            | Sign::CloseParen
            | Sign::OpenBracket
            | Sign::CloseBracket
            | Sign::Comma
            | Sign::Colon
            | Sign::Dot
    )
}

/// Whether the token may stand after a declared name.
fn continues(token: &Token) -> bool
    ensures { result ≡ extents.continues token.now }
{
    match token {
        Token::Name(_, _) | Token::Int(_, _) | Token::Large(_) => true,
        Token::Word(_, word) => is_type_word(*word),
        Token::Mark(_, sign) => is_type_sign(*sign),
        Token::End(_) => false,
    }
}

/// The number of tokens, from the first on, that may stand after a declared name.
fn continuing(tokens: &[Token]) -> usize
    ensures count { result ≡ prefix_len extents.continues tokens.now }
    ensures few { result ≤ length tokens.now }
{
    tokens.iter().take_while(|token| continues(token)).count()
}

/// The token after the declaration of a name.
pub(crate) fn end_token(tokens: &[Token], at: usize) -> usize
    requires { at < length tokens.now }
    ensures end { result ≡ extents.end_token tokens.now at }
    ensures within { result ≤ length tokens.now }
    ensures behind { at + 1 ≤ result }
{
    let behind = at + 1;
    if ends_parameter(tokens, behind) {
        return behind;
    }
    behind + continuing(&tokens[behind..])
}
