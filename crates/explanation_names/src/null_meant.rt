//! Whether `null` may be meant by an unknown name.

ghost use Rattle.std.specs.Prelude.{◌≡◌, Decides, IfOk, map};
ghost use Rattle.source.specs.Tokens.{seen, seen_token};
ghost use Rattle.explanation_names.specs.NullMeant.{IsNullMeantBy, put_null, with_null};

use crate::nearest::is_near;
use parser::find_tree;
use source::memory::NoMemory;
use source::span::Span;
use source::token::{Keyword, Token};
use std::alloc::{AllocError, Global};

/// A copy of a token.
fn copy_of(alloc: Global, token: &Token) -> Result<Token, AllocError>
    ensures { IfOk result (λ copy. seen_token copy ≡ seen_token token.now) }
{
    Ok(match token {
        Token::Name(start, text) => Token::Name(*start, text.clone()?),
        Token::Int(span, value) => Token::Int(*span, *value),
        Token::Large(number) => Token::Large(Box::new(alloc, **number)?),
        Token::Word(span, word) => Token::Word(*span, *word),
        Token::Mark(span, sign) => Token::Mark(*span, *sign),
        Token::End(at) => Token::End(*at),
    })
}

/// A copy of the token, or `null` if it begins there.
fn put_null(alloc: Global, token: &Token, at: usize) -> Result<Token, AllocError>
    ensures { IfOk result (λ put. seen_token put ≡ put_null at (seen_token token.now)) }
{
    let start = token.start();
    if start as usize == at {
        return Ok(Token::Word(Span { start, end: start }, Keyword::Null));
    }
    copy_of(alloc, token)
}

/// A copy of the tokens, with `null` for what begins there.
fn with_null(alloc: Global, tokens: &[Token], at: usize) -> Result<Vec<Token>, NoMemory>
    ensures { IfOk result (λ made. seen made.items ≡ with_null at (seen tokens.now)) }
{
    let mut made = Vec::new(alloc);
    for token in tokens {
        made.push(put_null(alloc, token, at)?)?;
    }
    Ok(made)
}

/// Whether `null` may be meant by this name, which begins there.
pub fn is_null_meant(
    alloc: Global,
    tokens: &[Token],
    at: usize,
    name: &str,
) -> Result<bool, NoMemory>
    ensures { IfOk result (λ meant. Decides meant (IsNullMeantBy (seen tokens.now) at name.now)) }
{
    if !is_near(alloc, name, Keyword::Null.text())? {
        return Ok(false);
    }
    let tokens = with_null(alloc, tokens, at)?;
    let tree = find_tree(alloc, &tokens)?;
    Ok(tree.is_some())
}
