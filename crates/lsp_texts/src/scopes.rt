//! The scope of a token, and what the token declares in it.

ghost use Rattle.std.specs.Prelude.{◌≡◌};
ghost use Rattle.lsp_texts.specs.Declarations as declarations;
ghost use Rattle.lsp_texts.specs.Names as names;

use crate::names::{depth_behind, sign_at, symbol_at, text_at, word_at};
use source::token::{Keyword, Token};

/// The scope of a token.
#[derive(Clone, Copy)]
pub(crate) struct Place {
    /// The number of braces that enclose it.
    pub(crate) depth: usize,
    /// The name of the top level whose declaration encloses it.
    pub(crate) owner: Option<usize>,
    /// The name after the last `let` before it.
    pub(crate) bound: Option<usize>,
}

/// Whether this word stands before a name that it declares.
fn declares(word: Option<Keyword>) -> bool
    ensures { result ≡ declarations.declares word }
{
    matches!(
        word,
        Some(Keyword::Lock | Keyword::Let | Keyword::Var | Keyword::Int)
    )
}

/// Whether the word or the type before the token `at` makes it a declared name.
fn is_declared(tokens: &[Token], at: usize) -> bool
    ensures { result ≡ declarations.is_declared tokens.now at }
{
    let near = at.saturating_sub(1);
    if declares(word_at(tokens, near)) {
        return true;
    }
    text_at(tokens, near).is_some() && is_ref(tokens, at.saturating_sub(2))
}

/// Whether the token `at` is the word `ref`.
pub(crate) fn is_ref(tokens: &[Token], at: usize) -> bool
    ensures { result ≡ declarations.is_ref (names.word_at tokens.now at) }
{
    matches!(word_at(tokens, at), Some(Keyword::Ref))
}

/// Whether the token `at` is the word `let`.
fn is_let(tokens: &[Token], at: usize) -> bool
    ensures { result ≡ declarations.is_let (names.word_at tokens.now at) }
{
    matches!(word_at(tokens, at), Some(Keyword::Let))
}

impl Place {
    ghost use Rattle.std.specs.Prelude.{◌≡◌, ◌+◌, ◌<◌, ℕ, List, length};
    ghost use Rattle.source.specs.declared.token.Token.{Token};
    ghost use Rattle.lsp_texts.specs.Declarations as declarations;
    ghost use Rattle.lsp_texts.specs.Working.Places.{IsPlaceOf};

    /// The scope of the first token.
    pub(crate) fn first() -> Place
        ensures { (tokens : List Token) → IsPlaceOf tokens 0 result }
    {
        Place {
            depth: 0,
            owner: None,
            bound: None,
        }
    }

    /// The scope of the token `at`, or of the text's end, where there are fewer tokens.
    pub(crate) fn at(tokens: &[Token], at: usize) -> Place
        ensures { IsPlaceOf tokens.now at result }
    {
        let mut place = Place::first();
        for before in 0..at.min(tokens.len()) {
            place = place.behind(tokens, before);
        }
        place
    }

    /// Whether the token `at` declares a name of the top level.
    pub(crate) fn is_top(self, tokens: &[Token], at: usize) -> bool
        requires { IsPlaceOf tokens.now at self }
        ensures { result ≡ declarations.is_top tokens.now at }
    {
        symbol_at(tokens, self.depth, at).is_some()
    }

    /// Whether the token `at` declares a parameter, a `let`, a `var` or a member.
    pub(crate) fn is_inner(self, tokens: &[Token], at: usize) -> bool
        requires { IsPlaceOf tokens.now at self }
        ensures { result ≡ declarations.is_inner tokens.now at }
    {
        text_at(tokens, at).is_some() && !self.is_top(tokens, at) && is_declared(tokens, at)
    }

    /// The scope of the token after `at`.
    pub(crate) fn behind(self, tokens: &[Token], at: usize) -> Place
        requires place { IsPlaceOf tokens.now at self }
        requires within { at < length tokens.now }
        ensures { IsPlaceOf tokens.now (at + 1) result }
    {
        let owner = if self.is_top(tokens, at) {
            Some(at)
        } else {
            self.owner
        };
        let bound = if is_let(tokens, at) {
            Some(at + 1)
        } else {
            self.bound
        };
        Place {
            depth: depth_behind(self.depth, sign_at(tokens, at)),
            owner,
            bound,
        }
    }
}
