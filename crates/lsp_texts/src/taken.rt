//! The names that are taken.

ghost use Rattle.std.specs.Prelude.{◌≡◌};
ghost use Rattle.lsp_texts.specs.Taken as taken;
ghost use Rattle.lsp_texts.specs.Declarations.{is_text};
ghost use Rattle.lsp_texts.specs.Names.{text_at};
ghost use Rattle.lsp_texts.specs.Working.Places.{IsPlaceOf};

use crate::names::text_at;
use crate::scopes::Place;
use source::token::Token;

/// Whether two numbers are the same, or both are missing.
fn are_same(first: Option<usize>, second: Option<usize>) -> bool
    ensures { result ≡ taken.are_same first second }
{
    match (first, second) {
        (Some(first), Some(second)) => second == first,
        (None, None) => true,
        _ => false,
    }
}

/// Whether the token `at` is the name `text`.
fn is_name(tokens: &[Token], at: usize, text: &str) -> bool
    ensures { result ≡ is_text text.now (text_at tokens.now at) }
{
    match text_at(tokens, at) {
        Some(other) => other == text,
        None => false,
    }
}

/// A token that declares a name.
#[derive(Clone, Copy)]
struct Declared<'a> {
    tokens: &'a [Token],
    at: usize,
    place: Place,
    ghost place_is: { IsPlaceOf tokens.now at place },
}

impl<'a> Declared<'a> {
    ghost use Rattle.std.specs.Prelude.{◌≡◌};
    ghost use Rattle.lsp_texts.specs.Taken as taken;
    ghost use Rattle.lsp_texts.specs.Working.Places.{IsPlaceOf};

    /// Whether a name at the token `at` may have the meaning of this one, or this one its meaning.
    fn may_meet(&self, place: Place, at: usize) -> bool
        requires { IsPlaceOf self.now.tokens.now at place }
        ensures { result ≡ taken.may_meet self.now.tokens.now self.now.at at }
    {
        place.is_top(self.tokens, at)
            || self.place.is_top(self.tokens, self.at)
            || are_same(self.place.owner, place.owner)
    }

    /// Whether the token `at` takes the name `text`.
    fn takes(&self, place: Place, at: usize, text: &str) -> bool
        requires { IsPlaceOf self.now.tokens.now at place }
        ensures { result ≡ taken.takes self.now.tokens.now self.now.at text.now at }
    {
        is_name(self.tokens, at, text) && self.may_meet(place, at)
    }
}

/// Whether what the token `declared` declares can't be named `text`, since that name already stands where both may be
/// meant.
pub fn is_taken(tokens: &[Token], declared: usize, text: &str) -> bool
    ensures { result ≡ taken.is_taken tokens.now declared text.now }
{
    let token = Declared {
        tokens,
        at: declared,
        place: Place::at(tokens, declared),
    };
    let mut is_taken = false;
    let mut place = Place::first();
    for at in 0..tokens.len() {
        is_taken = is_taken || token.takes(place, at, text);
        place = place.behind(tokens, at);
    }
    is_taken
}
