//! The token that declares the name of a token.

ghost use Rattle.std.specs.Prelude.{◌≡◌, None, IfOk, option_map, slice_index_or};
ghost use Rattle.lsp_texts.specs.Declarations as declarations;
ghost use Rattle.lsp_texts.specs.Names as names;
ghost use Rattle.lsp_texts.specs.Working.Places.{IsPlaceOf};
ghost use Rattle.lsp_texts.specs.Working.Tables.{AreTablesOf};

use crate::names::{sign_at, text_at, word_at};
use crate::scopes::{Place, is_ref};
use crate::tables::Tables;
use source::memory::NoMemory;
use source::token::{Keyword, Sign, Token};
use std::alloc::Global;

/// The struct's name in the type of what the token `at` declares.
#[tactic(auto, using(std::proofs::lemmas::Option::slice_get_past), unfolding(crate::specs::Declarations::type_at))]
fn type_at(tokens: &[Token], at: usize) -> Option<&str>
    ensures { option_map (λ text. text.now) result ≡ declarations.type_at tokens.entry.now at }
{
    if let Some(text) = text_at(tokens, at.saturating_sub(1)) {
        return Some(text);
    }
    if at >= tokens.len() {
        return None;
    }
    match (sign_at(tokens, at + 1), word_at(tokens, at + 2)) {
        (Some(Sign::Colon), Some(Keyword::Ref)) => text_at(tokens, at + 3),
        _ => None,
    }
}

/// The struct that the token `at` declares, or else the one in the type of what it declares.
#[tactic(auto, unfolding(crate::specs::Declarations::struct_at))]
fn struct_at(tokens: &[Token], at: usize) -> Option<&str>
    ensures { option_map (λ text. text.now) result ≡ declarations.struct_at tokens.entry.now at }
{
    match word_at(tokens, at.saturating_sub(1)) {
        Some(Keyword::Struct) => text_at(tokens, at),
        _ => type_at(tokens, at),
    }
}

/// The token before the dot that precedes the token `at`; for an element it is the array's name.
#[tactic(auto, unfolding(crate::specs::Declarations::holder_at))]
fn holder_at(tokens: &[Token], at: usize) -> usize
    ensures { result ≡ declarations.holder_at tokens.now at }
{
    let near = at.saturating_sub(2);
    match (sign_at(tokens, near), sign_at(tokens, at.saturating_sub(4))) {
        (Some(Sign::CloseBracket), Some(Sign::OpenBracket)) => at.saturating_sub(5),
        _ => near,
    }
}

/// The declaration that was found for the token `at`.
fn found_at(before: &[Option<usize>], at: usize) -> Option<usize>
    ensures { result ≡ slice_index_or before.now at None }
{
    match before.get(at) {
        Some(found) => *found,
        None => None,
    }
}

/// A text with its declared names.
#[derive(Drop)]
struct Text<'a> {
    tokens: &'a [Token],
    tables: Tables<'a>,
    ghost tables_are: { AreTablesOf tokens.now tables },
}

impl<'a> Text<'a> {
    ghost use Rattle.std.specs.Prelude.{◌≡◌};
    ghost use Rattle.lsp_texts.specs.Declarations as declarations;
    ghost use Rattle.lsp_texts.specs.Working.Places.{IsPlaceOf};

    /// The token that declares the name `text` at the top level.
    #[tactic(auto, unfolding(crate::specs::Declarations::top))]
    fn top(&self, text: &'a str) -> Option<usize>
        ensures { result ≡ declarations.top self.now.tokens.now text.now }
    {
        self.tables.top(text)
    }

    /// The token that declares the name `text` in the declaration of `owner`, a name of the top level.
    #[tactic(auto, unfolding(crate::specs::Declarations::inner))]
    fn inner(&self, owner: usize, text: &'a str) -> Option<usize>
        ensures { result ≡ declarations.inner self.now.tokens.now owner text.now }
    {
        self.tables.inner(owner, text)
    }

    /// The token that declares the name `text` in the declaration of `owner`, if that is a struct.
    fn member_of(&self, owner: usize, text: &'a str) -> Option<usize>
        ensures { result ≡ declarations.member_of self.now.tokens.now text.now owner }
    {
        match word_at(self.tokens, owner.saturating_sub(1)) {
            Some(Keyword::Struct) => self.inner(owner, text),
            _ => None,
        }
    }

    /// The token that declares the name `text` in the struct that `holder` declares, or that is in the type of what it
    /// declares.
    #[tactic(auto, unfolding(crate::specs::Declarations::member))]
    fn member(&self, holder: Option<usize>, text: &'a str) -> Option<usize>
        ensures { result ≡ declarations.member self.now.tokens.now text.now holder }
    {
        let Some(holder) = holder else {
            return None;
        };
        let Some(name) = struct_at(self.tokens, holder) else {
            return None;
        };
        match self.top(name) {
            Some(owner) => self.member_of(owner, text),
            None => None,
        }
    }

    /// Whether a name at this place means one of the top level, whatever is declared in the enclosing declaration.
    fn is_outer(&self, place: Place, at: usize) -> bool
        requires { IsPlaceOf self.now.tokens.now at place }
        ensures { result ≡ declarations.is_outer self.now.tokens.now at }
    {
        is_ref(self.tokens, at.saturating_sub(1))
            || place.depth == 0 && !place.is_inner(self.tokens, at)
    }

    /// The token that declares the name `text` in the enclosing declaration, or else at the top level.
    fn plain(&self, place: Place, at: usize, text: &'a str) -> Option<usize>
        requires { IsPlaceOf self.now.tokens.now at place }
        ensures { result ≡ declarations.plain self.now.tokens.now at text.now }
    {
        if self.is_outer(place, at) {
            return self.top(text);
        }
        let Some(owner) = place.owner else {
            return self.top(text);
        };
        match self.inner(owner, text) {
            Some(found) => Some(found),
            None => self.top(text),
        }
    }

    /// The token that declares the name of the token `at`, given the declarations of the names before it.
    fn declaration_of(&self, place: Place, before: &[Option<usize>], at: usize) -> Option<usize>
        requires { IsPlaceOf self.now.tokens.now at place }
        ensures { result ≡ declarations.declaration_of self.now.tokens.now before.now at }
    {
        let Some(text) = text_at(self.tokens, at) else {
            return None;
        };
        let near = at.saturating_sub(1);
        if let Some(Sign::Dot) = sign_at(self.tokens, near) {
            let holder = found_at(before, holder_at(self.tokens, at));
            return self.member(holder, text);
        }
        match word_at(self.tokens, near) {
            Some(Keyword::Where) => self.member(place.bound, text),
            _ => self.plain(place, at, text),
        }
    }
}

/// The declaring tokens, by token: the token that declares its name, if it is a declared name.
///
/// # Errors
///
/// `NoMemory`: a growth was refused.
pub fn declarations(alloc: Global, tokens: &[Token]) -> Result<Vec<Option<usize>>, NoMemory>
    ensures { IfOk result (λ found. found.items ≡ declarations.declarations tokens.now) }
{
    let text = Text {
        tokens,
        tables: Tables::of(alloc, tokens)?,
    };
    let mut found = Vec::new(alloc);
    let mut place = Place::first();
    for at in 0..tokens.len() {
        let declared = text.declaration_of(place, &found, at);
        found.push(declared)?;
        place = place.behind(tokens, at);
    }
    Ok(found)
}
