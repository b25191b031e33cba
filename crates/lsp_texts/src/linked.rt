//! The meanings of a text's names. The one error is a refused growth.

ghost use Rattle.std.specs.Prelude.{◌≡◌};
ghost use Rattle.lsp_texts.specs.Links as links;
ghost use Rattle.lsp_texts.specs.Declarations.{declarations};

use crate::listing::range_at;
use crate::offsets::offset_of;
use crate::walking::{Position, Walker};
use serde_json::{Value, json};
use source::memory::NoMemory;
use source::token::Token;
use std::alloc::{AllocError, Global};

/// Whether the token is a name that contains `byte`, or ends just before it.
fn holds(token: &Token, byte: usize) -> bool
    ensures { result ≡ links.holds byte token.now }
{
    match token {
        Token::Name(start, text) => {
            let start = *start as usize;
            start <= byte && byte - start <= text.len()
        }
        _ => false,
    }
}

/// The token that is the name at a position of a text: the name contains the position, or ends just before it.
pub fn name_number(text: &[u8], tokens: &[Token], place: Position) -> Option<usize>
    ensures { result ≡ links.name_number text.now place tokens.now }
{
    let byte = offset_of(text, place);
    tokens.iter().position(|token| holds(token, byte))
}

/// A document whose text has tokens, with the meanings of its names.
#[derive(Clone, Copy)]
pub struct Linked<'a> {
    /// The document's URI.
    pub uri: &'a str,
    /// The document's text.
    pub text: &'a [u8],
    /// The text's tokens.
    pub tokens: &'a [Token],
    /// By token: the token that declares its name, if it is a declared name.
    pub found: &'a [Option<usize>],
    ghost are: { found.now ≡ declarations tokens.now },
}

impl<'a> Linked<'a> {
    ghost use Rattle.std.specs.Prelude.{◌≡◌, map, IfOk};
    ghost use Rattle.serde_json.specs.Data.{array};
    ghost use Rattle.serde_json.specs.View.{view, items_of};
    ghost use Rattle.lsp_texts.specs.Links as links;

    /// The token that declares the name of the token `at`.
    pub fn declaration(&self, at: usize) -> Option<usize>
        ensures { result ≡ links.declaration self.now.tokens.now at }
    {
        match self.found.get(at) {
            Some(found) => *found,
            None => None,
        }
    }

    /// The token that declares the name at a position.
    #[tactic(auto, unfolding(crate::specs::Links::declaration_at))]
    pub fn declaration_at(&self, place: Position) -> Option<usize>
        ensures { result ≡ links.declaration_at self.now.text.now place self.now.tokens.now }
    {
        match name_number(self.text, self.tokens, place) {
            Some(at) => self.declaration(at),
            None => None,
        }
    }

    /// Whether the token `at` means what the token `declared` declares; `itself` says whether `declared` counts.
    fn is_reference(&self, itself: bool, declared: usize, at: usize) -> bool
        ensures { result ≡ links.is_reference self.now.tokens.now itself declared at }
    {
        match self.declaration(at) {
            Some(found) => found == declared && (itself || at != declared),
            None => false,
        }
    }

    /// The tokens that mean what the token `declared` declares, in order, with or without itself.
    pub fn references(
        &self,
        alloc: Global,
        itself: bool,
        declared: usize,
    ) -> Result<Vec<usize>, NoMemory>
        ensures { IfOk result (λ found. found.items ≡ links.references self.now.tokens.now itself declared) }
    {
        let mut found = Vec::new(alloc);
        for at in 0..self.tokens.len() {
            if self.is_reference(itself, declared, at) {
                found.push(at)?;
            }
        }
        Ok(found)
    }

    /// The location of the name that the token `at` is.
    pub fn location(
        &self,
        alloc: Global,
        walker: &mut Walker<'_>,
        at: usize,
    ) -> Result<Value, AllocError>
        requires { walker.old.text.now ≡ self.now.text.now }
        ensures same { walker.new.text.now ≡ walker.old.text.now }
        ensures told { IfOk result (λ told. view told ≡ links.location_data self.now.uri.now self.now.text.now
            self.now.tokens.now at) }
    {
        let range = range_at(alloc, walker, self.tokens, at)?;
        json!(in alloc; {"range": range, "uri": self.uri})
    }

    /// The locations of these names.
    pub fn locations(&self, alloc: Global, found: &[usize]) -> Result<Value, NoMemory>
        ensures { IfOk result (λ told. view told ≡ array (items_of (map (links.location_data self.now.uri.now
            self.now.text.now self.now.tokens.now) found.now))) }
    {
        let mut walker = Walker::new(self.text);
        let mut values = Vec::new(alloc);
        for at in found {
            values.push(self.location(alloc, &mut walker, *at)?)?;
        }
        Ok(Value::Array(values))
    }
}
