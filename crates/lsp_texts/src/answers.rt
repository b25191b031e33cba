//! The answers on names. The one error is a refused growth.

ghost use Rattle.std.specs.Prelude.{◌≡◌, false, IfOk};
ghost use Rattle.serde_json.specs.Data.{array, no_items, null};
ghost use Rattle.serde_json.specs.View.{view};
ghost use Rattle.serde_json.specs.Written.{has_float};
ghost use Rattle.lsp_texts.specs.Links as links;
ghost use Rattle.lsp_texts.specs.Told.{IsToldOf};

use crate::linked::Linked;
use crate::meaning::declarations;
use crate::texts::tokens_of;
use crate::walking::{Position, Walker};
use serde_json::Value;
use source::memory::NoMemory;
use std::alloc::{AllocError, Global};

/// A position in a document.
#[derive(Clone, Copy)]
pub struct DocumentPosition<'a> {
    /// The document's URI.
    pub uri: &'a str,
    /// The document's text.
    pub text: &'a str,
    /// The position in the text.
    pub position: Position,
}

/// The place where the name at `place` is declared.
fn definition_in(alloc: Global, document: &Linked<'_>, place: Position) -> Result<Value, AllocError>
    ensures { IfOk result (λ told. view told ≡ links.definition_data document.now.uri.now document.now.text.now place
        document.now.tokens.now) }
{
    match document.declaration_at(place) {
        Some(declared) => document.location(alloc, &mut Walker::new(document.text), declared),
        None => Ok(Value::Null),
    }
}

/// The empty list of locations.
fn no_locations(alloc: Global) -> Value
    ensures { view result ≡ array no_items }
{
    Value::Array(Vec::new(alloc))
}

/// The places of the names that mean the same as the name at `place`; `itself` says whether the declaring name is
/// included.
fn references_in(
    alloc: Global,
    document: &Linked<'_>,
    place: Position,
    itself: bool,
) -> Result<Value, NoMemory>
    ensures { IfOk result (λ told. view told ≡ links.references_data document.now.uri.now document.now.text.now place
        itself document.now.tokens.now) }
{
    let Some(declared) = document.declaration_at(place) else {
        return Ok(no_locations(alloc));
    };
    let found = document.references(alloc, itself, declared)?;
    document.locations(alloc, &found)
}

/// The place where the name at a position is declared: a `Location`, or `null` where no declared name stands there, or
/// the text has a lexical fault.
///
/// # Errors
///
/// `NoMemory`: a growth was refused.
pub fn definition(alloc: Global, asked: &DocumentPosition<'_>) -> Result<Value, NoMemory>
    ensures told { IfOk result (λ told. IsToldOf asked.now.text.now
        (links.definition_data asked.now.uri.now asked.now.text.now asked.now.position) null (view told)) }
    ensures plain { IfOk result (λ told. has_float (view told) ≡ false) }
{
    let Some(tokens) = tokens_of(alloc, asked.text)? else {
        return Ok(Value::Null);
    };
    let found = declarations(alloc, &tokens)?;
    let document = Linked {
        uri: asked.uri,
        text: asked.text.as_bytes(),
        tokens: &tokens,
        found: &found,
    };
    let told = definition_in(alloc, &document, asked.position)?;
    Ok(told)
}

/// The places of the names that mean the same as the name at a position: a list of `Location`s, in the order of the
/// text, with or without the declaration. It is empty where no declared name stands there, or the text has a lexical
/// fault.
///
/// # Errors
///
/// `NoMemory`: a growth was refused.
pub fn references(
    alloc: Global,
    asked: &DocumentPosition<'_>,
    with_declaration: bool,
) -> Result<Value, NoMemory>
    ensures told { IfOk result (λ told. IsToldOf asked.now.text.now (links.references_data asked.now.uri.now
        asked.now.text.now asked.now.position with_declaration) (array no_items) (view told)) }
    ensures plain { IfOk result (λ told. has_float (view told) ≡ false) }
{
    let Some(tokens) = tokens_of(alloc, asked.text)? else {
        return Ok(no_locations(alloc));
    };
    let found = declarations(alloc, &tokens)?;
    let document = Linked {
        uri: asked.uri,
        text: asked.text.as_bytes(),
        tokens: &tokens,
        found: &found,
    };
    references_in(alloc, &document, asked.position, with_declaration)
}
