//! Renames. The one error is a refused growth.

ghost use Rattle.std.specs.Prelude.{◌≡◌, false, map, IfOk};
ghost use Rattle.std.specs.Bool.{Decides};
ghost use Rattle.serde_json.specs.Data.{array, null};
ghost use Rattle.serde_json.specs.View.{view, items_of};
ghost use Rattle.serde_json.specs.Written.{has_float};
ghost use Rattle.lsp_texts.specs.Renames as renames;
ghost use Rattle.lsp_texts.specs.Told.{IsToldOf};
ghost use Rattle.lsp_texts.specs.Working.LoneNames.{are_lone};
ghost use Rattle.source.specs.Tokens.{seen};

use crate::answers::DocumentPosition;
use crate::linked::Linked;
use crate::listing::range_at;
use crate::meaning::declarations;
use crate::taken::is_taken;
use crate::texts::tokens_of;
use crate::walking::{Position, Walker};
use serde_json::{Value, json};
use source::memory::NoMemory;
use source::token::Token;
use std::alloc::{AllocError, Global};

/// Whether the tokens are the name `text` alone.
fn are_name(tokens: &[Token], text: &str) -> bool
    ensures { result ≡ are_lone (seen tokens.now) text.now }
{
    match tokens {
        [Token::Name(_, name), Token::End(_)] => name.len() == text.len(),
        _ => false,
    }
}

/// Whether `text` is a name of the language.
fn is_name(alloc: Global, text: &str) -> Result<bool, NoMemory>
    ensures { IfOk result (λ is. Decides is (renames.IsName text.now)) }
{
    match tokens_of(alloc, text)? {
        Some(tokens) => Ok(are_name(&tokens, text)),
        None => Ok(false),
    }
}

/// A new name for a name of a document.
#[derive(Clone, Copy)]
struct Renaming<'a, 'b> {
    document: Linked<'a>,
    name: &'b str,
}

impl<'a, 'b> Renaming<'a, 'b> {
    ghost use Rattle.std.specs.Prelude.{◌≡◌, map, IfOk};
    ghost use Rattle.serde_json.specs.Data.{array};
    ghost use Rattle.serde_json.specs.View.{view, items_of};
    ghost use Rattle.lsp_texts.specs.Renames as renames;

    /// The edit of the name that the token `at` is.
    fn edit(&self, alloc: Global, walker: &mut Walker<'_>, at: usize) -> Result<Value, AllocError>
        requires { walker.old.text.now ≡ self.now.document.text.now }
        ensures same { walker.new.text.now ≡ walker.old.text.now }
        ensures told { IfOk result (λ told. view told ≡ renames.edit_data self.now.name.now
            self.now.document.text.now self.now.document.tokens.now at) }
    {
        let range = range_at(alloc, walker, self.document.tokens, at)?;
        json!(in alloc; {"newText": self.name, "range": range})
    }

    /// The edits of these names.
    fn edits(&self, alloc: Global, found: &[usize]) -> Result<Value, NoMemory>
        ensures { IfOk result (λ told. view told ≡ array (items_of (map (renames.edit_data self.now.name.now
            self.now.document.text.now self.now.document.tokens.now) found.now))) }
    {
        let mut walker = Walker::new(self.document.text);
        let mut values = Vec::new(alloc);
        for at in found {
            values.push(self.edit(alloc, &mut walker, *at)?)?;
        }
        Ok(Value::Array(values))
    }

    /// The edits of all tokens that mean what the token `declared` declares.
    fn changes(&self, alloc: Global, declared: usize) -> Result<Value, NoMemory>
        ensures { IfOk result (λ told. view told ≡ renames.edits_data self.now.document.uri.now
            self.now.document.text.now self.now.name.now self.now.document.tokens.now declared) }
    {
        let found = self.document.references(alloc, true, declared)?;
        let edits = self.edits(alloc, &found)?;
        let uri = self.document.uri;
        let changes = json!(in alloc; {"changes": {uri: edits}})?;
        Ok(changes)
    }

    /// The edits for the name at a position.
    fn renamed(&self, alloc: Global, place: Position) -> Result<Value, NoMemory>
        ensures { IfOk result (λ told. view told ≡ renames.rename_data self.now.document.uri.now
            self.now.document.text.now place self.now.name.now self.now.document.tokens.now) }
    {
        match self.document.declaration_at(place) {
            Some(declared) if !is_taken(self.document.tokens, declared, self.name) => {
                self.changes(alloc, declared)
            }
            _ => Ok(Value::Null),
        }
    }
}

/// The edits that rename the name at a position: a `WorkspaceEdit`, or `null` where no declared name stands there, or
/// `new_name` is not a name of the language or is taken, or the text has a lexical fault.
///
/// # Errors
///
/// `NoMemory`: a growth was refused.
pub fn rename(
    alloc: Global,
    asked: &DocumentPosition<'_>,
    new_name: &str,
) -> Result<Value, NoMemory>
    ensures told { IfOk result (λ told. renames.IsName new_name.now → IsToldOf asked.now.text.now
        (renames.rename_data asked.now.uri.now asked.now.text.now asked.now.position new_name.now) null (view told)) }
    ensures refused { IfOk result (λ told. ¬ renames.IsName new_name.now → view told ≡ null) }
    ensures plain { IfOk result (λ told. has_float (view told) ≡ false) }
{
    if !is_name(alloc, new_name)? {
        return Ok(Value::Null);
    }
    let Some(tokens) = tokens_of(alloc, asked.text)? else {
        return Ok(Value::Null);
    };
    let found = declarations(alloc, &tokens)?;
    let renaming = Renaming {
        document: Linked {
            uri: asked.uri,
            text: asked.text.as_bytes(),
            tokens: &tokens,
            found: &found,
        },
        name: new_name,
    };
    renaming.renamed(alloc, asked.position)
}
