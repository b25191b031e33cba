//! The actions. The one error is a refused growth.

ghost use Rattle.std.specs.Prelude.{◌≡◌, false, IfOk};
ghost use Rattle.serde_json.specs.Data.{array, no_items};
ghost use Rattle.serde_json.specs.View.{view};
ghost use Rattle.serde_json.specs.Written.{has_float};
ghost use Rattle.source.specs.Tokens.{seen};
ghost use Rattle.explanations.specs.Told.{said_by};
ghost use Rattle.language_server.specs.Actions as actions;

use crate::faulty::Faulty;
use explanation::end_of;
use explanations::{Diagnosis, told_of};
use lexer::lex;
use lsp_texts::{Position, offset_of};
use serde_json::Value;
use source::fault::Refusal;
use source::memory::NoMemory;
use source::token::Token;
use std::alloc::{AllocError, Global};

/// A range of a document.
#[derive(Clone, Copy)]
pub struct DocumentRange<'a> {
    /// The document's URI.
    pub uri: &'a str,
    /// The document's text.
    pub text: &'a str,
    /// The position of the range's start.
    pub start: Position,
    /// The position of the range's end.
    pub end: Position,
}

impl<'a> DocumentRange<'a> {
    /// Whether the range meets the word that begins at byte `start`, where a fault stands.
    fn meets(&self, start: usize) -> bool
        ensures { result ≡ actions.meets self.now.text.now self.now.start self.now.end start }
    {
        let text = self.text.as_bytes();
        offset_of(text, self.start) <= end_of(text, start) && start <= offset_of(text, self.end)
    }
}

/// The empty list of actions.
fn no_actions(alloc: Global) -> Value
    ensures { view result ≡ array no_items }
{
    Value::Array(Vec::new(alloc))
}

/// The actions for a range of a document, given the report `told` on its text.
fn actions_told(
    alloc: Global,
    asked: &DocumentRange<'_>,
    tokens: &[Token],
    told: &Diagnosis,
) -> Result<Value, AllocError>
    ensures { IfOk result (λ found. view found ≡ actions.actions_data asked.now.uri.now asked.now.text.now
        (asked.now.start, asked.now.end) (seen tokens.now) (said_by told.now)) }
{
    match told {
        Diagnosis::Faulty { fault, notes, .. } if asked.meets(fault.start) => {
            let faulty = Faulty {
                uri: asked.uri,
                text: asked.text.as_bytes(),
                tokens,
                fault,
            };
            faulty.actions(alloc, notes)
        }
        _ => Ok(no_actions(alloc)),
    }
}

/// The actions for a range of a document: a list of the protocol's `CodeAction`, each a `quickfix` with its edit. Where
/// the range meets the word of the text's fault, the list has one action for each note on the fault that proposes a
/// change: for an unknown name a similar name, for what no lock protects the annotation, for an unexpected token a
/// missing `;`, or that the token is left out. Otherwise the list is empty.
///
/// # Errors
///
/// `NoMemory`: a growth was refused.
pub fn code_actions(alloc: Global, asked: &DocumentRange<'_>) -> Result<Value, NoMemory>
    ensures told { IfOk result (λ told. actions.AreActionsOf asked.now.uri.now asked.now.text.now
        (asked.now.start, asked.now.end) (view told)) }
    ensures plain { IfOk result (λ told. has_float (view told) ≡ false) }
{
    let text = asked.text.as_bytes();
    let tokens = match lex(alloc, text) {
        Ok(tokens) => tokens,
        Err(Refusal::NoMemory) => return Err(NoMemory),
        Err(Refusal::Fault(_)) => return Ok(no_actions(alloc)),
    };
    let told = told_of(alloc, text)?;
    let found = actions_told(alloc, asked, &tokens, &told)?;
    Ok(found)
}
