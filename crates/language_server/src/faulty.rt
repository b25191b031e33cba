//! Documents with a fault. The one error is a refused growth.

ghost use Rattle.std.specs.Prelude.{◌≡◌, ◌++◌, IfOk, OnOk, map, option_map};
ghost use Rattle.explanation.specs.Notes.{note_of};
ghost use Rattle.serde_json.specs.Data.{array};
ghost use Rattle.serde_json.specs.View.{view, items_of};
ghost use Rattle.source.specs.Tokens.{seen};
ghost use Rattle.language_server.specs.Actions as actions;
ghost use Rattle.language_server.specs.Changes as changes;
ghost use Rattle.language_server.specs.Working.Values.{change_of};

use crate::changes::{Change, first_word};
use crate::tokens::{annotation_place, token_end};
use explanation::{Note, end_of};
use lsp_texts::{Walker, range_value};
use serde_json::{Value, json};
use source::fault::{Code, Fault};
use source::token::Token;
use std::alloc::{AllocError, Global};

/// A document whose text has a fault.
#[derive(Clone, Copy)]
pub struct Faulty<'a> {
    /// The document's URI.
    pub uri: &'a str,
    /// The document's text.
    pub text: &'a [u8],
    /// The text's tokens.
    pub tokens: &'a [Token],
    /// The text's fault.
    pub fault: &'a Fault,
}

/// The name that `note`, a note on an unknown name, proposes.
fn meant(note: &Note) -> &str
    ensures { result.now ≡ changes.meant (note_of note.entry.now) }
{
    match note.start {
        Some(_) => first_word(note.words.as_str()),
        None => "null",
    }
}

impl<'a> Faulty<'a> {
    /// The change that a note on an unexpected token proposes, if it proposes one.
    fn advised(&self, alloc: Global, note: &Note) -> Result<Option<Change>, AllocError>
        ensures { IfOk result (λ change. option_map change_of change ≡ changes.advised_at self.now.text.now
            (seen self.now.tokens.now) self.now.fault.now.start (note_of note.now).start (note_of note.now).words) }
    {
        match (note.start, note.words.as_str()) {
            (Some(start), "a `;` may be missing after this") => {
                let place = token_end(self.tokens, start);
                Ok(Some(Change::ended(alloc, place)?))
            }
            (None, "leave this `;` out") => {
                let start = self.fault.start;
                let end = end_of(self.text, start);
                Ok(Some(Change::left_out(alloc, start, end)?))
            }
            _ => Ok(None),
        }
    }

    /// The change that a note proposes, if it proposes one.
    fn change(&self, alloc: Global, note: &Note) -> Result<Option<Change>, AllocError>
        ensures { IfOk result (λ change. option_map change_of change ≡ changes.proposed self.now.text.now
            (seen self.now.tokens.now) self.now.fault.now (note_of note.now)) }
    {
        let start = self.fault.start;
        match self.fault.code {
            Code::UnexpectedToken => self.advised(alloc, note),
            Code::UnknownName => {
                let end = end_of(self.text, start);
                Ok(Some(Change::replaced(alloc, start, end, meant(note))?))
            }
            Code::NeitherFinalNorProtected => {
                let place = annotation_place(self.tokens, start);
                let lock = first_word(note.words.as_str());
                Ok(Some(Change::annotated(alloc, place, lock)?))
            }
            _ => Ok(None),
        }
    }

    /// `change` as an edit.
    fn edit(&self, alloc: Global, change: &Change) -> Result<Value, AllocError>
        ensures { IfOk result (λ told. view told ≡ actions.edit_data self.now.text.now (change_of change.now)) }
    {
        let mut walker = Walker::new(self.text);
        let range = range_value(alloc, &mut walker, change.start, change.end)?;
        json!(in alloc; {"newText": change.new.as_str(), "range": range})
    }

    /// `change` as the edit of a workspace.
    fn workspace_edit(&self, alloc: Global, change: &Change) -> Result<Value, AllocError>
        ensures { IfOk result (λ told. view told
            ≡ actions.workspace_edit_data self.now.uri.now self.now.text.now (change_of change.now)) }
    {
        let edit = self.edit(alloc, change)?;
        let edits = json!(in alloc; [&edit])?;
        let uri = self.uri;
        json!(in alloc; {"changes": {uri: edits}})
    }

    /// `change` as an action.
    fn action(&self, alloc: Global, change: &Change) -> Result<Value, AllocError>
        ensures { IfOk result (λ told. view told
            ≡ actions.action_data self.now.uri.now self.now.text.now (change_of change.now)) }
    {
        let edit = self.workspace_edit(alloc, change)?;
        json!(in alloc; {"edit": edit, "kind": "quickfix", "title": change.title.as_str()})
    }

    /// Appends the action of a note, if it proposes a change.
    fn push_action(
        &self,
        alloc: Global,
        values: &mut Vec<Value>,
        note: &Note,
    ) -> Result<(), AllocError>
        ensures { OnOk result (map view values.new.items ≡ map view values.old.items
            ++ actions.note_actions self.now.uri.now self.now.text.now (seen self.now.tokens.now) self.now.fault.now
            (note_of note.now)) }
    {
        let Some(change) = self.change(alloc, note)? else {
            return Ok(());
        };
        values.push(self.action(alloc, &change)?)?;
        Ok(())
    }

    /// The actions of `notes`.
    pub fn actions(&self, alloc: Global, notes: &[Note]) -> Result<Value, AllocError>
        ensures { IfOk result (λ told. view told ≡ array (items_of (actions.fault_actions self.now.uri.now
            self.now.text.now (seen self.now.tokens.now) self.now.fault.now (map note_of notes.now)))) }
    {
        let mut values = Vec::new(alloc);
        for note in notes {
            self.push_action(alloc, &mut values, note)?;
        }
        Ok(Value::Array(values))
    }
}
