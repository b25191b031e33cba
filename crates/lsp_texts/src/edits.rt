//! The edits. The one error is a refused growth.

ghost use Rattle.std.specs.Prelude.{◌≡◌, false, IfOk};
ghost use Rattle.serde_json.specs.Data.{array, no_items, null};
ghost use Rattle.serde_json.specs.View.{view};
ghost use Rattle.serde_json.specs.Written.{has_float};
ghost use Rattle.lsp_texts.specs.Edits as edits;

use crate::ranges::range_value;
use crate::walking::Walker;
use formatting::{format, one_layout};
use serde_json::{Value, json};
use source::fault::Refusal;
use source::memory::NoMemory;
use std::alloc::{AllocError, Global};
use std::str::from_utf8;

/// The empty list of edits.
fn no_edits(alloc: Global) -> Value
    ensures { view result ≡ array no_items }
{
    Value::Array(Vec::new(alloc))
}

/// JSON's `null`.
fn null_value() -> Value
    ensures { view result ≡ null }
{
    Value::Null
}

/// The edit that replaces the whole text by `new`.
fn whole_edit(alloc: Global, text: &str, new: &str) -> Result<Value, AllocError>
    ensures { IfOk result (λ told. view told ≡ edits.whole_edit_data text.now new.now) }
{
    let bytes = text.as_bytes();
    let range = range_value(alloc, &mut Walker::new(bytes), 0, bytes.len())?;
    json!(in alloc; {"newText": new, "range": range})
}

/// The list of that edit alone.
fn whole_edits(alloc: Global, text: &str, new: &str) -> Result<Value, AllocError>
    ensures { IfOk result (λ told. view told ≡ edits.whole_data text.now new.now) }
{
    let edit = whole_edit(alloc, text, new)?;
    json!(in alloc; [&edit])
}

/// The edits that bring `text` into its layout.
fn edits_to(alloc: Global, text: &str, layout: &[u8]) -> Result<Value, AllocError>
    requires { edits.HasLayout text.now layout.now }
    ensures told { IfOk result (λ told. edits.AreEditsOf text.now (view told)) }
    ensures plain { IfOk result (λ told. has_float (view told) ≡ false) }
{
    one_layout();
    match from_utf8(layout) {
        Ok(new) if new == text => Ok(no_edits(alloc)),
        Ok(new) => whole_edits(alloc, text, new),
        Err(_) => Ok(null_value()),
    }
}

/// The edits that bring `text` into its layout: a list of the protocol's `TextEdit`. It is empty for a text that is its
/// own layout, and otherwise has one edit of the whole text. The answer is `null` for a text that does not have a
/// layout, since it has a lexical or a syntax fault, or whose layout is not UTF-8.
///
/// # Errors
///
/// `NoMemory`: a growth was refused.
pub fn formatting_edits(alloc: Global, text: &str) -> Result<Value, NoMemory>
    ensures told { IfOk result (λ told. edits.AreEditsOf text.now (view told)) }
    ensures plain { IfOk result (λ told. has_float (view told) ≡ false) }
{
    match format(alloc, text.as_bytes()) {
        Ok(layout) => Ok(edits_to(alloc, text, &layout)?),
        Err(Refusal::NoMemory) => Err(NoMemory),
        Err(Refusal::Fault(_)) => Ok(null_value()),
    }
}
