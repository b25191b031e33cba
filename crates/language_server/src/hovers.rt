//! The hover at a position.

ghost use Rattle.std.specs.Prelude.{◌≡◌, false, IfOk};
ghost use Rattle.serde_json.specs.View.{view};
ghost use Rattle.serde_json.specs.Written.{has_float};
ghost use Rattle.language_server.specs.Hovers.{IsHoverOf};

use crate::name_hovers::name_hover;
use lsp_texts::Position;
use serde_json::Value;
use source::memory::NoMemory;
use std::alloc::Global;

/// The protocol's `Hover` at a position: on the name there, as [`name_hover`] writes it; or, where no declared name
/// stands there, on the statement.
///
/// # Errors
///
/// `NoMemory`: a growth was refused.
pub fn hover(alloc: Global, text: &str, position: Position) -> Result<Value, NoMemory>
    ensures told { IfOk result (λ told. IsHoverOf text.now position (view told)) }
    ensures plain { IfOk result (λ told. has_float (view told) ≡ false) }
{
    match name_hover(alloc, text, position)? {
        Some(told) => Ok(told),
        None => crate::hover_object::hover(alloc, text, position),
    }
}
