//! Positions and ranges as JSON. The one error is a refused growth.

ghost use Rattle.std.specs.Prelude.{◌≡◌, IfOk};
ghost use Rattle.serde_json.specs.View.{view};
ghost use Rattle.lsp_texts.specs.Ranges as object;

use crate::walking::{Position, Walker};
use serde_json::{Value, json};
use std::alloc::{AllocError, Global};

/// The JSON of a position.
///
/// # Errors
///
/// A growth is refused.
pub fn place_value(alloc: Global, place: Position) -> Result<Value, AllocError>
    ensures { IfOk result (λ told. view told ≡ object.place_data place) }
{
    json!(in alloc; {"character": place.unit, "line": place.line})
}

/// The range from the byte `start` of a text to the byte `end`; a byte past the text's end counts as its end. The bytes
/// between the walker and these are passed once, where these increase from call to call.
///
/// # Errors
///
/// A growth is refused.
pub fn range_value(
    alloc: Global,
    walker: &mut Walker<'_>,
    start: usize,
    end: usize,
) -> Result<Value, AllocError>
    ensures same { walker.new.text.now ≡ walker.old.text.now }
    ensures told { IfOk result (λ told. view told ≡ object.range_data walker.old.text.now start end) }
{
    let begin = walker.position_of(start);
    let behind = walker.position_of(end);
    let first = place_value(alloc, begin)?;
    let last = place_value(alloc, behind)?;
    json!(in alloc; {"end": last, "start": first})
}
