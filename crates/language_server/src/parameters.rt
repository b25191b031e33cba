//! The parameters of requests about documents.

ghost use Rattle.std.specs.Prelude.{◌≡◌, option_map};
ghost use Rattle.serde_json.specs.View.{view};
ghost use Rattle.language_server.specs.Parameters as parameters;

use lsp_texts::Position;
use serde_json::Value;

/// The number in a member.
fn number_in(value: &Value, member: &str) -> Option<u64>
    ensures { result ≡ parameters.number_in member.now (view value.now) }
{
    match value.get(member) {
        Some(found) => found.as_u64(),
        None => None,
    }
}

/// A position: `line` and `character`.
fn position_of(value: &Value) -> Option<Position>
    ensures { result ≡ parameters.position_of (view value.now) }
{
    match (number_in(value, "line"), number_in(value, "character")) {
        (Some(line), Some(unit)) => Some(Position { line, unit }),
        _ => None,
    }
}

/// The requested position: `position`.
pub fn position(params: &Value) -> Option<Position>
    ensures { result ≡ parameters.position (view params.now) }
{
    match params.get("position") {
        Some(found) => position_of(found),
        None => None,
    }
}

/// Whether the declaring name is requested too: `context.includeDeclaration`, false where it is missing.
pub fn with_declaration(params: &Value) -> bool
    ensures { result ≡ parameters.with_declaration (view params.now) }
{
    let Some(context) = params.get("context") else {
        return false;
    };
    match context.get("includeDeclaration") {
        Some(found) => found.as_bool().unwrap_or(false),
        None => false,
    }
}

/// The requested name: `newName`.
pub fn new_name(params: &Value) -> Option<&str>
    ensures { option_map (λ text. text.now) result ≡ parameters.new_name (view params.entry.now) }
{
    match params.get("newName") {
        Some(found) => found.as_str(),
        None => None,
    }
}

/// The position of an end of a range: `start` or `end`.
fn end_in(range: &Value, end: &str) -> Option<Position>
    ensures { result ≡ parameters.end_in end.now (view range.now) }
{
    match range.get(end) {
        Some(place) => position_of(place),
        None => None,
    }
}

/// The start and the end of the requested range: `range`.
pub fn range(params: &Value) -> Option<(Position, Position)>
    ensures { result ≡ parameters.range (view params.now) }
{
    let Some(range) = params.get("range") else {
        return None;
    };
    match (end_in(range, "start"), end_in(range, "end")) {
        (Some(start), Some(end)) => Some((start, end)),
        _ => None,
    }
}

/// The line of an end of a range: `start` or `end`.
fn line_of(range: &Value, end: &str) -> Option<u64>
    ensures { result ≡ parameters.line_of end.now (view range.now) }
{
    match range.get(end) {
        Some(place) => number_in(place, "line"),
        None => None,
    }
}

/// The first and the last line of the requested range: `range`.
pub fn lines(params: &Value) -> Option<(u64, u64)>
    ensures { result ≡ parameters.lines (view params.now) }
{
    let Some(range) = params.get("range") else {
        return None;
    };
    match (line_of(range, "start"), line_of(range, "end")) {
        (Some(first), Some(last)) => Some((first, last)),
        _ => None,
    }
}
