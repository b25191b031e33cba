//! The parameters of notifications about documents.

ghost use Rattle.std.specs.Prelude.{◌≡◌, option_map};
ghost use Rattle.serde_json.specs.View.{view};
ghost use Rattle.lsp_protocol.specs.Parameters as parameters;

use serde_json::Value;

/// The string in a member.
fn text_in<'a>(value: &'a Value, member: &str) -> Option<&'a str>
    ensures { option_map (λ text. text.now) result ≡ parameters.text_in member.now (view value.entry.now) }
{
    match value.get(member) {
        Some(found) => found.as_str(),
        None => None,
    }
}

/// The document that a call is about: `textDocument.uri`.
pub fn document_uri(params: &Value) -> Option<&str>
    ensures { option_map (λ uri. uri.now) result ≡ parameters.document_uri (view params.entry.now) }
{
    match params.get("textDocument") {
        Some(document) => text_in(document, "uri"),
        None => None,
    }
}

/// The text that a document is opened with: `textDocument.text`.
pub fn opened_text(params: &Value) -> Option<&str>
    ensures { option_map (λ text. text.now) result ≡ parameters.opened_text (view params.entry.now) }
{
    match params.get("textDocument") {
        Some(document) => text_in(document, "text"),
        None => None,
    }
}

/// The text of a document after its changes: the `text` of the last of `contentChanges`, which is a whole one.
pub fn changed_text(params: &Value) -> Option<&str>
    ensures { option_map (λ text. text.now) result ≡ parameters.changed_text (view params.entry.now) }
{
    match params.get("contentChanges") {
        Some(changes) => last_text(changes),
        None => None,
    }
}

/// The text of the last change.
fn last_text(changes: &Value) -> Option<&str>
    ensures { option_map (λ text. text.now) result ≡ parameters.last_text (view changes.entry.now) }
{
    let Some(all) = changes.as_array() else {
        return None;
    };
    match all.last() {
        Some(change) => text_in(change, "text"),
        None => None,
    }
}
