//! What a server does for a message.

ghost use Rattle.std.specs.Prelude.{◌≡◌};
ghost use Rattle.std.specs.Str.{bytes_eq};
ghost use Rattle.serde_json.specs.View.{view};
ghost use Rattle.lsp_protocol.specs.Working.MessageViews.{view_of_call};
ghost use Rattle.lsp_protocol.specs.Deeds as deeds;
ghost use Rattle.lsp_protocol.specs.Working.Values.{text_behind, data_behind};
ghost use Rattle.lsp_protocol.specs.Working.ServerViews.{view_of_deed};

use crate::calls::{Message, call_of, id_of};
use crate::language::Language;
use crate::parameters::{changed_text, document_uri, opened_text};
use crate::replies::Failure;
use serde_json::Value;

/// The phase of a session.
#[derive(Clone, Copy, Debug, PartialEq, Eq)]
pub enum Phase {
    /// The client has not asked to initialize yet.
    New,
    /// The client has asked to initialize.
    Running,
    /// The client has asked to shut down.
    ShutDown,
}

/// What a server does for a message.
#[derive(Clone, Copy, Drop)]
pub enum Deed<'a> {
    /// It refuses the message of this id, if it has one.
    Refuse(Option<&'a Value>, Failure),
    /// It begins the session, and the request of this id gets the server's capabilities.
    Begin(&'a Value),
    /// It shuts down, as the request of this id asks.
    ShutDown(&'a Value),
    /// It ends.
    Exit,
    /// It sets the text of the document with this URI.
    Open(&'a str, &'a str),
    /// It closes the document with this URI.
    Close(&'a str),
    /// It answers the request of this id by this method, for the document with this URI and these parameters.
    Find(&'a Value, &'a str, &'a str, &'a Value),
    /// Nothing.
    Ignore,
}

/// Whether a method has this name.
fn is_named(method: &str, name: &str) -> bool
    ensures { result ≡ bytes_eq method.now name.now }
{
    method == name
}

/// The deed of a notification that a document has a text.
fn opened<'a>(params: &'a Value, text: Option<&'a str>) -> Deed<'a>
    ensures { view_of_deed result ≡ deeds.opened (view params.entry.now) (text_behind text.entry) }
{
    match (document_uri(params), text) {
        (Some(uri), Some(text)) => Deed::Open(uri, text),
        _ => Deed::Ignore,
    }
}

/// The deed of a notification that a document is closed.
fn closed(params: &Value) -> Deed<'_>
    ensures { view_of_deed result ≡ deeds.closed (view params.entry.now) }
{
    match document_uri(params) {
        Some(uri) => Deed::Close(uri),
        None => Deed::Ignore,
    }
}

/// The deed of a notification.
fn notified<'a>(method: &'a str, params: Option<&'a Value>) -> Deed<'a>
    ensures { view_of_deed result ≡ deeds.notified method.entry.now (data_behind params.entry) }
{
    let Some(params) = params else {
        return Deed::Ignore;
    };
    if is_named(method, "textDocument/didOpen") {
        return opened(params, opened_text(params));
    }
    if is_named(method, "textDocument/didChange") {
        return opened(params, changed_text(params));
    }
    if is_named(method, "textDocument/didClose") {
        return closed(params);
    }
    Deed::Ignore
}

/// The deed of a request about a document.
fn asked<'a>(id: &'a Value, method: &'a str, params: Option<&'a Value>) -> Deed<'a>
    ensures { view_of_deed result ≡ deeds.asked (view id.entry.now) method.entry.now
        (data_behind params.entry) }
{
    if let Some(params) = params
        && let Some(uri) = document_uri(params)
    {
        return Deed::Find(id, method, uri, params);
    }
    Deed::Refuse(Some(id), Failure::InvalidParameters)
}

/// The deed of a request in a running session.
fn requested<'a, L: Language>(
    language: &L,
    id: &'a Value,
    method: &'a str,
    params: Option<&'a Value>,
) -> Deed<'a>
    ensures { view_of_deed result ≡ deeds.requested L.is_method (view id.entry.now) method.entry.now
        (data_behind params.entry) }
{
    if is_named(method, "initialize") {
        return Deed::Refuse(Some(id), Failure::InvalidRequest);
    }
    if is_named(method, "shutdown") {
        return Deed::ShutDown(id);
    }
    if language.has_method(method) {
        return asked(id, method, params);
    }
    Deed::Refuse(Some(id), Failure::NoMethod)
}

/// The deed of a request.
fn called<'a, L: Language>(phase: Phase, language: &L, id: &'a Value, call: Message<'a>) -> Deed<'a>
    ensures { view_of_deed result ≡ deeds.called L.is_method phase (view id.entry.now) (view_of_call call.entry) }
{
    match phase {
        Phase::New => {
            if is_named(call.method, "initialize") {
                Deed::Begin(id)
            } else {
                Deed::Refuse(Some(id), Failure::NotInitialized)
            }
        }
        Phase::Running => requested(language, id, call.method, call.params),
        Phase::ShutDown => Deed::Refuse(Some(id), Failure::InvalidRequest),
    }
}

/// The deed of a message in this phase.
pub fn deed_of<'a, L: Language>(phase: Phase, language: &L, message: &'a Value) -> Deed<'a>
    ensures { view_of_deed result ≡ deeds.deed_of L.is_method phase (view message.entry.now) }
{
    let Some(call) = call_of(message) else {
        return Deed::Refuse(id_of(message), Failure::InvalidRequest);
    };
    if is_named(call.method, "exit") {
        return Deed::Exit;
    }
    match call.id {
        Some(id) => called(phase, language, id, call),
        None => match phase {
            Phase::Running => notified(call.method, call.params),
            _ => Deed::Ignore,
        },
    }
}
