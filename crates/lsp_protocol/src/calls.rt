//! The call in a message.

ghost use Rattle.std.specs.Prelude.{◌≡◌, IfOk, IfErr, option_map};
ghost use Rattle.serde_json.specs.View.{view};
ghost use Rattle.lsp_protocol.specs.Calls as calls;
ghost use Rattle.lsp_protocol.specs.Working.MessageViews.{view_of_call, IsFault};

use serde_json::Value;
use std::alloc::Global;

/// A request or a notification.
#[derive(Clone, Copy, Drop)]
pub struct Message<'a> {
    /// The id of a request: an integer or a string. A notification has none.
    pub id: Option<&'a Value>,
    /// The method's name.
    pub method: &'a str,
    /// The method's parameters, if it has any.
    pub params: Option<&'a Value>,
}

/// The reason why a body has no message.
#[derive(Clone, Copy, Debug, PartialEq, Eq)]
pub enum ReadFault {
    /// The body is not JSON, or nests too deep.
    NoJson,
    /// An allocation failed.
    OutOfMemory,
}

/// The message in the body of a frame.
///
/// # Errors
///
/// It is not JSON, or an allocation failed.
pub fn read_message(alloc: Global, body: &[u8]) -> Result<Value, ReadFault>
    ensures ok { IfOk result (λ message. calls.IsMessage body.now (view message)) }
    ensures err { IfErr result (IsFault body.now) }
{
    match Value::from_slice(alloc, body) {
        Ok(message) => Ok(message),
        Err(error) => Err(if error.is_memory() {
            ReadFault::OutOfMemory
        } else {
            ReadFault::NoJson
        }),
    }
}

/// Whether the value can be the id of a request: an integer or a string.
fn is_id(value: &Value) -> bool
    ensures { result ≡ calls.is_id (view value.now) }
{
    match value.as_number() {
        Some(number) => !number.is_f64(),
        None => value.is_string(),
    }
}

/// Whether a message with this id, or without one, may be a call.
fn fits(id: Option<&Value>) -> bool
    ensures { result ≡ calls.fits (option_map (λ value. view value.now) id.entry) }
{
    match id {
        Some(id) => is_id(id),
        None => true,
    }
}

/// The call in a message, if it is one.
pub fn call_of(message: &Value) -> Option<Message<'_>>
    ensures { option_map view_of_call result ≡ calls.call_of (view message.now) }
{
    let Some(method) = message.get("method") else {
        return None;
    };
    let Some(method) = method.as_str() else {
        return None;
    };
    let id = message.get("id");
    if !fits(id) {
        return None;
    }
    let params = message.get("params");
    Some(Message { id, method, params })
}

/// The id of a message, if it has one that a response could have.
pub fn id_of(message: &Value) -> Option<&Value>
    ensures { option_map (λ id. view id.now) result ≡ calls.id_of (view message.entry.now) }
{
    let Some(id) = message.get("id") else {
        return None;
    };
    if is_id(id) { Some(id) } else { None }
}
