//! The messages that a server writes. The only error is a failed allocation.

ghost use Rattle.std.specs.Prelude.{◌≡◌, ◌++◌, false, IfOk, OnOk, option_map, unwrap_or};
ghost use Rattle.serde_json.specs.Data.{null};
ghost use Rattle.serde_json.specs.View.{view};
ghost use Rattle.serde_json.specs.Written.{has_float, compact_text};
ghost use Rattle.lsp_protocol.specs.Frames.{frame};
ghost use Rattle.lsp_protocol.specs.Replies as replies;

use crate::frame_writing::push_frame;
use serde_json::{Value, json};
use source::memory::NoMemory;
use std::alloc::{AllocError, Global};

/// Why a message is refused.
#[derive(Clone, Copy, Debug, PartialEq, Eq)]
pub enum Failure {
    /// The body of the frame is not JSON.
    NoJson,
    /// The message is not a call, or is not allowed in this phase.
    InvalidRequest,
    /// The method does not exist.
    NoMethod,
    /// The parameters are invalid for the method.
    InvalidParameters,
    /// An allocation failed.
    OutOfMemory,
    /// The client has not asked to initialize yet.
    NotInitialized,
}

impl Failure {
    /// The protocol's error code.
    pub fn code(self) -> i64
        ensures { result ≡ replies.code_of self }
    {
        match self {
            Failure::NoJson => -32700,
            Failure::InvalidRequest => -32600,
            Failure::NoMethod => -32601,
            Failure::InvalidParameters => -32602,
            Failure::OutOfMemory => -32603,
            Failure::NotInitialized => -32002,
        }
    }

    /// The error message.
    pub fn text(self) -> &'static str
        ensures { result.now ≡ replies.text_of self }
    {
        match self {
            Failure::NoJson => "no JSON",
            Failure::InvalidRequest => "no request that may come here",
            Failure::NoMethod => "no such method",
            Failure::InvalidParameters => "no such parameters",
            Failure::OutOfMemory => "no memory",
            Failure::NotInitialized => "not initialized",
        }
    }
}

/// The response with the result of a request.
pub fn response(alloc: Global, id: &Value, found: Value) -> Result<Value, AllocError>
    ensures { IfOk result (λ reply. view reply ≡ replies.response (view id.now) (view found)) }
{
    json!(in alloc; {"id": id, "jsonrpc": "2.0", "result": found})
}

/// The id of a response; `null` without one.
fn id_value(alloc: Global, id: Option<&Value>) -> Result<Value, AllocError>
    ensures { IfOk result (λ found. view found ≡ unwrap_or (option_map (λ value. view value.now) id.entry) null) }
{
    match id {
        Some(id) => id.clone(),
        None => Ok(Value::Null),
    }
}

/// The response that refuses a message, with the reason; to the request of this id, or to none.
pub fn failure_response(
    alloc: Global,
    id: Option<&Value>,
    why: Failure,
) -> Result<Value, AllocError>
    ensures { IfOk result (λ reply. view reply ≡ replies.failure (option_map
        (λ value. view value.now) id.entry) why) }
{
    let id = id_value(alloc, id)?;
    json!(in alloc; {"error": {"code": why.code(), "message": why.text()}, "id": id, "jsonrpc": "2.0"})
}

/// The notification with the diagnostics of a document.
pub fn diagnostics_notification(alloc: Global, uri: &str, told: Value) -> Result<Value, AllocError>
    ensures { IfOk result (λ message. view message ≡ replies.diagnostics uri.now (view told)) }
{
    json!(in alloc; {"jsonrpc": "2.0", "method": "textDocument/publishDiagnostics",
        "params": {"diagnostics": told, "uri": uri}})
}

/// Appends the frame of a message, which has no fractional numbers.
///
/// # Errors
///
/// Out of memory, which may leave a beginning of the frame.
pub fn push_message(alloc: Global, out: &mut Vec<u8>, message: &Value) -> Result<(), NoMemory>
    requires { has_float (view message.now) ≡ false }
    ensures { OnOk result (out.new.items ≡ out.old.items ++ frame (compact_text (view message.now))) }
{
    let text = message.to_string(alloc)?;
    push_frame(alloc, out, text.as_bytes())
}
