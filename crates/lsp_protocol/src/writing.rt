//! The answers to a message. The only error is a failed allocation.

ghost use Rattle.std.specs.Prelude.{◌≡◌, false, IfOk, unwrap_or};
ghost use Rattle.serde_json.specs.Data.{null};
ghost use Rattle.serde_json.specs.View.{view};
ghost use Rattle.serde_json.specs.Written.{has_float};
ghost use Rattle.lsp_protocol.specs.Replies as replies;
ghost use Rattle.lsp_protocol.specs.Working.Values.{data_behind};
ghost use Rattle.lsp_protocol.specs.Working.ServerViews.{IsOne};

use crate::replies::{Failure, failure_response, push_message};
use crate::serving::{Next, ServiceAnswer};
use serde_json::Value;
use source::memory::NoMemory;
use std::alloc::Global;

/// An answer of one message.
pub fn one(alloc: Global, message: &Value) -> Result<ServiceAnswer, NoMemory>
    requires { has_float (view message.now) ≡ false }
    ensures { IfOk result (IsOne (view message.now)) }
{
    let mut frames = Vec::new(alloc);
    push_message(alloc, &mut frames, message)?;
    Ok(ServiceAnswer {
        frames,
        next: Next::Message,
    })
}

/// The answer that refuses a message, with the reason.
pub fn refusal(alloc: Global, id: Option<&Value>, why: Failure) -> Result<ServiceAnswer, NoMemory>
    requires { has_float (unwrap_or (data_behind id) null) ≡ false }
    ensures { IfOk result (IsOne (replies.failure (data_behind id.entry) why)) }
{
    one(alloc, &failure_response(alloc, id, why)?)
}
