//! The language, as a server needs it.

ghost use Rattle.std.specs.Prelude.{◌≡◌, false, IfOk};
ghost use Rattle.serde_json.specs.View.{view};
ghost use Rattle.serde_json.specs.Written.{has_float};
ghost use Rattle.language_server.specs.Diagnostics.{AreDiagnosticsOf};
ghost use Rattle.language_server.specs.Methods as methods;

use crate::diagnostic_list::diagnostics;
use crate::finding::found;
use crate::method::Method;
use lsp_protocol::{Language, Request};
use serde_json::{Value, json};
use source::memory::NoMemory;
use std::alloc::{AllocError, Global};

/// The language whose texts are served.
#[derive(Clone, Copy, Debug, PartialEq, Eq, Drop)]
pub struct Autolock;

/// The capabilities of the server.
fn capabilities_value(alloc: Global) -> Result<Value, AllocError>
    ensures told { IfOk result (λ told. view told ≡ methods.capabilities) }
    ensures plain { IfOk result (λ told. has_float (view told) ≡ false) }
{
    json!(in alloc; {
        "capabilities": {
            "codeActionProvider": true,
            "definitionProvider": true,
            "documentFormattingProvider": true,
            "documentSymbolProvider": true,
            "hoverProvider": true,
            "inlayHintProvider": true,
            "positionEncoding": "utf-16",
            "referencesProvider": true,
            "renameProvider": true,
            "textDocumentSync": {"change": 1, "openClose": true}
        },
        "serverInfo": {"name": "autolock"}
    })
}

impl Language for Autolock {
    ghost capabilities = { methods.capabilities };

    ghost diagnoses = { AreDiagnosticsOf };

    ghost is_method = { methods.is_method };

    ghost finds = { methods.finds };

    fn capabilities(&self, alloc: Global) -> Result<Value, NoMemory> {
        let told = capabilities_value(alloc)?;
        Ok(told)
    }

    fn diagnostics(&self, alloc: Global, uri: &str, text: &str) -> Result<Value, NoMemory> {
        diagnostics(alloc, uri, text)
    }

    fn has_method(&self, method: &str) -> bool {
        Method::named(method).is_some()
    }

    fn find(&self, alloc: Global, request: &Request<'_>) -> Result<Option<Value>, NoMemory> {
        match Method::named(request.method) {
            Some(method) => found(alloc, method, request),
            None => Ok(None),
        }
    }
}
