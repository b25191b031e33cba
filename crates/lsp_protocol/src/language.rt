//! What a server needs of a language.

ghost use Rattle.std.specs.Prelude.{◌≡◌, ℕ, List, Bool, true, false, Option, IfOk, IfSome, option_map};
ghost use Rattle.serde_json.specs.Data.{Data};
ghost use Rattle.serde_json.specs.View.{view};
ghost use Rattle.serde_json.specs.Written.{has_float};

use serde_json::Value;
use source::memory::NoMemory;
use std::alloc::Global;

/// A request about an open document.
#[derive(Clone, Copy, Drop)]
pub struct Request<'a> {
    /// The method.
    pub method: &'a str,
    /// The document's URI.
    pub uri: &'a str,
    /// Its text.
    pub text: &'a str,
    /// The method's parameters.
    pub params: &'a Value,
}

/// A language whose texts are served. Its answers have no fractional numbers.
pub trait Language {
    /// The server's capabilities.
    ghost capabilities: { Data };

    /// The diagnostics of the document with this URI and this text.
    ghost diagnoses: { List ℕ → List ℕ → Data → Type 0 };

    /// Whether this is a method of requests about documents.
    ghost is_method: { List ℕ → Bool };

    /// The result of a method for the document with this URI and this text, with these parameters; none if the
    /// parameters are invalid.
    ghost finds: { List ℕ → List ℕ → List ℕ → Data → Option Data → Type 0 };

    /// The server's capabilities, as the protocol's `InitializeResult`.
    ///
    /// # Errors
    ///
    /// Out of memory.
    fn capabilities(&self, alloc: Global) -> Result<Value, NoMemory>
        ensures told { IfOk result (λ told. view told ≡ capabilities) }
        ensures plain { IfOk result (λ told. has_float (view told) ≡ false) };

    /// The diagnostics of a document, as a list of the protocol's `Diagnostic`.
    ///
    /// # Errors
    ///
    /// Out of memory.
    fn diagnostics(&self, alloc: Global, uri: &str, text: &str) -> Result<Value, NoMemory>
        ensures told { IfOk result (λ told. diagnoses uri.now text.now (view told)) }
        ensures plain { IfOk result (λ told. has_float (view told) ≡ false) };

    /// Whether this is a method of requests about documents.
    fn has_method(&self, method: &str) -> bool
        ensures { result ≡ is_method method.now };

    /// The result of a request; `None` if its parameters are invalid.
    ///
    /// # Errors
    ///
    /// Out of memory.
    fn find(&self, alloc: Global, request: &Request<'_>) -> Result<Option<Value>, NoMemory>
        requires { is_method request.now.method.now ≡ true }
        ensures told { IfOk result (λ told. finds request.now.method.now request.now.uri.now request.now.text.now
            (view request.now.params.now) (option_map view told)) }
        ensures plain { IfOk result (λ told. IfSome told (λ found. has_float (view found) ≡ false)) };
}
