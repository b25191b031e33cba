//! The methods of requests about documents.

ghost use Rattle.std.specs.Prelude.{◌≡◌};
ghost use Rattle.language_server.specs.Methods.{method_named};

/// A method of requests about documents.
#[derive(Clone, Copy, Debug, PartialEq, Eq)]
pub enum Method {
    /// `textDocument/codeAction`: the changes that the notes on the text's fault propose.
    CodeAction,
    /// `textDocument/definition`: the place where the name at a position is declared.
    Definition,
    /// `textDocument/documentSymbol`: the names of the top level.
    DocumentSymbol,
    /// `textDocument/formatting`: the edits that bring the text into its layout.
    Formatting,
    /// `textDocument/hover`: the declaration of the name at a position, or else the locks that are held at the
    /// statement.
    Hover,
    /// `textDocument/inlayHint`: the locks that are acquired before statements.
    InlayHint,
    /// `textDocument/references`: the places where the name at a position is used.
    References,
    /// `textDocument/rename`: the edits that rename the name at a position.
    Rename,
}

impl Method {
    /// The method with the name `name`.
    pub fn named(name: &str) -> Option<Method>
        ensures { result ≡ method_named name.now }
    {
        match name {
            "textDocument/codeAction" => Some(Method::CodeAction),
            "textDocument/definition" => Some(Method::Definition),
            "textDocument/documentSymbol" => Some(Method::DocumentSymbol),
            "textDocument/formatting" => Some(Method::Formatting),
            "textDocument/hover" => Some(Method::Hover),
            "textDocument/inlayHint" => Some(Method::InlayHint),
            "textDocument/references" => Some(Method::References),
            "textDocument/rename" => Some(Method::Rename),
            _ => None,
        }
    }
}
