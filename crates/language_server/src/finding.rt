//! The results of the methods.

ghost use Rattle.std.specs.Prelude.{◌≡◌, false, IfOk, IfSome, option_map};
ghost use Rattle.serde_json.specs.View.{view};
ghost use Rattle.serde_json.specs.Written.{has_float};
ghost use Rattle.language_server.specs.Methods as methods;

use crate::actions::{DocumentRange, code_actions};
use crate::hint_list::hints;
use crate::hovers::hover;
use crate::method::Method;
use crate::parameters::{lines, new_name, position, range, with_declaration};
use lsp_protocol::Request;
use lsp_texts::{
    DocumentPosition, Position, definition, document_symbols, formatting_edits, references, rename,
};
use serde_json::Value;
use source::memory::NoMemory;
use std::alloc::Global;

/// The position `position` in the document of a request.
fn place_in<'a>(request: &Request<'a>, position: Position) -> DocumentPosition<'a>
    ensures uri { result.uri.now ≡ request.now.uri.now }
    ensures text { result.text.now ≡ request.now.text.now }
    ensures position { result.position ≡ position }
{
    DocumentPosition {
        uri: request.uri,
        text: request.text,
        position,
    }
}

/// The actions in the requested range.
fn actions_found(alloc: Global, request: &Request<'_>) -> Result<Option<Value>, NoMemory>
    ensures told { IfOk result (λ told. methods.Finds Method.CodeAction request.now.uri.now request.now.text.now
        (view request.now.params.now) (option_map view told)) }
    ensures plain { IfOk result (λ told. IfSome told (λ found. has_float (view found) ≡ false)) }
{
    let Some((start, end)) = range(request.params) else {
        return Ok(None);
    };
    let asked = DocumentRange {
        uri: request.uri,
        text: request.text,
        start,
        end,
    };
    let found = code_actions(alloc, &asked)?;
    Ok(Some(found))
}

/// The place where the name at the requested position is declared.
fn definition_found(alloc: Global, request: &Request<'_>) -> Result<Option<Value>, NoMemory>
    ensures told { IfOk result (λ told. methods.Finds Method.Definition request.now.uri.now request.now.text.now
        (view request.now.params.now) (option_map view told)) }
    ensures plain { IfOk result (λ told. IfSome told (λ found. has_float (view found) ≡ false)) }
{
    let Some(position) = position(request.params) else {
        return Ok(None);
    };
    let found = definition(alloc, &place_in(request, position))?;
    Ok(Some(found))
}

/// The places where the name at the requested position is used.
fn references_found(alloc: Global, request: &Request<'_>) -> Result<Option<Value>, NoMemory>
    ensures told { IfOk result (λ told. methods.Finds Method.References request.now.uri.now request.now.text.now
        (view request.now.params.now) (option_map view told)) }
    ensures plain { IfOk result (λ told. IfSome told (λ found. has_float (view found) ≡ false)) }
{
    let Some(position) = position(request.params) else {
        return Ok(None);
    };
    let itself = with_declaration(request.params);
    let found = references(alloc, &place_in(request, position), itself)?;
    Ok(Some(found))
}

/// The edits that rename the name at the requested position.
fn rename_found(alloc: Global, request: &Request<'_>) -> Result<Option<Value>, NoMemory>
    ensures told { IfOk result (λ told. methods.Finds Method.Rename request.now.uri.now request.now.text.now
        (view request.now.params.now) (option_map view told)) }
    ensures plain { IfOk result (λ told. IfSome told (λ found. has_float (view found) ≡ false)) }
{
    match (position(request.params), new_name(request.params)) {
        (Some(position), Some(name)) => {
            let found = rename(alloc, &place_in(request, position), name)?;
            Ok(Some(found))
        }
        _ => Ok(None),
    }
}

/// The hover on the name, or else the statement, at the requested position.
fn hover_found(alloc: Global, request: &Request<'_>) -> Result<Option<Value>, NoMemory>
    ensures told { IfOk result (λ told. methods.Finds Method.Hover request.now.uri.now request.now.text.now
        (view request.now.params.now) (option_map view told)) }
    ensures plain { IfOk result (λ told. IfSome told (λ found. has_float (view found) ≡ false)) }
{
    let Some(position) = position(request.params) else {
        return Ok(None);
    };
    let found = hover(alloc, request.text, position)?;
    Ok(Some(found))
}

/// The hints in the requested lines.
fn hints_found(alloc: Global, request: &Request<'_>) -> Result<Option<Value>, NoMemory>
    ensures told { IfOk result (λ told. methods.Finds Method.InlayHint request.now.uri.now request.now.text.now
        (view request.now.params.now) (option_map view told)) }
    ensures plain { IfOk result (λ told. IfSome told (λ found. has_float (view found) ≡ false)) }
{
    let Some((first, last)) = lines(request.params) else {
        return Ok(None);
    };
    let found = hints(alloc, request.text, first, last)?;
    Ok(Some(found))
}

/// The result of `method` in the document of `request`; nothing where the parameters are not those of the method.
pub fn found(
    alloc: Global,
    method: Method,
    request: &Request<'_>,
) -> Result<Option<Value>, NoMemory>
    ensures told { IfOk result (λ told. methods.Finds method request.now.uri.now request.now.text.now
        (view request.now.params.now) (option_map view told)) }
    ensures plain { IfOk result (λ told. IfSome told (λ found. has_float (view found) ≡ false)) }
{
    match method {
        Method::CodeAction => actions_found(alloc, request),
        Method::Definition => definition_found(alloc, request),
        Method::DocumentSymbol => {
            let found = document_symbols(alloc, request.text)?;
            Ok(Some(found))
        }
        Method::Formatting => {
            let found = formatting_edits(alloc, request.text)?;
            Ok(Some(found))
        }
        Method::Hover => hover_found(alloc, request),
        Method::InlayHint => hints_found(alloc, request),
        Method::References => references_found(alloc, request),
        Method::Rename => rename_found(alloc, request),
    }
}
