//! The list of symbols. The one error is a refused growth.

ghost use Rattle.std.specs.Prelude.{◌≡◌, ◌+◌, ◌≤◌, false, length, map, IfOk};
ghost use Rattle.serde_json.specs.Data.{array, no_items};
ghost use Rattle.lsp_texts.specs.Ranges.{range_data};
ghost use Rattle.serde_json.specs.View.{view, items_of};
ghost use Rattle.serde_json.specs.Written.{has_float};
ghost use Rattle.source.specs.Texts.{SOURCE_LIMIT};
ghost use Rattle.lsp_texts.specs.DocumentSymbols as list;

use crate::names::{Symbol, SymbolKind, symbols};
use crate::ranges::range_value;
use crate::walking::Walker;
use lexer::lex;
use serde_json::{Value, json};
use source::fault::Refusal;
use source::limits::SOURCE_LIMIT;
use source::memory::NoMemory;
use source::token::Token;
use std::alloc::{AllocError, Global};

/// The protocol's number of a kind of symbols.
fn kind_code(kind: SymbolKind) -> u64
    ensures { result ≡ list.kind_code kind }
{
    match kind {
        SymbolKind::Lock => 14,
        SymbolKind::Struct => 23,
        SymbolKind::Global => 13,
        SymbolKind::Pool => 18,
        SymbolKind::Section => 12,
        SymbolKind::Helper => 12,
        SymbolKind::Thread => 24,
    }
}

/// A name and its first byte.
#[derive(Clone, Copy)]
struct Name<'a> {
    start: usize,
    text: &'a str,
}

/// The name that the token `at` is; empty where it is not a name.
fn name_at(tokens: &[Token], at: usize) -> Name<'_>
    ensures start { result.start ≡ list.start_at tokens.entry.now at }
    ensures text { result.text.now ≡ list.name_at tokens.entry.now at }
{
    match tokens.get(at) {
        Some(Token::Name(start, text)) => Name {
            start: *start as usize,
            text: text.as_str(),
        },
        _ => Name { start: 0, text: "" },
    }
}

/// The range of a name.
fn name_range(alloc: Global, walker: &mut Walker<'_>, name: Name<'_>) -> Result<Value, AllocError>
    ensures same { walker.new.text.now ≡ walker.old.text.now }
    ensures told { IfOk result (λ told. view told ≡ range_data walker.old.text.now name.entry.start
        (name.entry.start + length name.entry.text.now)) }
{
    let end = name.start.saturating_add(name.text.len());
    range_value(alloc, walker, name.start, end)
}

/// The range of the name that the token `at` is; an empty range at the text's start where it is not a name.
///
/// # Errors
///
/// `NoMemory`: a growth was refused.
pub fn range_at(
    alloc: Global,
    walker: &mut Walker<'_>,
    tokens: &[Token],
    at: usize,
) -> Result<Value, AllocError>
    ensures same { walker.new.text.now ≡ walker.old.text.now }
    ensures told { IfOk result (λ told. view told ≡ list.name_range walker.old.text.now tokens.now at) }
{
    name_range(alloc, walker, name_at(tokens, at))
}

/// The symbol with this kind, text and range.
fn named_value(
    alloc: Global,
    kind: SymbolKind,
    text: &str,
    range: &Value,
) -> Result<Value, AllocError>
    ensures { IfOk result (λ told. view told ≡ list.named_data kind text.now (view range.now)) }
{
    json!(in alloc; {"kind": kind_code(kind), "name": text, "range": range, "selectionRange": range})
}

/// A text, and its tokens.
#[derive(Clone, Copy)]
struct Source<'a> {
    text: &'a [u8],
    tokens: &'a [Token],
}

/// The JSON of a symbol.
fn symbol_value(
    alloc: Global,
    walker: &mut Walker<'_>,
    source: &Source<'_>,
    symbol: Symbol,
) -> Result<Value, AllocError>
    requires { walker.old.text.now ≡ source.now.text.now }
    ensures same { walker.new.text.now ≡ walker.old.text.now }
    ensures told { IfOk result (λ told. view told ≡ list.symbol_data source.now.text.now source.now.tokens.now
        symbol) }
{
    let name = name_at(source.tokens, symbol.at);
    let range = name_range(alloc, walker, name)?;
    named_value(alloc, symbol.kind, name.text, &range)
}

/// The empty list of symbols.
fn no_symbols(alloc: Global) -> Value
    ensures { view result ≡ array no_items }
{
    Value::Array(Vec::new(alloc))
}

/// The JSON of symbols.
fn symbol_values(alloc: Global, source: &Source<'_>, found: &[Symbol]) -> Result<Value, NoMemory>
    requires { length source.now.text.now ≤ SOURCE_LIMIT }
    ensures { IfOk result (λ told. view told ≡ array (items_of (map
        (list.symbol_data source.now.text.now source.now.tokens.now) found.now))) }
{
    let mut walker = Walker::new(source.text);
    let mut values = Vec::new(alloc);
    for symbol in found {
        values.push(symbol_value(alloc, &mut walker, source, *symbol)?)?;
    }
    Ok(Value::Array(values))
}

/// The names of the top level of `text`, in order, with their kinds and places; an empty list for a text with a lexical
/// fault.
///
/// # Errors
///
/// `NoMemory`: a growth was refused.
pub fn document_symbols(alloc: Global, text: &str) -> Result<Value, NoMemory>
    ensures told { IfOk result (λ told. list.AreSymbolsOf text.now (view told)) }
    ensures plain { IfOk result (λ told. has_float (view told) ≡ false) }
{
    let bytes = text.as_bytes();
    if bytes.len() > SOURCE_LIMIT {
        return Ok(no_symbols(alloc));
    }
    match lex(alloc, bytes) {
        Ok(tokens) => {
            let found = symbols(alloc, &tokens)?;
            let source = Source {
                text: bytes,
                tokens: &tokens,
            };
            let told = symbol_values(alloc, &source, &found)?;
            Ok(told)
        }
        Err(Refusal::NoMemory) => Err(NoMemory),
        Err(Refusal::Fault(_)) => Ok(no_symbols(alloc)),
    }
}
