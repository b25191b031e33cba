//! The names that tokens declare.

ghost use Rattle.std.specs.Prelude.{◌≡◌, ◌+◌, ◌<◌, ◌≤◌, ◌^◌, IfOk, option_map};
ghost use Rattle.lsp_texts.specs.Names as names;

use source::memory::NoMemory;
use source::token::{Keyword, Sign, Token};
use std::alloc::Global;

/// The kind of a name of the top level.
#[derive(Clone, Copy, Debug, PartialEq, Eq)]
pub enum SymbolKind {
    Lock,
    Struct,
    Global,
    Pool,
    Section,
    Helper,
    Thread,
}

/// A name of the top level.
#[derive(Clone, Copy, Debug, PartialEq, Eq)]
pub struct Symbol {
    /// The number of its token.
    pub at: usize,
    /// The kind of the name.
    pub kind: SymbolKind,
}

/// The keyword that the token `at` is.
pub fn word_at(tokens: &[Token], at: usize) -> Option<Keyword>
    ensures { result ≡ names.word_at tokens.now at }
{
    match tokens.get(at) {
        Some(Token::Word(_, word)) => Some(*word),
        _ => None,
    }
}

/// The sign that the token `at` is.
pub fn sign_at(tokens: &[Token], at: usize) -> Option<Sign>
    ensures { result ≡ names.sign_at tokens.now at }
{
    match tokens.get(at) {
        Some(Token::Mark(_, sign)) => Some(*sign),
        _ => None,
    }
}

/// The text of the name that the token `at` is.
pub fn text_at(tokens: &[Token], at: usize) -> Option<&str>
    ensures { option_map (λ text. text.now) result ≡ names.text_at tokens.entry.now at }
{
    match tokens.get(at) {
        Some(Token::Name(_, text)) => Some(text.as_str()),
        _ => None,
    }
}

/// The kind of a name of the top level after these two words, the nearer one first.
fn kind_behind(near: Keyword, far: Option<Keyword>) -> Option<SymbolKind>
    ensures { result ≡ names.kind_behind near far }
{
    match near {
        Keyword::Lock => Some(SymbolKind::Lock),
        Keyword::Struct => Some(SymbolKind::Struct),
        Keyword::Atomic => Some(SymbolKind::Section),
        Keyword::Call => Some(SymbolKind::Helper),
        Keyword::Thread => Some(SymbolKind::Thread),
        Keyword::Int if far == Some(Keyword::Global) => Some(SymbolKind::Global),
        _ => None,
    }
}

/// The kind of a name of the top level after a name and these two words, the nearer one first.
fn kind_behind_name(near: Option<Keyword>, far: Option<Keyword>) -> Option<SymbolKind>
    ensures { result ≡ names.kind_behind_name near far }
{
    match near {
        Some(Keyword::Pool) => Some(SymbolKind::Pool),
        Some(Keyword::Ref) if far == Some(Keyword::Global) => Some(SymbolKind::Global),
        _ => None,
    }
}

/// The kind of the name that the token `at` is, if it stands at the top level.
fn declared(tokens: &[Token], at: usize) -> Option<SymbolKind>
    ensures { result ≡ names.declared tokens.now at }
{
    let near = at.saturating_sub(1);
    let far = at.saturating_sub(2);
    match word_at(tokens, near) {
        Some(word) => kind_behind(word, word_at(tokens, far)),
        None => {
            if text_at(tokens, near).is_some() {
                kind_behind_name(word_at(tokens, far), word_at(tokens, at.saturating_sub(3)))
            } else {
                None
            }
        }
    }
}

/// The name of the top level that the token `at` is, where `depth` braces enclose it.
pub(crate) fn symbol_at(tokens: &[Token], depth: usize, at: usize) -> Option<Symbol>
    ensures { result ≡ names.symbol_at tokens.now depth at }
{
    if depth != 0 || text_at(tokens, at).is_none() {
        return None;
    }
    match declared(tokens, at) {
        Some(kind) => Some(Symbol { at, kind }),
        None => None,
    }
}

/// The number of braces that enclose the tokens after this one, where `depth` braces enclose it.
pub(crate) fn depth_behind(depth: usize, sign: Option<Sign>) -> usize
    requires { depth + 1 < 2 ^ 64 }
    ensures depth { result ≡ names.depth_behind depth sign }
    ensures more { result ≤ depth + 1 }
{
    match sign {
        Some(Sign::OpenBrace) => depth + 1,
        Some(Sign::CloseBrace) => depth.saturating_sub(1),
        _ => depth,
    }
}

/// The names of the top level, in order.
///
/// # Errors
///
/// `NoMemory`: a growth was refused.
pub fn symbols(alloc: Global, tokens: &[Token]) -> Result<Vec<Symbol>, NoMemory>
    ensures { IfOk result (λ found. found.items ≡ names.symbols tokens.now) }
{
    let mut found = Vec::new(alloc);
    let mut depth = 0usize;
    for at in 0..tokens.len() {
        if let Some(symbol) = symbol_at(tokens, depth, at) {
            found.push(symbol)?;
        }
        depth = depth_behind(depth, sign_at(tokens, at));
    }
    Ok(found)
}
