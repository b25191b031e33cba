//! The class of the lock that belongs to a declaration. The one error is a refused growth.

ghost use Rattle.std.specs.Prelude.{◌≡◌, ◌-◌, ◌++◌, ◌<◌, fold, length, None, IfOk, OnOk, option_map, slice_index_or, string_bytes};
ghost use Rattle.lsp_texts.specs.Classes as classes;
ghost use Rattle.lsp_texts.specs.Declarations.{declarations};
ghost use Rattle.lsp_texts.specs.Names as names;

use crate::extents::end_token;
use crate::names::{Symbol, symbols, text_at, word_at};
use source::memory::NoMemory;
use source::token::{Keyword, Token};
use std::alloc::{AllocError, Global};

/// Whether the token `at` is the name of a declared lock.
fn is_lock(tokens: &[Token], at: usize) -> bool
    ensures { result ≡ classes.is_lock_word (names.word_at tokens.now (at - 1)) }
{
    matches!(word_at(tokens, at.saturating_sub(1)), Some(Keyword::Lock))
}

/// Whether the token `at` is the name of a declared section.
fn is_section(tokens: &[Token], at: usize) -> bool
    ensures { result ≡ classes.is_atomic (names.word_at tokens.now (at - 1)) }
{
    matches!(word_at(tokens, at.saturating_sub(1)), Some(Keyword::Atomic))
}

/// The token `at`, if it is the name of a declared lock.
fn if_lock(tokens: &[Token], at: usize) -> Option<usize>
    ensures { result ≡ classes.if_lock tokens.now at }
{
    if is_lock(tokens, at) { Some(at) } else { None }
}

/// The last name of the top level up to the token `at`.
fn holder(symbols: &[Symbol], at: usize) -> Option<usize>
    ensures { result ≡ fold (classes.later at) None symbols.now }
{
    let mut found = None;
    for symbol in symbols {
        if symbol.at <= at {
            found = Some(symbol.at);
        }
    }
    found
}

/// The text of the name that the token `at` is; empty where it is not a name.
fn name_text(tokens: &[Token], at: usize) -> &str
    ensures { result.now ≡ classes.name_text tokens.entry.now at }
{
    text_at(tokens, at).unwrap_or("")
}

/// Appends a lock of a struct after the struct's name.
fn push_member(
    out: &mut String,
    tokens: &[Token],
    at: usize,
    owner: usize,
) -> Result<(), AllocError>
    ensures { OnOk result (string_bytes out.new ≡ string_bytes out.old ++ classes.member_text tokens.now at owner) }
{
    if owner != at {
        out.push_str(name_text(tokens, owner))?;
        out.push_str(".")?;
    }
    out.push_str(name_text(tokens, at))
}

/// Appends the class of the lock that the token `at` declares.
fn push_class(
    out: &mut String,
    tokens: &[Token],
    at: usize,
    holder: Option<usize>,
) -> Result<(), AllocError>
    ensures { OnOk result (string_bytes out.new ≡ string_bytes out.old ++ classes.class_text tokens.now at holder) }
{
    match holder {
        Some(owner) => push_member(out, tokens, at, owner),
        None => out.push_str(name_text(tokens, at)),
    }
}

/// The tokens of a text, with the declarations of its names.
#[derive(Clone, Copy)]
struct Meant<'a> {
    tokens: &'a [Token],
    found: &'a [Option<usize>],
    ghost are: { found.now ≡ declarations tokens.now },
}

impl Meant<'_> {
    ghost use Rattle.std.specs.Prelude.{◌≡◌, ◌<◌, length};
    ghost use Rattle.lsp_texts.specs.Classes as classes;

    /// The token that declares the last name of a declaration's annotation.
    fn annotated(&self, at: usize) -> Option<usize>
        requires { at < length self.now.tokens.now }
        ensures { result ≡ classes.annotated self.now.tokens.now at }
    {
        if is_section(self.tokens, at) {
            return None;
        }
        match self.found.get(end_token(self.tokens, at).saturating_sub(2)) {
            Some(found) => *found,
            None => None,
        }
    }

    /// The token that declares the lock that belongs to a declaration.
    fn lock(&self, at: usize) -> Option<usize>
        requires { at < length self.now.tokens.now }
        ensures { result ≡ classes.lock_of self.now.tokens.now at }
    {
        if is_lock(self.tokens, at) {
            return Some(at);
        }
        match self.annotated(at) {
            Some(found) => if_lock(self.tokens, found),
            None => None,
        }
    }
}

/// The class of the lock that the token `at` declares.
fn class(alloc: Global, tokens: &[Token], at: usize) -> Result<String, NoMemory>
    ensures { IfOk result
        (λ text. string_bytes text ≡ classes.class_text tokens.now at (classes.holder_of tokens.now at)) }
{
    let symbols = symbols(alloc, tokens)?;
    let mut text = String::new(alloc);
    push_class(&mut text, tokens, at, holder(&symbols, at))?;
    Ok(text)
}

/// The class of the lock that belongs to the declaration of the token `declared`, which declares the lock or is
/// protected by it: `G` for a global lock, `S.l` for a lock of a struct; none, where the declaration does not have one.
/// `found` has the declarations of the text's names.
///
/// # Errors
///
/// `NoMemory`: a growth was refused.
pub fn lock_class(
    alloc: Global,
    tokens: &[Token],
    found: &[Option<usize>],
    declared: usize,
) -> Result<Option<String>, NoMemory>
    requires found { found.now ≡ declarations tokens.now }
    requires within { declared < length tokens.now }
    ensures { IfOk result (λ class. option_map string_bytes class ≡ classes.class_of tokens.now declared) }
{
    let text = Meant { tokens, found };
    match text.lock(declared) {
        Some(at) => {
            let told = class(alloc, tokens, at)?;
            Ok(Some(told))
        }
        None => Ok(None),
    }
}
