//! The hover on a name. The one error is a refused growth.

ghost use Rattle.std.specs.Prelude.{◌≡◌, ◌<◌, false, length, option_map, string_bytes, slice_index_or, IfOk, IfSome, None};
ghost use Rattle.serde_json.specs.View.{view};
ghost use Rattle.serde_json.specs.Written.{has_float};
ghost use Rattle.language_server.specs.NameHovers as hovers;
ghost use Rattle.language_server.specs.Ranks.{IsLockLine};
ghost use Rattle.lsp_texts.specs.Classes.{class_of};
ghost use Rattle.lsp_texts.specs.Declarations.{declarations};

use crate::class_lines::lock_line;
use lsp_texts::{
    Position, Walker, declaration_text, declarations, lock_class, name_number, range_at, tokens_of,
};
use serde_json::{Value, json};
use source::memory::NoMemory;
use source::token::Token;
use std::alloc::{AllocError, Global};

/// A declaration as a block of Markdown, and the line of its lock after it.
fn markdown(alloc: Global, declared: &str, lock: &str) -> Result<String, AllocError>
    ensures { IfOk result (λ told. string_bytes told ≡ hovers.markdown declared.now lock.now) }
{
    let mut told = String::from_str(alloc, "```autolock\n")?;
    told.push_str(declared)?;
    told.push_str("\n")?;
    told.push_str("```\n")?;
    told.push_str(lock)?;
    Ok(told)
}

/// The hover on `range` with the text `value`.
fn hover_value(alloc: Global, range: Value, value: &str) -> Result<Value, AllocError>
    ensures { IfOk result (λ told. view told ≡ hovers.name_hover (view range) value.now) }
{
    json!(in alloc; {"contents": {"kind": "markdown", "value": value}, "range": range})
}

/// The declaration that was found for the token `at`.
fn found_at(found: &[Option<usize>], at: usize) -> Option<usize>
    ensures { result ≡ slice_index_or found.now at None }
{
    match found.get(at) {
        Some(found) => *found,
        None => None,
    }
}

/// A name of a text, and its declaration.
#[derive(Clone, Copy)]
struct Name<'a> {
    text: &'a str,
    tokens: &'a [Token],
    found: &'a [Option<usize>],
    at: usize,
    declared: usize,
    ghost are: { found.now ≡ declarations tokens.now },
    ghost within: { declared < length tokens.now },
}

impl Name<'_> {
    ghost use Rattle.std.specs.Prelude.{◌≡◌, IfOk, string_bytes};
    ghost use Rattle.serde_json.specs.View.{view};
    ghost use Rattle.lsp_texts.specs.Classes.{class_of};
    ghost use Rattle.language_server.specs.NameHovers as hovers;
    ghost use Rattle.language_server.specs.Ranks.{IsLockLine};

    /// The line of the name's lock.
    fn lock_line(&self, alloc: Global) -> Result<String, NoMemory>
        ensures { IfOk result (λ told. IsLockLine self.now.text.now (class_of self.now.tokens.now self.now.declared)
            (string_bytes told)) }
    {
        let class = lock_class(alloc, self.tokens, self.found, self.declared)?;
        lock_line(alloc, self.text, class)
    }

    /// The hover on the name.
    fn hover(&self, alloc: Global) -> Result<Value, NoMemory>
        ensures { IfOk result (λ told. hovers.IsNameTold self.now.text.now self.now.tokens.now self.now.at
            self.now.declared (view told)) }
    {
        let declared = declaration_text(alloc, self.tokens, self.declared)?;
        let lock = self.lock_line(alloc)?;
        let value = markdown(alloc, declared.as_str(), lock.as_str())?;
        let mut walker = Walker::new(self.text.as_bytes());
        let range = range_at(alloc, &mut walker, self.tokens, self.at)?;
        let told = hover_value(alloc, range, value.as_str())?;
        Ok(told)
    }
}

/// The protocol's `Hover` on the name at a position: its declaration in a block of Markdown, on one line, and after it
/// `lock class CLASS, rank RANK` where the name is that of a lock or of what a lock protects. The rank is given for
/// accepted texts only. Nothing where no declared name stands at the position, or the text has a lexical fault.
///
/// # Errors
///
/// `NoMemory`: a growth was refused.
pub fn name_hover(alloc: Global, text: &str, position: Position) -> Result<Option<Value>, NoMemory>
    ensures told { IfOk result (λ found. hovers.IsNameHoverOf text.now position (option_map view found)) }
    ensures plain { IfOk result (λ found. IfSome found (λ told. has_float (view told) ≡ false)) }
{
    let Some(tokens) = tokens_of(alloc, text)? else {
        return Ok(None);
    };
    let Some(at) = name_number(text.as_bytes(), &tokens, position) else {
        return Ok(None);
    };
    let found = declarations(alloc, &tokens)?;
    let Some(declared) = found_at(&found, at) else {
        return Ok(None);
    };
    let name = Name {
        text,
        tokens: &tokens,
        found: &found,
        at,
        declared,
    };
    let told = name.hover(alloc)?;
    Ok(Some(told))
}
