//! The tokens of a text.

ghost use Rattle.std.specs.Prelude.{◌≡◌, ◌≤◌, List, Some, length, IfOk, option_map};
ghost use Rattle.source.specs.Texts.{HasTokens, SOURCE_LIMIT};
ghost use Rattle.source.specs.Tokens.{Tok, seen};
ghost use Rattle.lsp_texts.specs.Told.{AreTokensOf};

use lexer::lex;
use source::fault::Refusal;
use source::memory::NoMemory;
use source::token::Token;
use std::alloc::Global;

/// The tokens of `text`; none where it has a lexical fault.
///
/// # Errors
///
/// `NoMemory`: a growth was refused.
pub fn tokens_of(alloc: Global, text: &str) -> Result<Option<Vec<Token>>, NoMemory>
    ensures found { IfOk result (λ found. AreTokensOf text.now (option_map (λ tokens. tokens.items) found)) }
    ensures only { (ts : List Tok) → length text.now ≤ SOURCE_LIMIT → HasTokens text.now ts →
        IfOk result (λ found. option_map (λ tokens. seen tokens.items) found ≡ Some ts) }
{
    match lex(alloc, text.as_bytes()) {
        Ok(tokens) => Ok(Some(tokens)),
        Err(Refusal::NoMemory) => Err(NoMemory),
        Err(Refusal::Fault(_)) => Ok(None),
    }
}
