//! The tokens of a text.

ghost use Rattle.std.specs.Prelude.{◌≡◌, ◌<◌, ◌≤◌, ◌^◌, ℕ, List, IfOk, IfErr, MatchResult, length};
ghost use Rattle.source.specs.declared.fault.Code.{Code};
ghost use Rattle.source.specs.Faults.{IsFaultAt, IsGiven};
ghost use Rattle.source.specs.Tokens.{Tok, seen, seen_token};
ghost use Rattle.lexer.specs.Working.Reading.{seen_kind, CanStand};
ghost use Rattle.source.specs.Texts.{HasTokens, DoRise, AreSlices, IsFault, IsRefusal, SOURCE_LIMIT};

use crate::bytes::after_gap;
use crate::names::Interner;
use crate::unit::{UnitKind, unit};
use source::fault::{Code, Fault, Refusal};
use source::limits::SOURCE_LIMIT;
use source::span::Span;
use source::token::{Number, Token};
use std::alloc::{AllocError, Global};

/// The largest number that a token holds unboxed.
const SMALL: u64 = 4294967295;

fn span_at(start: usize, end: usize) -> Span
    requires { (start < 2 ^ 32) × (end < 2 ^ 32) }
    ensures { result ≡ record { start = start; end = end } }
{
    Span {
        start: start as u32,
        end: end as u32,
    }
}

/// The token of `kind` from `start` to `end`.
fn token_at(alloc: Global, kind: UnitKind, start: usize, end: usize) -> Result<Token, AllocError>
    requires { CanStand (seen_kind kind) start end }
    ensures { IfOk result
        (λ token. seen_token token ≡ record { kind = seen_kind kind; span = record { start = start; end = end } }) }
{
    let value = match kind {
        UnitKind::Name(text) => return Ok(Token::Name(start as u32, text)),
        UnitKind::Word(word) => return Ok(Token::Word(span_at(start, end), word)),
        UnitKind::Mark(sign) => return Ok(Token::Mark(span_at(start, end), sign)),
        UnitKind::Int(value) => value,
    };
    let span = span_at(start, end);
    if value <= SMALL {
        return Ok(Token::Int(span, value as u32));
    }
    match Box::new(alloc, Number { value, span }) {
        Ok(number) => Ok(Token::Large(number)),
        Err(_) => Err(AllocError),
    }
}

/// The tokens of `text`, of which the last is its end, or its first fault: a bad character (`E01`), a number too large
/// (`E02`), a name of over 64 bytes (`E15`), or, before all others and at byte 0, a text of over 1,048,576 bytes
/// (`E15`). Any bytes may be given.
///
/// The only other error is a failed allocation.
#[tactic(auto, using(crate::proofs::Steps::skip_le, crate::proofs::Steps::unit_shortens, crate::proofs::Steps::unit_stands, crate::proofs::Steps::begun))]
pub fn lex(alloc: Global, text: &[u8]) -> Result<Vec<Token>, Refusal>
    // The result is the text's token list.
    ensures found { IfOk result (λ tokens. HasTokens text.now (seen tokens.items)) }
    ensures slices { IfOk result (λ tokens. AreSlices text.now (seen tokens.items)) }
    ensures rise { IfOk result (λ tokens. DoRise 0 (seen tokens.items)) }
    // A text within the limit that has tokens gives them, unless memory runs out.
    ensures only { (ts : List Tok) → length text.now ≤ SOURCE_LIMIT → HasTokens text.now ts →
        IsGiven (λ t. seen t.items) ts result }
    // The fault is a fault of the text.
    ensures fault { IfErr result (IsRefusal text.now) }
    // A text that has a fault is refused with it, unless memory runs out.
    ensures refused { (code : Code) (start : ℕ) → IsFault text.now code start →
        MatchResult result (λ _. ⊥) (IsFaultAt code start) }
{
    if text.len() > SOURCE_LIMIT {
        return Err(Refusal::Fault(Fault::at(alloc, Code::LimitExceeded, 0)));
    }
    let mut tokens = Vec::new(alloc);
    let mut names = Interner::new(alloc, text);
    let mut rest = text;
    'tokens: loop {
        let here = after_gap(rest);
        let start = text.len() - here.len();
        if here.is_empty() {
            tokens.push(Token::End(start as u32))?;
            return Ok(tokens);
        }
        let (kind, behind) = match unit(alloc, &mut names, here) {
            Ok(token) => token,
            Err(stop) => return Err(stop.at(alloc, start)),
        };
        let end = text.len() - behind.len();
        tokens.push(token_at(alloc, kind, start, end)?)?;
        rest = behind;
    }
}

/// A law: a text has at most one list of tokens.
pub fn one_list()
    ensures { (text : List ℕ) (a b : List Tok) → HasTokens text a → HasTokens text b → a ≡ b }
{}
