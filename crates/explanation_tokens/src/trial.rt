//! Which tokens could come at a place.

ghost use Rattle.std.specs.Prelude.{◌≡◌, ◌+◌, ◌≤◌, ◌<◌, IsTrue, IfOk, IfSome, OnOk};
ghost use Rattle.explanation_tokens.specs.Expected.{AreThose, CanCome, all_candidates};
ghost use Rattle.explanation_tokens.specs.Working.Trials.{AreBefore, IsPlace, before_in, says_it_can};

use crate::candidate::{ALL, Candidate};
use parser::parse;
use source::fault::{Code, Fault, Refusal};
use source::memory::NoMemory;
use source::span::Span;
use source::token::Token;
use std::alloc::Global;

/// A place among tokens.
#[derive(Clone, Copy)]
pub struct TokenPlace {
    /// The number of tokens before it.
    pub number: usize,
    /// The byte where its token begins.
    pub span: Span,
}

/// The place of the token that begins at this byte, if there is one, all tokens before it begin before it, and a token
/// may begin at the byte after it.
pub fn place_of(tokens: &[Token], start: usize) -> Option<TokenPlace>
    ensures found { IfSome result (IsPlace tokens.now start) }
    ensures only { (place : TokenPlace) → place.span.end < 4294967296 → IsPlace tokens.now start place
        → result ≡ Some place }
{
    for (number, token) in tokens.iter().enumerate() {
        let at = token.start();
        if at as usize == start {
            let end = at.checked_add(1)?;
            return Some(TokenPlace {
                number,
                span: Span { start: at, end },
            });
        }
        if at as usize > start {
            return None;
        }
    }
    None
}

/// Whether the fault of the tokens with the tried one shows that this can come. The end of the text begins at the byte
/// `end`. The tried token can come if the end is what can't, or if the tokens are a program except for its returns.
fn says_it_can(fault: &Fault, end: u32) -> bool
    ensures { result ≡ says_it_can fault.now.code fault.now.start end }
{
    match fault.code {
        Code::UnexpectedToken => fault.start == end as usize,
        Code::MisplacedReturn => true,
        _ => false,
    }
}

/// Whether a token of this kind could come at the place. The tokens before the place stay, the others are dropped.
///
/// # Errors
///
/// Out of memory.
pub fn can_come(
    alloc: Global,
    tokens: &mut Vec<Token>,
    place: TokenPlace,
    candidate: Candidate,
) -> Result<bool, NoMemory>
    requires { AreBefore place tokens.old.items }
    ensures behind { OnOk result (AreBefore place tokens.new.items) }
    ensures before { OnOk result (before_in place tokens.new.items ≡ before_in place tokens.old.items) }
    ensures can { IfOk result
        (λ can. IsTrue can → CanCome (before_in place tokens.old.items) place.span.start candidate) }
    ensures cannot { IfOk result (λ can. CanCome (before_in place tokens.old.items) place.span.start candidate
        → IsTrue can) }
{
    let token = candidate.token(alloc, place.span)?;
    tokens.truncate(place.number);
    tokens.push(token)?;
    tokens.push(Token::End(place.span.end))?;
    match parse(alloc, tokens) {
        Ok(tree) => {
            drop(tree);
            Ok(true)
        }
        Err(Refusal::Fault(fault)) => Ok(says_it_can(&fault, place.span.end)),
        Err(Refusal::NoMemory) => Err(NoMemory),
    }
}

/// All kinds of tokens that could come at the place.
///
/// # Errors
///
/// Out of memory.
pub fn expected(
    alloc: Global,
    tokens: Vec<Token>,
    place: TokenPlace,
) -> Result<Vec<Candidate>, NoMemory>
    requires { AreBefore place tokens.items }
    ensures { IfOk result
        (λ list. AreThose (CanCome (before_in place tokens.items) place.span.start) all_candidates list.items) }
{
    let mut tokens = tokens;
    let mut list = Vec::new(alloc);
    for candidate in &ALL {
        if can_come(alloc, &mut tokens, place, *candidate)? {
            list.push(*candidate)?;
        }
    }
    Ok(list)
}
