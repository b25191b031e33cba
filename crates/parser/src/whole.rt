//! Parsing.

ghost use Rattle.std.specs.Prelude.{◌≡◌, ◌-◌, ℕ, List, IfOk, IfErr, MatchResult, drop, length};
ghost use Rattle.source.specs.declared.fault.Code.TheVariants.{MisplacedReturn};
ghost use Rattle.source.specs.{Tok, seen, IsFaultAt, IsGiven};
ghost use Rattle.syntax.specs.{Decl, tree_of, HasTree, HasRightTree, IsMisplaced, IsRefusal, IsTooDeep, IsUnexpected};
ghost use Rattle.parser.specs.Working.Declarations.{first_start};
ghost use Rattle.parser.specs.Working.TreesFound.{IsTreeOf};

use crate::decl::program;
use crate::returns::return_fault;
use crate::stop::Stop;
use source::fault::{Code, Fault, Refusal};
use source::limits::NESTING_LIMIT;
use source::memory::NoMemory;
use source::token::Token;
use std::alloc::Global;
use syntax::tree::Tree;

/// The first byte of the token from which on `left` tokens remain.
fn start_of(tokens: &[Token], left: usize) -> usize
    ensures { result ≡ first_start (seen (drop (length tokens.now - left) tokens.now)) }
{
    match &tokens[tokens.len().saturating_sub(left)..] {
        [first, ..] => first.start() as usize,
        [] => 0,
    }
}

/// The tree that `tokens` spell by the grammar, with at most 64 signs open at a time and every `return` in its place,
/// or the first fault.
///
/// The last token should be the end of the text, and the only one of its kind. Tokens without an end are refused, and
/// the fault may then be at byte 0.
///
/// # Errors
///
/// - `E03` at the first unexpected token: some program begins with the tokens before it, whatever its nesting, and none
///   with it too.
/// - `E04` at the first opening sign inside 64 open ones, unless an `E03` is there or before.
/// - `E18` of tokens that have a tree, at the first misplaced `return`, or at the closing brace of a body that lacks
///   one.
/// - Out of memory.
pub fn parse(alloc: Global, tokens: &[Token]) -> Result<Tree, Refusal>
    // The result is a tree of the tokens, with its returns in their places.
    ensures found { IfOk result (λ tree. HasRightTree (seen tokens.now) (tree_of tree)) }
    // Tokens with such a tree give it, unless memory runs out.
    ensures only { (ds : List Decl) → HasRightTree (seen tokens.now) ds → IsGiven tree_of ds result }
    // The fault is a fault of the tokens.
    ensures fault { IfErr result (IsRefusal (seen tokens.now)) }
    // Tokens with a misplaced or missing return are refused with the first one, unless memory runs out.
    ensures misplaced { (start : ℕ) → IsMisplaced (seen tokens.now) start →
        MatchResult result (λ _. ⊥) (IsFaultAt MisplacedReturn start) }
{
    match program(alloc, tokens, NESTING_LIMIT) {
        Ok(tree) => match return_fault(&tree.decls) {
            None => Ok(tree),
            Some(start) => Err(Refusal::Fault(Fault::at(alloc, Code::MisplacedReturn, start))),
        },
        Err(Stop::Unexpected(left)) => Err(Refusal::Fault(Fault::at(
            alloc,
            Code::UnexpectedToken,
            start_of(tokens, left),
        ))),
        Err(Stop::TooDeep(left)) => Err(Refusal::Fault(Fault::at(
            alloc,
            Code::NestedTooDeep,
            start_of(tokens, left),
        ))),
        Err(Stop::NoMemory) => Err(Refusal::NoMemory),
    }
}

/// The tree that `tokens` spell by the grammar, with its returns in any place. `None` if they spell none with at most
/// 64 signs open at a time. The only error is a failed allocation.
pub fn find_tree(alloc: Global, tokens: &[Token]) -> Result<Option<Tree>, NoMemory>
    ensures { IfOk result (IsTreeOf (seen tokens.now)) }
{
    match program(alloc, tokens, NESTING_LIMIT) {
        Ok(tree) => Ok(Some(tree)),
        Err(Stop::NoMemory) => Err(NoMemory),
        Err(Stop::Unexpected(_)) => Ok(None),
        Err(Stop::TooDeep(_)) => Ok(None),
    }
}

/// A law: tokens have at most one tree.
pub fn one_tree()
    ensures { (ts : List Tok) (a b : List Decl) → HasTree ts a → HasTree ts b → a ≡ b }
{}

/// A law: tokens have at most one `E03`.
pub fn one_unexpected()
    ensures { (ts : List Tok) (a b : ℕ) → IsUnexpected ts a → IsUnexpected ts b → a ≡ b }
{}

/// A law: tokens have at most one `E04`.
pub fn one_too_deep()
    ensures { (ts : List Tok) (a b : ℕ) → IsTooDeep ts a → IsTooDeep ts b → a ≡ b }
{}

/// A law: tokens have at most one `E18`.
pub fn one_misplaced()
    ensures { (ts : List Tok) (a b : ℕ) → IsMisplaced ts a → IsMisplaced ts b → a ≡ b }
{}

/// A law: no tokens have both an `E03` and an `E04`.
pub fn never_both()
    ensures { (ts : List Tok) (a b : ℕ) → IsUnexpected ts a → IsTooDeep ts b → ⊥ }
{}
