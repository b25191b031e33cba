//! Statements that declare a local.

ghost use Rattle.std.specs.Prelude.{◌≡◌};
ghost use Rattle.source.specs.Tokens.{seen};
ghost use Rattle.syntax.specs.Views.{expr_of, local_of, owner_of, stmt_of};
ghost use Rattle.parser.specs.Working.Reading.{Gives};
ghost use Rattle.parser.specs.Working.Statements.{typed_of, local_with, typed_at, owner_at, valued_at, called_at, let_at, var_at};

use crate::call::helper_call;
use crate::expr::{ended, expr};
use crate::parts::value_type;
use crate::stop::Stop;
use crate::take::{ended_by, is_word_next, take_name, take_sign, take_word};
use source::span::Span;
use source::token::{Keyword, Sign, Token};
use std::alloc::Global;
use syntax::tree::{CalledLocal, Expr, Local, Name, OwnedLocal, OwnerClause, Stmt, ValueType};

/// A local's name and type, and the position of the first word of its statement.
#[derive(Drop)]
pub(crate) struct TypedName {
    start: Span,
    name: Name,
    value_type: ValueType,
}

/// The local with this initial value.
fn with_value(typed: TypedName, value: Expr) -> Local
    ensures { local_of result ≡ local_with (typed_of typed) (expr_of value) }
{
    Local {
        start: typed.start,
        name: typed.name,
        value_type: typed.value_type,
        value,
    }
}

/// Parses what follows `let` or `var`, a word that is at `start`, up to the sign `=`.
fn typed(start: Span, tokens: &[Token]) -> Result<(TypedName, &[Token]), Stop>
    ensures { Gives (λ x. (typed_of x.0, seen x.1.now)) result (typed_at start (seen tokens.now)) }
{
    let (name, rest) = ended_by(take_name(tokens), Sign::Colon)?;
    let (value_type, rest) = ended_by(value_type(rest), Sign::Equals)?;
    let typed = TypedName {
        start,
        name,
        value_type,
    };
    Ok((typed, rest))
}

/// Parses the owner of a local, from the word `where` on.
fn owner(tokens: &[Token]) -> Result<(OwnerClause, &[Token]), Stop>
    ensures { Gives (λ x. (owner_of x.0, seen x.1.now)) result (owner_at (seen tokens.now)) }
{
    let (_, rest) = take_word(tokens, Keyword::Where)?;
    let (field, rest) = ended_by(take_name(rest), Sign::DoubleEquals)?;
    let (local, rest) = take_name(rest)?;
    Ok((OwnerClause { field, local }, rest))
}

/// Parses a `let` of a value, after the sign `=`.
#[tactic(auto, unfolding(crate::specs::Working::Reading::choose))]
fn valued(
    alloc: Global,
    typed: TypedName,
    tokens: &[Token],
    room: u32,
) -> Result<(Stmt, &[Token]), Stop>
    ensures { Gives (λ x. (stmt_of x.0, seen x.1.now)) result (valued_at room (typed_of typed) (seen tokens.now)) }
{
    let (value, rest) = expr(alloc, tokens, room)?;
    let local = with_value(typed, value);
    if !is_word_next(rest, Keyword::Where) {
        let (_, rest) = take_sign(rest, Sign::Semicolon)?;
        return Ok((Stmt::Let(Box::new(alloc, local)?), rest));
    }
    let (owner, rest) = ended_by(owner(rest), Sign::Semicolon)?;
    let owned = OwnedLocal { local, owner };
    Ok((Stmt::LetOwned(Box::new(alloc, owned)?), rest))
}

/// Parses a `let` of the result of a helper, after the sign `=`.
fn called(
    alloc: Global,
    typed: TypedName,
    tokens: &[Token],
    room: u32,
) -> Result<(Stmt, &[Token]), Stop>
    ensures { Gives (λ x. (stmt_of x.0, seen x.1.now)) result (called_at room (typed_of typed) (seen tokens.now)) }
{
    let (_, rest) = take_word(tokens, Keyword::Call)?;
    let (call, rest) = ended_by(helper_call(alloc, rest, room), Sign::Semicolon)?;
    let called = CalledLocal {
        start: typed.start,
        name: typed.name,
        value_type: typed.value_type,
        call,
    };
    Ok((Stmt::LetCall(Box::new(alloc, called)?), rest))
}

/// Parses a `let`, after its first word, which is at `start`.
#[tactic(auto, unfolding(crate::specs::Working::Reading::choose))]
pub fn let_rest(
    alloc: Global,
    start: Span,
    tokens: &[Token],
    room: u32,
) -> Result<(Stmt, &[Token]), Stop>
    ensures { Gives (λ x. (stmt_of x.0, seen x.1.now)) result (let_at room start (seen tokens.now)) }
{
    let (typed, rest) = typed(start, tokens)?;
    if is_word_next(rest, Keyword::Call) {
        return called(alloc, typed, rest, room);
    }
    valued(alloc, typed, rest, room)
}

/// Parses a `var`, after its first word, which is at `start`.
pub fn var_rest(
    alloc: Global,
    start: Span,
    tokens: &[Token],
    room: u32,
) -> Result<(Stmt, &[Token]), Stop>
    ensures { Gives (λ x. (stmt_of x.0, seen x.1.now)) result (var_at room start (seen tokens.now)) }
{
    let (typed, rest) = typed(start, tokens)?;
    let (value, rest) = ended(alloc, rest, room)?;
    Ok((Stmt::Var(Box::new(alloc, with_value(typed, value))?), rest))
}
