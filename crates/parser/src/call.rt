//! Calls of helpers.

ghost use Rattle.std.specs.Prelude.{map};
ghost use Rattle.source.specs.Tokens.{seen};
ghost use Rattle.syntax.specs.Views.{expr_of, helper_call_of, stmt_of};
ghost use Rattle.parser.specs.Working.Reading.{Gives, listed_at};
ghost use Rattle.parser.specs.Working.Expressions.{expr_at};
ghost use Rattle.parser.specs.Working.Statements.{helper_call_at, call_stmt_at};

use crate::expr::expr;
use crate::growth::push;
use crate::stop::Stop;
use crate::take::{after_sign, ended_by, is_sign_next, take_name, take_open};
use source::span::Span;
use source::token::{Sign, Token};
use std::alloc::Global;
use syntax::tree::{Expr, HelperCall, Stmt};

/// Parses expressions with commas between them, up to a closing parenthesis.
fn arguments(alloc: Global, tokens: &[Token], room: u32) -> Result<(Vec<Expr>, &[Token]), Stop>
    ensures { Gives (λ x. (map expr_of x.0.items, seen x.1.now)) result (listed_at (expr_at room) (seen tokens.now)) }
{
    let mut arguments = Vec::new(alloc);
    if is_sign_next(tokens, Sign::CloseParen) {
        return Ok((arguments, tokens));
    }
    let (first, mut rest) = expr(alloc, tokens, room)?;
    push(&mut arguments, first)?;
    while let Some(after) = after_sign(rest, Sign::Comma) {
        let (next, after) = expr(alloc, after, room)?;
        push(&mut arguments, next)?;
        rest = after;
    }
    Ok((arguments, rest))
}

/// Parses a call of a helper, after the word `call`, up to the closing parenthesis.
pub fn helper_call(
    alloc: Global,
    tokens: &[Token],
    room: u32,
) -> Result<(HelperCall, &[Token]), Stop>
    ensures { Gives (λ x. (helper_call_of x.0, seen x.1.now)) result (helper_call_at room (seen tokens.now)) }
{
    let (helper, rest) = take_name(tokens)?;
    let (_, rest) = take_open(rest, Sign::OpenParen, room)?;
    let (arguments, rest) = ended_by(arguments(alloc, rest, room - 1), Sign::CloseParen)?;
    Ok((HelperCall { helper, arguments }, rest))
}

/// Parses the statement of a call, after its first word, which is at `start`.
pub fn call_rest(
    alloc: Global,
    start: Span,
    tokens: &[Token],
    room: u32,
) -> Result<(Stmt, &[Token]), Stop>
    ensures { Gives (λ x. (stmt_of x.0, seen x.1.now)) result (call_stmt_at room start (seen tokens.now)) }
{
    let (call, rest) = ended_by(helper_call(alloc, tokens, room), Sign::Semicolon)?;
    Ok((Stmt::Call(start, Box::new(alloc, call)?), rest))
}
