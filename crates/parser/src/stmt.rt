//! Statements.

ghost use Rattle.std.specs.Prelude.{◌≡◌};
ghost use Rattle.source.specs.Tokens.{seen};
ghost use Rattle.syntax.specs.Views.{ident, stmt_of, stmts_of, else_of};
ghost use Rattle.parser.specs.Working.Reading.{Gives};
ghost use Rattle.parser.specs.Working.Statements.{assign_at, stmt_at, braced_at, else_with, if_with, while_with, stmts_in, stmts_with};

use crate::call::call_rest;
use crate::expr::{condition, ended, place};
use crate::growth::push;
use crate::local::{let_rest, var_rest};
use crate::stop::Stop;
use crate::take::{ended_by, is_sign_next, is_word_next, named, take_open, take_sign, take_word};
use source::span::Span;
use source::token::{Keyword, Sign, Token};
use std::alloc::Global;
use syntax::tree::{Block, If, Name, Stmt, While};

/// Parses an assignment, after its first name.
fn assignment(
    alloc: Global,
    name: Name,
    tokens: &[Token],
    room: u32,
) -> Result<(Stmt, &[Token]), Stop>
    ensures { Gives (λ x. (stmt_of x.0, seen x.1.now)) result (assign_at room (ident name) (seen tokens.now)) }
{
    let (place, rest) = ended_by(place(alloc, name, tokens, room), Sign::Equals)?;
    let (value, rest) = ended(alloc, rest, room)?;
    Ok((Stmt::Assign(place, value), rest))
}

/// Parses a statement, in which `room` signs may be opened.
#[cycle(stmt)]
#[tactic(auto, unfolding(crate::specs::Working::Statements::stmt_with))]
fn stmt(alloc: Global, tokens: &[Token], room: u32) -> Result<(Stmt, &[Token]), Stop>
    ensures { Gives (λ x. (stmt_of x.0, seen x.1.now)) result (stmt_at room (seen tokens.now)) }
{
    let [first, rest @ ..] = tokens else {
        return Err(Stop::Unexpected(0));
    };
    match first {
        Token::Name(start, text) => assignment(alloc, named(*start, text)?, rest, room),
        Token::Word(span, Keyword::Let) => let_rest(alloc, *span, rest, room),
        Token::Word(span, Keyword::Var) => var_rest(alloc, *span, rest, room),
        Token::Word(span, Keyword::If) => if_rest(alloc, *span, rest, room),
        Token::Word(span, Keyword::While) => while_rest(alloc, *span, rest, room),
        Token::Word(span, Keyword::Print) => {
            let (value, rest) = ended(alloc, rest, room)?;
            Ok((Stmt::Print(*span, value), rest))
        }
        Token::Word(span, Keyword::Return) => {
            let (value, rest) = ended(alloc, rest, room)?;
            Ok((Stmt::Return(*span, value), rest))
        }
        Token::Word(span, Keyword::Call) => call_rest(alloc, *span, rest, room),
        _ => Err(Stop::Unexpected(tokens.len())),
    }
}

#[cycle(stmt)]
fn stmts(alloc: Global, tokens: &[Token], room: u32) -> Result<(Vec<Stmt>, &[Token]), Stop>
    ensures { Gives (λ x. (stmts_of x.0.items, seen x.1.now)) result (stmts_with (stmt_at room) (seen tokens.now)) }
{
    let mut stmts = Vec::new(alloc);
    let mut rest = tokens;
    'items: while !is_sign_next(rest, Sign::CloseBrace) {
        let (next, after) = stmt(alloc, rest, room)?;
        push(&mut stmts, next)?;
        rest = after;
    }
    Ok((stmts, rest))
}

/// Parses statements in braces, in which `room` signs may be opened, the first brace included.
#[cycle(stmt)]
pub fn block(alloc: Global, tokens: &[Token], room: u32) -> Result<(Block, &[Token]), Stop>
    ensures { Gives (λ x. ((stmts_of x.0.stmts.items, x.0.close), seen x.1.now)) result
        (braced_at room (seen tokens.now)) }
{
    let (_, rest) = take_open(tokens, Sign::OpenBrace, room)?;
    let (stmts, rest) = stmts(alloc, rest, room - 1)?;
    let (close, rest) = take_sign(rest, Sign::CloseBrace)?;
    Ok((Block { stmts, close }, rest))
}

/// Parses a branch, after its first word, which is at `start`.
#[cycle(stmt)]
fn if_rest(
    alloc: Global,
    start: Span,
    tokens: &[Token],
    room: u32,
) -> Result<(Stmt, &[Token]), Stop>
    ensures { Gives (λ x. (stmt_of x.0, seen x.1.now)) result (if_with room (stmts_in room) start (seen tokens.now)) }
{
    let (condition, rest) = condition(alloc, tokens, room)?;
    let (block, rest) = block(alloc, rest, room)?;
    let (otherwise, rest) = otherwise(alloc, rest, room)?;
    let choice = If {
        start,
        condition,
        block,
        otherwise,
    };
    Ok((Stmt::If(Box::new(alloc, choice)?), rest))
}

/// Parses the block after `else`, or nothing.
#[cycle(stmt)]
#[tactic(auto, unfolding(crate::specs::Working::Reading::choose))]
fn otherwise(alloc: Global, tokens: &[Token], room: u32) -> Result<(Option<Block>, &[Token]), Stop>
    ensures { Gives (λ x. (else_of x.0, seen x.1.now)) result (else_with room (stmts_in room) (seen tokens.now)) }
{
    if !is_word_next(tokens, Keyword::Else) {
        return Ok((None, tokens));
    }
    let (_, rest) = take_word(tokens, Keyword::Else)?;
    let (body, rest) = block(alloc, rest, room)?;
    Ok((Some(body), rest))
}

/// Parses a loop, after its first word, which is at `start`.
#[cycle(stmt)]
fn while_rest(
    alloc: Global,
    start: Span,
    tokens: &[Token],
    room: u32,
) -> Result<(Stmt, &[Token]), Stop>
    ensures { Gives (λ x. (stmt_of x.0, seen x.1.now)) result
        (while_with room (stmts_in room) start (seen tokens.now)) }
{
    let (condition, rest) = condition(alloc, tokens, room)?;
    let (block, rest) = block(alloc, rest, room)?;
    let repetition = While {
        start,
        condition,
        block,
    };
    Ok((Stmt::While(Box::new(alloc, repetition)?), rest))
}
