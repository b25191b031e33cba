//! Expressions and places.

ghost use Rattle.std.specs.Prelude.{◌≡◌, option_map};
ghost use Rattle.source.specs.Tokens.{seen};
ghost use Rattle.syntax.specs.Views.{ident, expr_of, joined_of, place_of, link_of, links_of};
ghost use Rattle.syntax.specs.Trees as trees;
ghost use Rattle.parser.specs.Working.Reading.{Gives, closed_at, given};
ghost use Rattle.parser.specs.Working.Expressions.{prim_at, unary_with, sum_with, compared_with, prefix_at, comparison_at, place_at, element_at, parens_at, inside_at, operand_at, level_at, expr_at, ended_at, condition_at, level_links, op_at};

use crate::growth::push;
use crate::parts::names_after_dots;
use crate::stop::Stop;
use crate::take::{ended_by, is_same, is_sign_next, named, small, take_open};
use source::span::Span;
use source::token::{Keyword, Sign, Token};
use std::alloc::Global;
use syntax::tree::{
    Comparison, Element, Expr, Joined, Level, Link, Name, Operator, Path, Place, Prefix,
};

/// An operator of the level, if one comes next.
#[tactic(auto, unfolding(crate::specs::Working::Expressions::op_at))]
fn operator(level: Level, tokens: &[Token]) -> Option<(Operator, &[Token])>
    ensures { option_map (λ x. (x.0, seen x.1.now)) result ≡ op_at level (seen tokens.now) }
{
    if let [first, rest @ ..] = tokens {
        if let Token::Mark(_, mark) = first {
            return match (level, *mark) {
                (Level::Sum, Sign::Plus) => Some((Operator::Add, rest)),
                (Level::Sum, Sign::Minus) => Some((Operator::Sub, rest)),
                (Level::Term, Sign::Star) => Some((Operator::Mul, rest)),
                (Level::Term, Sign::Slash) => Some((Operator::Div, rest)),
                (Level::Term, Sign::Percent) => Some((Operator::Rem, rest)),
                (Level::Conjunction, Sign::And) => Some((Operator::And, rest)),
                (Level::Disjunction, Sign::Or) => Some((Operator::Or, rest)),
                _ => None,
            };
        }
    }
    None
}

/// An operator before an operand, if one comes next, and its position.
#[tactic(auto, unfolding(crate::specs::Working::Expressions::prefix_at))]
fn prefix(tokens: &[Token]) -> Option<((Prefix, Span), &[Token])>
    ensures { option_map (λ x. (x.0, seen x.1.now)) result ≡ prefix_at (seen tokens.now) }
{
    if let [first, rest @ ..] = tokens {
        if let Token::Mark(span, mark) = first {
            return match *mark {
                Sign::Minus => Some(((Prefix::Negate, *span), rest)),
                Sign::Not => Some(((Prefix::Not, *span), rest)),
                _ => None,
            };
        }
    }
    None
}

/// A comparison, if one comes next.
#[tactic(auto, unfolding(crate::specs::Working::Expressions::comparison_at))]
fn comparison(tokens: &[Token]) -> Option<(Comparison, &[Token])>
    ensures { option_map (λ x. (x.0, seen x.1.now)) result ≡ comparison_at (seen tokens.now) }
{
    if let [first, rest @ ..] = tokens {
        if let Token::Mark(_, mark) = first {
            return match *mark {
                Sign::DoubleEquals => Some((Comparison::Equal, rest)),
                Sign::NotEquals => Some((Comparison::NotEqual, rest)),
                Sign::Less => Some((Comparison::Less, rest)),
                Sign::LessEquals => Some((Comparison::LessOrEqual, rest)),
                Sign::Greater => Some((Comparison::Greater, rest)),
                Sign::GreaterEquals => Some((Comparison::GreaterOrEqual, rest)),
                _ => None,
            };
        }
    }
    None
}

/// Parses a place, after its first name.
#[cycle(expr)]
#[tactic(auto, unfolding(crate::specs::Working::Reading::choose))]
pub fn place(
    alloc: Global,
    name: Name,
    tokens: &[Token],
    room: u32,
) -> Result<(Place, &[Token]), Stop>
    ensures { Gives (λ x. (place_of x.0, seen x.1.now)) result
        (place_at room (inside_at room) (ident name) (seen tokens.now)) }
{
    if is_sign_next(tokens, Sign::OpenBracket) {
        return element(alloc, name, tokens, room);
    }
    if is_sign_next(tokens, Sign::Dot) {
        let (fields, rest) = names_after_dots(alloc, tokens)?;
        let path = Path {
            first: name,
            fields,
        };
        return Ok((Place::Path(Box::new(alloc, path)?), rest));
    }
    Ok((Place::Name(name), tokens))
}

/// Parses an element, after the name of its array or pool.
#[cycle(expr)]
fn element(
    alloc: Global,
    name: Name,
    tokens: &[Token],
    room: u32,
) -> Result<(Place, &[Token]), Stop>
    ensures { Gives (λ x. (place_of x.0, seen x.1.now)) result
        (element_at room (inside_at room) (ident name) (seen tokens.now)) }
{
    let (_, rest) = take_open(tokens, Sign::OpenBracket, room)?;
    let (index, rest) = closed(alloc, Sign::CloseBracket, rest, room - 1)?;
    let element = Element { name, index };
    Ok((Place::Element(Box::new(alloc, element)?), rest))
}

/// A place as a value.
fn value_of(place: Place) -> Expr
    ensures { expr_of result ≡ trees.place (place_of place) }
{
    match place {
        Place::Name(name) => Expr::Name(name),
        Place::Element(element) => Expr::Element(element),
        Place::Path(path) => Expr::Path(path),
    }
}

/// Parses a number, `null`, a place, or an expression in parentheses, in which `room` signs may be opened.
#[cycle(expr)]
#[tactic(auto, unfolding(crate::specs::Working::Expressions::prim_with))]
fn prim(alloc: Global, tokens: &[Token], room: u32) -> Result<(Expr, &[Token]), Stop>
    ensures { Gives (λ x. (expr_of x.0, seen x.1.now)) result (prim_at room (seen tokens.now)) }
{
    let [first, rest @ ..] = tokens else {
        return Err(Stop::Unexpected(0));
    };
    match first {
        Token::Int(span, value) => Ok((Expr::Int(small(*span, *value)), rest)),
        Token::Large(number) => Ok((Expr::Int(**number), rest)),
        Token::Word(span, Keyword::Null) => Ok((Expr::Null(*span), rest)),
        Token::Name(start, text) => {
            let (place, rest) = place(alloc, named(*start, text)?, rest, room)?;
            Ok((value_of(place), rest))
        }
        Token::Mark(span, mark) => {
            if !is_same(*mark, Sign::OpenParen) {
                return Err(Stop::Unexpected(tokens.len()));
            }
            parens(alloc, *span, rest, room)
        }
        _ => Err(Stop::Unexpected(tokens.len())),
    }
}

/// Parses an expression in parentheses, after the opening one, which is at `at`.
#[cycle(expr)]
fn parens(alloc: Global, at: Span, tokens: &[Token], room: u32) -> Result<(Expr, &[Token]), Stop>
    ensures { Gives (λ x. (expr_of x.0, seen x.1.now)) result (parens_at room (inside_at room) at (seen tokens.now)) }
{
    if room == 0 {
        return Err(Stop::TooDeep(tokens.len() + 1));
    }
    let (inner, rest) = closed(alloc, Sign::CloseParen, tokens, room - 1)?;
    Ok((Expr::Paren(at, Box::new(alloc, inner)?), rest))
}

/// Parses an operand, with an operator before it or without.
#[cycle(expr)]
#[tactic(auto, unfolding(crate::specs::Working::Expressions::unary_with))]
fn unary(alloc: Global, tokens: &[Token], room: u32) -> Result<(Expr, &[Token]), Stop>
    ensures { Gives (λ x. (expr_of x.0, seen x.1.now)) result (unary_with (prim_at room) (seen tokens.now)) }
{
    match prefix(tokens) {
        None => prim(alloc, tokens, room),
        Some(((op, at), rest)) => {
            let (operand, rest) = prim(alloc, rest, room)?;
            Ok((Expr::Prefix(op, at, Box::new(alloc, operand)?), rest))
        }
    }
}

#[cycle(expr)]
fn operand(
    alloc: Global,
    level: Level,
    tokens: &[Token],
    room: u32,
) -> Result<(Expr, &[Token]), Stop>
    ensures { Gives (λ x. (expr_of x.0, seen x.1.now)) result (operand_at level room (seen tokens.now)) }
{
    match level {
        Level::Term => unary(alloc, tokens, room),
        Level::Sum => chain(alloc, Level::Term, tokens, room),
        Level::Conjunction => compared(alloc, tokens, room),
        Level::Disjunction => chain(alloc, Level::Conjunction, tokens, room),
    }
}

/// Joined operands as an expression, with the tokens after it.
fn joined(alloc: Global, operands: Joined, rest: &[Token]) -> Result<(Expr, &[Token]), Stop>
    ensures { Gives (λ x. (expr_of x.0, seen x.1.now)) result (given (joined_of operands) (seen rest.now)) }
{
    Ok((Expr::Joined(Box::new(alloc, operands)?), rest))
}

/// Parses a sum, or two with a comparison between them.
#[cycle(expr)]
#[tactic(auto, unfolding(crate::specs::Working::Expressions::compared_with))]
fn compared(alloc: Global, tokens: &[Token], room: u32) -> Result<(Expr, &[Token]), Stop>
    ensures { Gives (λ x. (expr_of x.0, seen x.1.now)) result
        (compared_with (sum_with (prim_at room)) (seen tokens.now)) }
{
    let (left, rest) = chain(alloc, Level::Sum, tokens, room)?;
    match comparison(rest) {
        None => Ok((left, rest)),
        Some((comparison, after)) => {
            let (right, rest) = chain(alloc, Level::Sum, after, room)?;
            joined(alloc, Joined::Compare(comparison, left, right), rest)
        }
    }
}

/// Parses the links of a chain, after the first.
#[cycle(expr)]
fn links(
    alloc: Global,
    level: Level,
    first: Link,
    tokens: &[Token],
    room: u32,
) -> Result<(Vec<Link>, &[Token]), Stop>
    ensures { Gives (λ x. (links_of x.0.items, seen x.1.now)) result
        (level_links level room (link_of first) (seen tokens.now)) }
{
    let mut links = Vec::new(alloc);
    push(&mut links, first)?;
    let mut rest = tokens;
    while let Some((op, after)) = operator(level, rest) {
        let (right, after) = operand(alloc, level, after, room)?;
        push(&mut links, Link { op, operand: right })?;
        rest = after;
    }
    Ok((links, rest))
}

/// Parses a chain of the level's operators, or one operand.
#[cycle(expr)]
#[tactic(auto, unfolding(crate::specs::Working::Expressions::chain_at))]
fn chain(alloc: Global, level: Level, tokens: &[Token], room: u32) -> Result<(Expr, &[Token]), Stop>
    ensures { Gives (λ x. (expr_of x.0, seen x.1.now)) result (level_at level room (seen tokens.now)) }
{
    let (left, rest) = operand(alloc, level, tokens, room)?;
    let Some((op, after)) = operator(level, rest) else {
        return Ok((left, rest));
    };
    let (right, rest) = operand(alloc, level, after, room)?;
    if operator(level, rest).is_none() {
        let pair = Joined::Pair(op, left, right);
        return joined(alloc, pair, rest);
    }
    let first = Link { op, operand: right };
    let (links, rest) = links(alloc, level, first, rest, room)?;
    joined(alloc, Joined::Chain(level, left, links), rest)
}

/// Parses an expression, in which `room` signs may still be opened.
pub fn expr(alloc: Global, tokens: &[Token], room: u32) -> Result<(Expr, &[Token]), Stop>
    ensures { Gives (λ x. (expr_of x.0, seen x.1.now)) result (expr_at room (seen tokens.now)) }
{
    chain(alloc, Level::Disjunction, tokens, room)
}

/// Parses an expression, in which `room` signs may still be opened, and the sign after it.
#[cycle(expr)]
fn closed(alloc: Global, sign: Sign, tokens: &[Token], room: u32) -> Result<(Expr, &[Token]), Stop>
    ensures { Gives (λ x. (expr_of x.0, seen x.1.now)) result (closed_at sign (expr_at room) (seen tokens.now)) }
{
    ended_by(chain(alloc, Level::Disjunction, tokens, room), sign)
}

/// Parses an expression, in which `room` signs may still be opened, and the semicolon after it.
#[tactic(auto, unfolding(crate::specs::Working::Expressions::ended_at))]
pub fn ended(alloc: Global, tokens: &[Token], room: u32) -> Result<(Expr, &[Token]), Stop>
    ensures { Gives (λ x. (expr_of x.0, seen x.1.now)) result (ended_at room (seen tokens.now)) }
{
    closed(alloc, Sign::Semicolon, tokens, room)
}

/// Parses a condition in parentheses. The parentheses are not a part of its tree.
pub fn condition(alloc: Global, tokens: &[Token], room: u32) -> Result<(Expr, &[Token]), Stop>
    ensures { Gives (λ x. (expr_of x.0, seen x.1.now)) result (condition_at room (seen tokens.now)) }
{
    let (_, rest) = take_open(tokens, Sign::OpenParen, room)?;
    closed(alloc, Sign::CloseParen, rest, room - 1)
}
