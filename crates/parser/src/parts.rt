//! Types, constants, parameters, lock classes, and lists of them.

ghost use Rattle.std.specs.Prelude.{◌≡◌, map};
ghost use Rattle.source.specs.Tokens.{seen};
ghost use Rattle.source.specs.declared.token.Sign.TheVariants.{Comma, Dot};
ghost use Rattle.syntax.specs.Views.{ident, type_of, const_of, param_of, protection_of, option_of, class_name_of};
ghost use Rattle.parser.specs.Working.Reading.{Gives, name_at, listed_at, after_each};
ghost use Rattle.parser.specs.Working.Parts.{type_at, index_at, const_at, member_from, negative_from, param_at, params_at, protection_at, maybe_protection, maybe_value, maybe_result, class_at, class_list_at, whole_at, classes_at};

use crate::growth::push;
use crate::stop::Stop;
use crate::take::{
    after_sign, ended_by, is_same, is_sign_next, is_word_next, named, small, take_int, take_name,
    take_open, take_word,
};
use source::span::Span;
use source::token::{Keyword, Number, Sign, Token};
use std::alloc::Global;
use syntax::tree::{ClassName, Const, Name, Param, Protection, ValueType};

/// Parses a type.
#[tactic(auto, unfolding(crate::specs::Working::Parts::type_at))]
pub fn value_type(tokens: &[Token]) -> Result<(ValueType, &[Token]), Stop>
    ensures { Gives (λ x. (type_of x.0, seen x.1.now)) result (type_at (seen tokens.now)) }
{
    let [first, rest @ ..] = tokens else {
        return Err(Stop::Unexpected(0));
    };
    match first {
        Token::Word(_, Keyword::Int) => Ok((ValueType::Int, rest)),
        Token::Word(_, Keyword::Ref) => {
            let (target, rest) = take_name(rest)?;
            Ok((ValueType::Ref(target), rest))
        }
        _ => Err(Stop::Unexpected(tokens.len())),
    }
}

/// Parses a number in brackets.
pub fn index(tokens: &[Token], room: u32) -> Result<(Number, &[Token]), Stop>
    ensures { Gives (λ x. (x.0, seen x.1.now)) result (index_at room (seen tokens.now)) }
{
    let (_, rest) = take_open(tokens, Sign::OpenBracket, room)?;
    ended_by(take_int(rest), Sign::CloseBracket)
}

/// Parses a member of a pool, after the pool's name.
fn member(pool: Name, tokens: &[Token], room: u32) -> Result<(Const, &[Token]), Stop>
    ensures { Gives (λ x. (const_of x.0, seen x.1.now)) result (member_from room (ident pool) (seen tokens.now)) }
{
    let (index, rest) = index(tokens, room)?;
    Ok((Const::Member(pool, index), rest))
}

/// Parses a negative number, after its sign.
fn negative(sign: Span, tokens: &[Token]) -> Result<(Const, &[Token]), Stop>
    ensures { Gives (λ x. (const_of x.0, seen x.1.now)) result (negative_from sign (seen tokens.now)) }
{
    let (number, rest) = take_int(tokens)?;
    Ok((Const::Negative(sign, number), rest))
}

/// Parses a constant, in which `room` signs may be opened.
#[tactic(auto, unfolding(crate::specs::Working::Parts::const_at))]
pub fn constant(alloc: Global, tokens: &[Token], room: u32) -> Result<(Const, &[Token]), Stop>
    ensures { Gives (λ x. (const_of x.0, seen x.1.now)) result (const_at room (seen tokens.now)) }
{
    let [first, rest @ ..] = tokens else {
        return Err(Stop::Unexpected(0));
    };
    match first {
        Token::Int(span, value) => Ok((Const::Int(small(*span, *value)), rest)),
        Token::Large(number) => Ok((Const::Int(**number), rest)),
        Token::Name(start, text) => member(named(*start, text)?, rest, room),
        Token::Word(span, Keyword::Null) => Ok((Const::Null(*span), rest)),
        Token::Mark(span, mark) => {
            if !is_same(*mark, Sign::Minus) {
                return Err(Stop::Unexpected(tokens.len()));
            }
            negative(*span, rest)
        }
        _ => Err(Stop::Unexpected(tokens.len())),
    }
}

/// Parses a parameter.
fn param(tokens: &[Token]) -> Result<(Param, &[Token]), Stop>
    ensures { Gives (λ x. (param_of x.0, seen x.1.now)) result (param_at (seen tokens.now)) }
{
    let (value_type, rest) = value_type(tokens)?;
    let (name, rest) = take_name(rest)?;
    Ok((Param { name, value_type }, rest))
}

/// Parses parameters with commas between them, up to a closing parenthesis.
fn param_list(alloc: Global, tokens: &[Token]) -> Result<(Vec<Param>, &[Token]), Stop>
    ensures { Gives (λ x. (map param_of x.0.items, seen x.1.now)) result (listed_at param_at (seen tokens.now)) }
{
    let mut params = Vec::new(alloc);
    if is_sign_next(tokens, Sign::CloseParen) {
        return Ok((params, tokens));
    }
    let (first, mut rest) = param(tokens)?;
    push(&mut params, first)?;
    while let Some(after) = after_sign(rest, Sign::Comma) {
        let (next, after) = param(after)?;
        push(&mut params, next)?;
        rest = after;
    }
    Ok((params, rest))
}

/// Parses parameters in parentheses.
pub fn params(alloc: Global, tokens: &[Token], room: u32) -> Result<(Vec<Param>, &[Token]), Stop>
    ensures { Gives (λ x. (map param_of x.0.items, seen x.1.now)) result (params_at room (seen tokens.now)) }
{
    let (_, rest) = take_open(tokens, Sign::OpenParen, room)?;
    ended_by(param_list(alloc, rest), Sign::CloseParen)
}

/// Parses constants with commas between them, up to a closing parenthesis.
pub fn constants(alloc: Global, tokens: &[Token], room: u32) -> Result<(Vec<Const>, &[Token]), Stop>
    ensures { Gives (λ x. (map const_of x.0.items, seen x.1.now)) result (listed_at (const_at room) (seen tokens.now)) }
{
    let mut constants = Vec::new(alloc);
    if is_sign_next(tokens, Sign::CloseParen) {
        return Ok((constants, tokens));
    }
    let (first, mut rest) = constant(alloc, tokens, room)?;
    push(&mut constants, first)?;
    while let Some(after) = after_sign(rest, Sign::Comma) {
        let (next, after) = constant(alloc, after, room)?;
        push(&mut constants, next)?;
        rest = after;
    }
    Ok((constants, rest))
}

/// Parses names, each after a dot.
pub fn names_after_dots(alloc: Global, tokens: &[Token]) -> Result<(Vec<Name>, &[Token]), Stop>
    ensures { Gives (λ x. (map ident x.0.items, seen x.1.now)) result (after_each Dot name_at (seen tokens.now)) }
{
    let mut names = Vec::new(alloc);
    let mut rest = tokens;
    while let Some(after) = after_sign(rest, Sign::Dot) {
        let (next, after) = take_name(after)?;
        push(&mut names, next)?;
        rest = after;
    }
    Ok((names, rest))
}

/// Parses an annotation.
fn some_protection(
    alloc: Global,
    tokens: &[Token],
    room: u32,
) -> Result<(Protection, &[Token]), Stop>
    ensures { Gives (λ x. (protection_of x.0, seen x.1.now)) result (protection_at room (seen tokens.now)) }
{
    let (_, after) = take_word(tokens, Keyword::ProtectedBy)?;
    let (_, after) = take_open(after, Sign::OpenParen, room)?;
    let (first, after) = take_name(after)?;
    let (rest, after) = ended_by(names_after_dots(alloc, after), Sign::CloseParen)?;
    Ok((Protection { first, rest }, after))
}

/// Parses an annotation, or nothing.
#[tactic(auto, unfolding(crate::specs::Working::Reading::maybe_at))]
pub fn protection(
    alloc: Global,
    tokens: &[Token],
    room: u32,
) -> Result<(Option<Protection>, &[Token]), Stop>
    ensures { Gives (λ x. (option_of protection_of x.0, seen x.1.now)) result
        (maybe_protection room (seen tokens.now)) }
{
    if !is_word_next(tokens, Keyword::ProtectedBy) {
        return Ok((None, tokens));
    }
    let (protection, rest) = some_protection(alloc, tokens, room)?;
    Ok((Some(protection), rest))
}

/// Parses a constant after `=`, or nothing.
pub fn opening_value(
    alloc: Global,
    tokens: &[Token],
    room: u32,
) -> Result<(Option<Const>, &[Token]), Stop>
    ensures { Gives (λ x. (option_of const_of x.0, seen x.1.now)) result (maybe_value room (seen tokens.now)) }
{
    let Some(rest) = after_sign(tokens, Sign::Equals) else {
        return Ok((None, tokens));
    };
    let (value, rest) = constant(alloc, rest, room)?;
    Ok((Some(value), rest))
}

/// Parses a type after `:`, or nothing.
pub fn result_type(tokens: &[Token]) -> Result<(Option<ValueType>, &[Token]), Stop>
    ensures { Gives (λ x. (option_of type_of x.0, seen x.1.now)) result (maybe_result (seen tokens.now)) }
{
    let Some(rest) = after_sign(tokens, Sign::Colon) else {
        return Ok((None, tokens));
    };
    let (value_type, rest) = value_type(rest)?;
    Ok((Some(value_type), rest))
}

/// Parses a lock class.
fn class(tokens: &[Token]) -> Result<(ClassName, &[Token]), Stop>
    ensures { Gives (λ x. (class_name_of x.0, seen x.1.now)) result (class_at (seen tokens.now)) }
{
    let (structure, rest) = ended_by(take_name(tokens), Sign::Dot)?;
    let (lock, rest) = take_name(rest)?;
    Ok((ClassName { structure, lock }, rest))
}

/// Parses a lock class, and further ones after commas.
fn class_list(alloc: Global, tokens: &[Token]) -> Result<(Vec<ClassName>, &[Token]), Stop>
    ensures { Gives (λ x. (map class_name_of x.0.items, seen x.1.now)) result (class_list_at (seen tokens.now)) }
{
    let mut classes = Vec::new(alloc);
    let (first, mut rest) = class(tokens)?;
    push(&mut classes, first)?;
    while let Some(after) = after_sign(rest, Sign::Comma) {
        let (next, after) = class(after)?;
        push(&mut classes, next)?;
        rest = after;
    }
    Ok((classes, rest))
}

/// Parses `lock` and the classes in parentheses after it.
fn some_classes(
    alloc: Global,
    tokens: &[Token],
    room: u32,
) -> Result<(Vec<ClassName>, &[Token]), Stop>
    ensures { Gives (λ x. (map class_name_of x.0.items, seen x.1.now)) result (whole_at room (seen tokens.now)) }
{
    let (_, rest) = take_word(tokens, Keyword::Lock)?;
    let (_, rest) = take_open(rest, Sign::OpenParen, room)?;
    ended_by(class_list(alloc, rest), Sign::CloseParen)
}

/// Parses the lock classes that a section takes whole, or nothing.
#[tactic(auto, unfolding(crate::specs::Working::Reading::choose))]
pub fn classes(
    alloc: Global,
    tokens: &[Token],
    room: u32,
) -> Result<(Vec<ClassName>, &[Token]), Stop>
    ensures { Gives (λ x. (map class_name_of x.0.items, seen x.1.now)) result (classes_at room (seen tokens.now)) }
{
    if !is_word_next(tokens, Keyword::Lock) {
        return Ok((Vec::new(alloc), tokens));
    }
    some_classes(alloc, tokens, room)
}
