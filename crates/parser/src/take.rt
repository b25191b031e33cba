//! Single tokens.

ghost use Rattle.std.specs.Prelude.{◌≡◌, ◌<◌, IfOk, OnOk, option_map};
ghost use Rattle.std.specs.Rc.{rc_str_bytes};
ghost use Rattle.source.specs.Tokens.{seen, word, mark, end};
ghost use Rattle.syntax.specs.Views.{ident};
ghost use Rattle.parser.specs.Working.Reading.{closing, Gives, same_sign, same_keyword, sign_at, open_at, word_at, name_at, int_at, skip_at, is_next};

use crate::stop::Stop;
use source::span::Span;
use source::token::{Keyword, Number, Sign, Token};
use std::alloc::AllocError;
use std::rc::RcStr;
use syntax::tree::Name;

/// Whether `a` and `b` are the same sign.
pub fn is_same(a: Sign, b: Sign) -> bool
    ensures { result ≡ same_sign a b }
{
    a == b
}

/// Whether `a` and `b` are the same keyword.
fn is_same_word(a: Keyword, b: Keyword) -> bool
    ensures { result ≡ same_keyword a b }
{
    a == b
}

/// Parses the sign, which has to come next.
#[tactic(auto, unfolding(crate::specs::Working::Reading::sign_at))]
pub fn take_sign(tokens: &[Token], sign: Sign) -> Result<(Span, &[Token]), Stop>
    ensures { Gives (λ x. (x.0, seen x.1.now)) result (sign_at sign (seen tokens.now)) }
{
    if let [first, rest @ ..] = tokens {
        if let Token::Mark(span, mark) = first {
            if is_same(*mark, sign) {
                return Ok((*span, rest));
            }
        }
    }
    Err(Stop::Unexpected(tokens.len()))
}

/// Parses an opening sign, which has to come next. `room` signs may still be opened.
#[tactic(auto, unfolding(crate::specs::Working::Reading::open_at))]
pub fn take_open(tokens: &[Token], sign: Sign, room: u32) -> Result<(Span, &[Token]), Stop>
    ensures gives { Gives (λ x. (x.0, seen x.1.now)) result (open_at sign room (seen tokens.now)) }
    ensures room { OnOk result (0 < room) }
{
    if let [first, rest @ ..] = tokens {
        if let Token::Mark(span, mark) = first {
            if is_same(*mark, sign) {
                if room == 0 {
                    return Err(Stop::TooDeep(tokens.len()));
                }
                return Ok((*span, rest));
            }
        }
    }
    Err(Stop::Unexpected(tokens.len()))
}

/// What was parsed, if the sign comes next after it, with the tokens after the sign.
pub fn ended_by<T: Drop>(
    read: Result<(T, &[Token]), Stop>,
    sign: Sign,
) -> Result<(T, &[Token]), Stop>
    ensures { Gives (λ x. (x.0, seen x.1.now)) result (closing sign (λ r. seen r.now) read.entry) }
{
    let (value, rest) = read?;
    let (_, rest) = take_sign(rest, sign)?;
    Ok((value, rest))
}

/// Parses the keyword, which has to come next.
#[tactic(auto, unfolding(crate::specs::Working::Reading::word_at))]
pub fn take_word(tokens: &[Token], keyword: Keyword) -> Result<(Span, &[Token]), Stop>
    ensures { Gives (λ x. (x.0, seen x.1.now)) result (word_at keyword (seen tokens.now)) }
{
    if let [first, rest @ ..] = tokens {
        if let Token::Word(span, here) = first {
            if is_same_word(*here, keyword) {
                return Ok((*span, rest));
            }
        }
    }
    Err(Stop::Unexpected(tokens.len()))
}

/// The name of a token.
pub fn named(start: u32, text: &RcStr) -> Result<Name, AllocError>
    ensures { IfOk result (λ name. (rc_str_bytes name.text ≡ rc_str_bytes text.now) × (name.start ≡ start)) }
{
    Ok(Name {
        text: text.clone()?,
        start,
    })
}

/// Parses a name, which has to come next.
#[tactic(auto, unfolding(crate::specs::Working::Reading::name_at))]
pub fn take_name(tokens: &[Token]) -> Result<(Name, &[Token]), Stop>
    ensures { Gives (λ x. (ident x.0, seen x.1.now)) result (name_at (seen tokens.now)) }
{
    if let [first, rest @ ..] = tokens {
        if let Token::Name(start, text) = first {
            return Ok((named(*start, text)?, rest));
        }
    }
    Err(Stop::Unexpected(tokens.len()))
}

/// A number below 2^32.
pub fn small(span: Span, value: u32) -> Number
    ensures { result ≡ record { value = value; span = span } }
{
    Number {
        value: value as u64,
        span,
    }
}

/// Parses a number, which has to come next.
#[tactic(auto, unfolding(crate::specs::Working::Reading::int_at))]
pub fn take_int(tokens: &[Token]) -> Result<(Number, &[Token]), Stop>
    ensures { Gives (λ x. (x.0, seen x.1.now)) result (int_at (seen tokens.now)) }
{
    match tokens {
        [Token::Int(span, value), rest @ ..] => Ok((small(*span, *value), rest)),
        [Token::Large(number), rest @ ..] => Ok((**number, rest)),
        _ => Err(Stop::Unexpected(tokens.len())),
    }
}

/// The tokens after the sign, if it comes next.
#[tactic(auto, unfolding(crate::specs::Working::Reading::skip_at))]
pub fn after_sign(tokens: &[Token], sign: Sign) -> Option<&[Token]>
    ensures { option_map (λ x. seen x.now) result ≡ skip_at sign (seen tokens.now) }
{
    if let [first, rest @ ..] = tokens {
        if let Token::Mark(_, mark) = first {
            if is_same(*mark, sign) {
                return Some(rest);
            }
        }
    }
    None
}

/// Whether the sign comes next.
pub fn is_sign_next(tokens: &[Token], sign: Sign) -> bool
    ensures { result ≡ is_next (mark sign) (seen tokens.now) }
{
    if let [first, ..] = tokens {
        if let Token::Mark(_, mark) = first {
            return is_same(*mark, sign);
        }
    }
    false
}

/// Whether the keyword comes next.
pub fn is_word_next(tokens: &[Token], keyword: Keyword) -> bool
    ensures { result ≡ is_next (word keyword) (seen tokens.now) }
{
    if let [first, ..] = tokens {
        if let Token::Word(_, here) = first {
            return is_same_word(*here, keyword);
        }
    }
    false
}

/// Whether the end of the text comes next.
pub fn is_end_next(tokens: &[Token]) -> bool
    ensures { result ≡ is_next end (seen tokens.now) }
{
    matches!(tokens, [Token::End(_), ..])
}
