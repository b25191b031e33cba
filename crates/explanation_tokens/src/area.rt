//! The context of a token: the open signs, and the part of a declaration.

ghost use Rattle.std.specs.Prelude.{◌≡◌, OnOk};
ghost use Rattle.source.specs.Tokens.{seen_token};
ghost use Rattle.explanation_tokens.specs.Around.{area_inside, area_of, area_outside, at_first, closes, fits_area};
ghost use Rattle.explanation_tokens.specs.Around.{fits_inner, inner_of, last_after, opener_of, step, word_after};
ghost use Rattle.explanation_tokens.specs.Around.{word_outside};
ghost use Rattle.explanation_tokens.specs.Working.Seen.{around_of};

use crate::pattern::declares;
use source::memory::NoMemory;
use source::token::{Keyword, Sign, Token};
use std::alloc::Global;

/// The part of a declaration that a token is in.
#[derive(Clone, Copy)]
pub enum Area {
    /// Any part.
    Anywhere,
    /// Outside of all braces, and not after the first word of a declaration that has braces.
    Top,
    /// Between the first word of such a declaration and its brace.
    Head,
    /// In the braces of a struct.
    Fields,
    /// In the braces of a thread.
    Calls,
    /// Right after the condition of an `if` or a `while`.
    Guarded,
    /// Anywhere else in a section or a helper.
    Body,
}

/// The kind of the innermost open sign.
#[derive(Clone, Copy)]
pub enum Inner {
    /// Any sign, or none.
    Either,
    /// A brace.
    Brace,
    /// A parenthesis.
    Paren,
}

/// What a sign opens.
#[derive(Clone, Copy)]
pub enum Opener {
    /// A block, or the braces of a declaration.
    Block,
    /// The condition of an `if` or a `while`.
    Condition,
    /// Any other parenthesis.
    Group,
}

/// An open sign.
#[derive(Clone, Copy)]
pub struct Opened {
    /// The first byte of the sign.
    pub start: u32,
    /// What it opens.
    pub opener: Opener,
}

/// What the last token was.
#[derive(Clone, Copy)]
pub enum Last {
    /// An `if` or a `while`.
    Guard,
    /// The parenthesis that closes a condition.
    ConditionEnd,
    /// Another token, or none.
    Other,
}

/// The context after the tokens so far.
#[derive(Drop)]
pub struct Around {
    /// The open signs, the innermost last.
    opened: Vec<Opened>,
    /// The first word of the declaration.
    word: Option<Keyword>,
    /// The last token.
    last: Last,
}

/// What the token opens.
fn opener_of(last: Last, token: &Token) -> Option<Opener>
    ensures { result ≡ opener_of last (seen_token token.now).kind }
{
    match token {
        Token::Mark(_, Sign::OpenBrace) => Some(Opener::Block),
        Token::Mark(_, Sign::OpenParen) => match last {
            Last::Guard => Some(Opener::Condition),
            _ => Some(Opener::Group),
        },
        _ => None,
    }
}

fn closes(token: &Token) -> bool
    ensures { result ≡ closes (seen_token token.now).kind }
{
    matches!(token, Token::Mark(_, Sign::CloseBrace | Sign::CloseParen))
}

/// The innermost open sign.
fn inner_of(opened: &[Opened]) -> Option<Opened>
    ensures { result ≡ inner_of opened.now }
{
    match opened {
        [.., last] => Some(*last),
        [] => None,
    }
}

/// What the token is as the last one.
fn last_after(opened: &[Opened], token: &Token) -> Last
    ensures { result ≡ last_after opened.now (seen_token token.now).kind }
{
    match token {
        Token::Word(_, Keyword::If | Keyword::While) => Last::Guard,
        Token::Mark(_, Sign::CloseParen) => match inner_of(opened) {
            Some(
                Opened {
                    opener: Opener::Condition,
                    ..
                },
            ) => Last::ConditionEnd,
            _ => Last::Other,
        },
        _ => Last::Other,
    }
}

/// The first word of a declaration after this token, outside of all open signs.
fn word_outside(word: Option<Keyword>, token: &Token) -> Option<Keyword>
    ensures { result ≡ word_outside word (seen_token token.now).kind }
{
    match token {
        Token::Word(_, here) => { if declares(token) { Some(*here) } else { word } }
        _ => word,
    }
}

/// The first word of the declaration after this token.
fn word_after(opened: &[Opened], word: Option<Keyword>, token: &Token) -> Option<Keyword>
    ensures { result ≡ word_after opened.now word (seen_token token.now).kind }
{
    match opened {
        [] => word_outside(word, token),
        [_] => match token {
            Token::Mark(_, Sign::CloseBrace) => None,
            _ => word,
        },
        _ => word,
    }
}

/// The part of a declaration with this first word, outside of its braces.
fn area_outside(word: Option<Keyword>) -> Area
    ensures { result ≡ area_outside word }
{
    match word {
        Some(Keyword::Struct | Keyword::Thread | Keyword::Atomic | Keyword::Call) => Area::Head,
        _ => Area::Top,
    }
}

/// The part of a declaration with this first word, in its braces.
fn area_inside(word: Option<Keyword>, last: Last) -> Area
    ensures { result ≡ area_inside word last }
{
    match word {
        Some(Keyword::Struct) => Area::Fields,
        Some(Keyword::Thread) => Area::Calls,
        _ => match last {
            Last::ConditionEnd => Area::Guarded,
            _ => Area::Body,
        },
    }
}

impl Around {
    /// The context before the first token.
    pub fn new(alloc: Global) -> Self
        ensures { around_of result ≡ at_first }
    {
        Around {
            opened: Vec::new(alloc),
            word: None,
            last: Last::Other,
        }
    }

    /// Moves past this token.
    pub fn step(&mut self, token: &Token) -> Result<(), NoMemory>
        ensures { OnOk result (around_of self.new ≡ step (around_of self.old) (seen_token token.now)) }
    {
        let opener = opener_of(self.last, token);
        let last = last_after(&self.opened, token);
        self.word = word_after(&self.opened, self.word, token);
        self.last = last;
        if let Some(opener) = opener {
            let start = token.start();
            self.opened.push(Opened { start, opener })?;
        } else if closes(token) {
            self.opened.pop();
        }
        Ok(())
    }

    /// The part of the declaration.
    pub fn area(&self) -> Area
        ensures { result ≡ area_of (around_of self.now) }
    {
        match self.opened.as_slice() {
            [
                Opened {
                    opener: Opener::Block,
                    ..
                },
                ..
            ] => area_inside(self.word, self.last),
            _ => area_outside(self.word),
        }
    }

    /// The innermost open sign.
    pub fn inner(&self) -> Option<Opened>
        ensures { result ≡ inner_of (around_of self.now).opened }
    {
        inner_of(&self.opened)
    }
}

/// Whether a token in the part `here` fits the part `area` of a row.
pub fn fits_area(here: Area, area: Area) -> bool
    ensures { result ≡ fits_area here area }
{
    match area {
        Area::Anywhere => true,
        Area::Top => matches!(here, Area::Top),
        Area::Head => matches!(here, Area::Head),
        Area::Fields => matches!(here, Area::Fields),
        Area::Calls => matches!(here, Area::Calls),
        Area::Guarded => matches!(here, Area::Guarded),
        Area::Body => matches!(here, Area::Body),
    }
}

/// Whether the innermost open sign is of this kind.
pub fn fits_inner(here: Option<Opened>, inner: Inner) -> bool
    ensures { result ≡ fits_inner here inner }
{
    let opener = match here {
        Some(opened) => Some(opened.opener),
        None => None,
    };
    match inner {
        Inner::Either => true,
        Inner::Brace => matches!(opener, Some(Opener::Block)),
        Inner::Paren => matches!(opener, Some(Opener::Condition | Opener::Group)),
    }
}
