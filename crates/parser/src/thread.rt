//! Threads.

ghost use Rattle.std.specs.Prelude.{◌≡◌};
ghost use Rattle.source.specs.Tokens.{seen};
ghost use Rattle.syntax.specs.Views.{call_of, item_of, items_of, thread_of};
ghost use Rattle.parser.specs.Working.Reading.{Gives};
ghost use Rattle.parser.specs.Working.Declarations.{call_at, repeat_with, item_at, items_in, items_with, thread_at};

use crate::growth::push;
use crate::parts::constants;
use crate::stop::Stop;
use crate::take::{
    ended_by, is_sign_next, is_word_next, take_int, take_name, take_open, take_sign, take_word,
};
use source::token::{Keyword, Sign, Token};
use std::alloc::Global;
use syntax::tree::{Call, Item, Thread};

/// Parses a call.
fn call(alloc: Global, tokens: &[Token], room: u32) -> Result<(Call, &[Token]), Stop>
    ensures { Gives (λ x. (call_of x.0, seen x.1.now)) result (call_at room (seen tokens.now)) }
{
    let (section, rest) = take_name(tokens)?;
    let (_, rest) = take_open(rest, Sign::OpenParen, room)?;
    let (arguments, rest) = ended_by(constants(alloc, rest, room - 1), Sign::CloseParen)?;
    let (_, rest) = take_sign(rest, Sign::Semicolon)?;
    Ok((Call { section, arguments }, rest))
}

/// Parses an item of a thread.
#[cycle(item)]
#[tactic(auto, unfolding(crate::specs::Working::Declarations::item_with, crate::specs::Working::Reading::choose))]
fn item(alloc: Global, tokens: &[Token], room: u32) -> Result<(Item, &[Token]), Stop>
    ensures { Gives (λ x. (item_of x.0, seen x.1.now)) result (item_at room (seen tokens.now)) }
{
    if is_word_next(tokens, Keyword::Repeat) {
        return repeat(alloc, tokens, room);
    }
    let (call, rest) = call(alloc, tokens, room)?;
    Ok((Item::Call(call), rest))
}

/// Parses a repetition.
#[cycle(item)]
fn repeat(alloc: Global, tokens: &[Token], room: u32) -> Result<(Item, &[Token]), Stop>
    ensures { Gives (λ x. (item_of x.0, seen x.1.now)) result (repeat_with room (items_in room) (seen tokens.now)) }
{
    let (_, rest) = take_word(tokens, Keyword::Repeat)?;
    let (count, rest) = take_int(rest)?;
    let (_, rest) = take_open(rest, Sign::OpenBrace, room)?;
    let (items, rest) = ended_by(items(alloc, rest, room - 1), Sign::CloseBrace)?;
    Ok((Item::Repeat(count, items), rest))
}

#[cycle(item)]
fn items(alloc: Global, tokens: &[Token], room: u32) -> Result<(Vec<Item>, &[Token]), Stop>
    ensures { Gives (λ x. (items_of x.0.items, seen x.1.now)) result (items_with (item_at room) (seen tokens.now)) }
{
    let mut items = Vec::new(alloc);
    let mut rest = tokens;
    'items: while !is_sign_next(rest, Sign::CloseBrace) {
        let (next, after) = item(alloc, rest, room)?;
        push(&mut items, next)?;
        rest = after;
    }
    Ok((items, rest))
}

/// Parses a thread, after its first word.
pub fn thread(alloc: Global, tokens: &[Token], room: u32) -> Result<(Thread, &[Token]), Stop>
    ensures { Gives (λ x. (thread_of x.0, seen x.1.now)) result (thread_at room (seen tokens.now)) }
{
    let (name, rest) = take_name(tokens)?;
    let (_, rest) = take_open(rest, Sign::OpenBrace, room)?;
    let (items, rest) = ended_by(items(alloc, rest, room - 1), Sign::CloseBrace)?;
    Ok((Thread { name, items }, rest))
}
