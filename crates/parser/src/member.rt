//! Structs and locks.

ghost use Rattle.std.specs.Prelude.{◌≡◌, map};
ghost use Rattle.source.specs.Tokens.{seen};
ghost use Rattle.syntax.specs.Views.{ident, member_of, struct_of};
ghost use Rattle.parser.specs.Working.Reading.{Gives};
ghost use Rattle.parser.specs.Working.Declarations.{lock_at, lock_member_at, final_at, field_at, member_at, members_with, struct_at};

use crate::growth::push;
use crate::parts::{protection, value_type};
use crate::stop::Stop;
use crate::take::{ended_by, is_sign_next, is_word_next, take_name, take_open, take_word};
use source::token::{Keyword, Sign, Token};
use std::alloc::Global;
use syntax::tree::{Field, Final, Member, Name, Struct};

/// Parses a lock, after its first word.
pub fn lock(tokens: &[Token]) -> Result<(Name, &[Token]), Stop>
    ensures { Gives (λ x. (ident x.0, seen x.1.now)) result (lock_at (seen tokens.now)) }
{
    ended_by(take_name(tokens), Sign::Semicolon)
}

/// Parses a lock of a struct.
fn lock_member(tokens: &[Token]) -> Result<(Member, &[Token]), Stop>
    ensures { Gives (λ x. (member_of x.0, seen x.1.now)) result (lock_member_at (seen tokens.now)) }
{
    let (_, rest) = take_word(tokens, Keyword::Lock)?;
    let (name, rest) = lock(rest)?;
    Ok((Member::Lock(name), rest))
}

/// Parses a reference that never changes.
fn final_member(tokens: &[Token]) -> Result<(Member, &[Token]), Stop>
    ensures { Gives (λ x. (member_of x.0, seen x.1.now)) result (final_at (seen tokens.now)) }
{
    let (_, rest) = take_word(tokens, Keyword::Final)?;
    let (_, rest) = take_word(rest, Keyword::Ref)?;
    let (target, rest) = take_name(rest)?;
    let (name, rest) = ended_by(take_name(rest), Sign::Semicolon)?;
    Ok((Member::Final(Final { name, target }), rest))
}

/// Parses a field that can change.
fn field(alloc: Global, tokens: &[Token], room: u32) -> Result<(Member, &[Token]), Stop>
    ensures { Gives (λ x. (member_of x.0, seen x.1.now)) result (field_at room (seen tokens.now)) }
{
    let (value_type, rest) = value_type(tokens)?;
    let (name, rest) = take_name(rest)?;
    let (protection, rest) = ended_by(protection(alloc, rest, room), Sign::Semicolon)?;
    let field = Field {
        name,
        value_type,
        protection,
    };
    Ok((Member::Field(field), rest))
}

/// Parses a member of a struct.
#[tactic(auto, unfolding(crate::specs::Working::Reading::choose))]
fn member(alloc: Global, tokens: &[Token], room: u32) -> Result<(Member, &[Token]), Stop>
    ensures { Gives (λ x. (member_of x.0, seen x.1.now)) result (member_at room (seen tokens.now)) }
{
    if is_word_next(tokens, Keyword::Lock) {
        return lock_member(tokens);
    }
    if is_word_next(tokens, Keyword::Final) {
        return final_member(tokens);
    }
    field(alloc, tokens, room)
}

fn members(alloc: Global, tokens: &[Token], room: u32) -> Result<(Vec<Member>, &[Token]), Stop>
    ensures { Gives (λ x. (map member_of x.0.items, seen x.1.now)) result
        (members_with (member_at room) (seen tokens.now)) }
{
    let mut members = Vec::new(alloc);
    let mut rest = tokens;
    'items: while !is_sign_next(rest, Sign::CloseBrace) {
        let (next, after) = member(alloc, rest, room)?;
        push(&mut members, next)?;
        rest = after;
    }
    Ok((members, rest))
}

/// Parses a struct, after its first word.
pub fn structure(alloc: Global, tokens: &[Token], room: u32) -> Result<(Struct, &[Token]), Stop>
    ensures { Gives (λ x. (struct_of x.0, seen x.1.now)) result (struct_at room (seen tokens.now)) }
{
    let (name, rest) = take_name(tokens)?;
    let (_, rest) = take_open(rest, Sign::OpenBrace, room)?;
    let (members, rest) = ended_by(members(alloc, rest, room - 1), Sign::CloseBrace)?;
    Ok((Struct { name, members }, rest))
}
