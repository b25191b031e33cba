//! Declarations and programs.

ghost use Rattle.std.specs.Prelude.{◌≡◌, map};
ghost use Rattle.source.specs.Tokens.{seen};
ghost use Rattle.syntax.specs.Views.{ident, type_of, section_of, decl_of, tree_of};
ghost use Rattle.parser.specs.Working.Reading.{Gives};
ghost use Rattle.parser.specs.Working.Declarations.{array_at, variable_at, global_at, section_at, helper_at, decl_at, decls_at, program_at};
ghost use Rattle.parser.specs.Working.Rests.{pool_decl, init_decl};

use crate::growth::push;
use crate::member::{lock, structure};
use crate::parts::{
    classes, constant, index, opening_value, params, protection, result_type, value_type,
};
use crate::stmt::block;
use crate::stop::Stop;
use crate::take::{ended_by, is_end_next, is_sign_next, take_name};
use crate::thread::thread;
use source::keyed::{Digest, KeyedState};
use source::span::Span;
use source::token::{Keyword, Sign, Token};
use std::alloc::Global;
use syntax::tree::{Array, Decl, Init, Name, Pool, Section, Tree, ValueType, Variable};

/// Parses a global that is an array, after its type and name.
fn array(
    alloc: Global,
    value_type: ValueType,
    name: Name,
    tokens: &[Token],
    room: u32,
) -> Result<(Decl, &[Token]), Stop>
    ensures { Gives (λ x. (decl_of x.0, seen x.1.now)) result
        (array_at room (type_of value_type) (ident name) (seen tokens.now)) }
{
    let (length, rest) = index(tokens, room)?;
    let (protection, rest) = ended_by(protection(alloc, rest, room), Sign::Semicolon)?;
    let array = Array {
        name,
        value_type,
        length,
        protection,
    };
    Ok((Decl::Array(array), rest))
}

/// Parses a global that is not an array, after its type and name.
fn variable(
    alloc: Global,
    value_type: ValueType,
    name: Name,
    tokens: &[Token],
    room: u32,
) -> Result<(Decl, &[Token]), Stop>
    ensures { Gives (λ x. (decl_of x.0, seen x.1.now)) result
        (variable_at room (type_of value_type) (ident name) (seen tokens.now)) }
{
    let (protection, rest) = protection(alloc, tokens, room)?;
    let (value, rest) = ended_by(opening_value(alloc, rest, room), Sign::Semicolon)?;
    let variable = Variable {
        name,
        value_type,
        protection,
        value,
    };
    Ok((Decl::Global(variable), rest))
}

/// Parses a global, after its first word.
#[tactic(auto, unfolding(crate::specs::Working::Declarations::global_at, crate::specs::Working::Reading::choose))]
fn global(alloc: Global, tokens: &[Token], room: u32) -> Result<(Decl, &[Token]), Stop>
    ensures { Gives (λ x. (decl_of x.0, seen x.1.now)) result (global_at room (seen tokens.now)) }
{
    let (value_type, rest) = value_type(tokens)?;
    let (name, rest) = take_name(rest)?;
    if is_sign_next(rest, Sign::OpenBracket) {
        return array(alloc, value_type, name, rest, room);
    }
    variable(alloc, value_type, name, rest, room)
}

/// Parses a pool, after its first word.
fn pool(alloc: Global, tokens: &[Token], room: u32) -> Result<(Decl, &[Token]), Stop>
    ensures { Gives (λ x. (decl_of x.0, seen x.1.now)) result (pool_decl room (seen tokens.now)) }
{
    let (target, rest) = take_name(tokens)?;
    let (name, rest) = take_name(rest)?;
    let (length, rest) = ended_by(index(rest, room), Sign::Semicolon)?;
    let pool = Pool {
        name,
        target,
        length,
    };
    Ok((Decl::Pool(pool), rest))
}

/// Parses the initial value of a member's field, after the word `init`, which is at `start`.
fn init(alloc: Global, start: Span, tokens: &[Token], room: u32) -> Result<(Decl, &[Token]), Stop>
    ensures { Gives (λ x. (decl_of x.0, seen x.1.now)) result (init_decl room start (seen tokens.now)) }
{
    let (pool, rest) = take_name(tokens)?;
    let (index, rest) = ended_by(index(rest, room), Sign::Dot)?;
    let (field, rest) = ended_by(take_name(rest), Sign::Equals)?;
    let (value, rest) = ended_by(constant(alloc, rest, room), Sign::Semicolon)?;
    let init = Init {
        start,
        pool,
        index,
        field,
        value,
    };
    Ok((Decl::Init(init), rest))
}

/// Parses a section, after its first word.
fn section(alloc: Global, tokens: &[Token], room: u32) -> Result<(Section, &[Token]), Stop>
    ensures { Gives (λ x. (section_of x.0, seen x.1.now)) result (section_at room (seen tokens.now)) }
{
    let (name, rest) = take_name(tokens)?;
    let (params, rest) = params(alloc, rest, room)?;
    let (result, rest) = result_type(rest)?;
    let (listed, rest) = classes(alloc, rest, room)?;
    let (body, rest) = block(alloc, rest, room)?;
    let section = Section {
        name,
        params,
        result,
        listed,
        body,
    };
    Ok((section, rest))
}

/// Parses a helper, after its first word.
fn helper(alloc: Global, tokens: &[Token], room: u32) -> Result<(Section, &[Token]), Stop>
    ensures { Gives (λ x. (section_of x.0, seen x.1.now)) result (helper_at room (seen tokens.now)) }
{
    let (name, rest) = take_name(tokens)?;
    let (params, rest) = params(alloc, rest, room)?;
    let (result, rest) = result_type(rest)?;
    let (body, rest) = block(alloc, rest, room)?;
    let helper = Section {
        name,
        params,
        result,
        listed: Vec::new(alloc),
        body,
    };
    Ok((helper, rest))
}

#[tactic(auto, unfolding(crate::specs::Working::Declarations::decl_at))]
fn decl(alloc: Global, tokens: &[Token], room: u32) -> Result<(Decl, &[Token]), Stop>
    ensures { Gives (λ x. (decl_of x.0, seen x.1.now)) result (decl_at room (seen tokens.now)) }
{
    let [first, rest @ ..] = tokens else {
        return Err(Stop::Unexpected(0));
    };
    match first {
        Token::Word(_, Keyword::Lock) => {
            let (name, rest) = lock(rest)?;
            Ok((Decl::Lock(name), rest))
        }
        Token::Word(_, Keyword::Struct) => {
            let (structure, rest) = structure(alloc, rest, room)?;
            Ok((Decl::Struct(structure), rest))
        }
        Token::Word(_, Keyword::Global) => global(alloc, rest, room),
        Token::Word(_, Keyword::Pool) => pool(alloc, rest, room),
        Token::Word(span, Keyword::Init) => init(alloc, *span, rest, room),
        Token::Word(_, Keyword::Atomic) => {
            let (section, rest) = section(alloc, rest, room)?;
            Ok((Decl::Atomic(section), rest))
        }
        Token::Word(_, Keyword::Call) => {
            let (helper, rest) = helper(alloc, rest, room)?;
            Ok((Decl::Helper(helper), rest))
        }
        Token::Word(_, Keyword::Thread) => {
            let (thread, rest) = thread(alloc, rest, room)?;
            Ok((Decl::Thread(thread), rest))
        }
        _ => Err(Stop::Unexpected(tokens.len())),
    }
}

fn decls(alloc: Global, tokens: &[Token], room: u32) -> Result<(Vec<Decl>, &[Token]), Stop>
    ensures { Gives (λ x. (map decl_of x.0.items, seen x.1.now)) result (decls_at room (seen tokens.now)) }
{
    let mut decls = Vec::new(alloc);
    let mut rest = tokens;
    'items: while !is_end_next(rest) {
        let (next, after) = decl(alloc, rest, room)?;
        push(&mut decls, next)?;
        rest = after;
    }
    Ok((decls, rest))
}

/// The hash builder for tables of the names of these tokens.
fn hashing_of(tokens: &[Token]) -> KeyedState {
    let mut digest = Digest::new();
    for token in tokens {
        if let Token::Name(_, name) = token {
            digest.add(name.as_bytes());
        }
    }
    digest.into_keys()
}

/// Parses a program, with at most `room` signs open at a time.
#[tactic(auto, unfolding(crate::specs::Working::Declarations::program_at))]
pub fn program(alloc: Global, tokens: &[Token], room: u32) -> Result<Tree, Stop>
    ensures { Gives tree_of result (program_at room (seen tokens.now)) }
{
    let (decls, rest) = decls(alloc, tokens, room)?;
    match rest {
        [] => Err(Stop::Unexpected(0)),
        [_] => Ok(Tree {
            decls,
            hashing: hashing_of(tokens),
        }),
        [_, more @ ..] => Err(Stop::Unexpected(more.len())),
    }
}
