//! The lines on locks. The one error is a refused growth.

ghost use Rattle.std.specs.Prelude.{◌≡◌, IfOk, length, option_map, string_bytes};
ghost use Rattle.std.specs.Str.{bytes_eq};
ghost use Rattle.locks.specs.Texts.{class_name};
ghost use Rattle.language_server.specs.Ranks as ranks;

use compiler::compile;
use core_lang::typed::Typed;
use locks::text::push_class;
use lowering::compiled::Program;
use source::fault::Refusal;
use source::memory::NoMemory;
use std::alloc::{AllocError, Global};

/// Whether the class with the number `number` is written like `class`.
fn is_written(
    alloc: Global,
    program: &Typed,
    number: usize,
    class: &str,
) -> Result<bool, AllocError>
    ensures { IfOk result (λ is. is ≡ bytes_eq (class_name program.now number) class.now) }
{
    let mut text = String::new(alloc);
    push_class(&mut text, program, number)?;
    Ok(text.as_str() == class)
}

/// The number of the class that is written like `class`.
#[tactic(auto, using(crate::proofs::First::begins, crate::proofs::First::found_before, crate::proofs::First::none_more))]
fn class_number(alloc: Global, program: &Typed, class: &str) -> Result<Option<usize>, AllocError>
    ensures { IfOk result (λ found. found ≡ ranks.class_number program.now class.now) }
{
    for number in 0..program.classes.len() {
        if is_written(alloc, program, number, class)? {
            return Ok(Some(number));
        }
    }
    Ok(None)
}

/// The rank of the class that is written like `class`.
fn rank(alloc: Global, program: &Program, class: &str) -> Result<Option<u32>, AllocError>
    ensures { IfOk result (λ found. found ≡ ranks.rank_of program.now.program program.now.ranks class.now) }
{
    match class_number(alloc, program.expanded(), class)? {
        Some(number) => Ok(program.ranks().get(number).copied()),
        None => Ok(None),
    }
}

/// The line of a class with its rank, if the rank is known.
fn class_line(alloc: Global, class: &str, rank: Option<u32>) -> Result<String, AllocError>
    ensures { IfOk result (λ told. string_bytes told ≡ ranks.class_line class.now rank) }
{
    let mut told = String::from_str(alloc, "lock class ")?;
    told.push_str(class)?;
    if let Some(rank) = rank {
        write!(told, ", rank {rank}")?;
    }
    told.push_str("\n")?;
    Ok(told)
}

/// The line of a class with its rank in `program`.
fn ranked_line(alloc: Global, program: &Program, class: &str) -> Result<String, AllocError>
    ensures { IfOk result (λ told. string_bytes told ≡ ranks.class_line class.now
        (ranks.rank_of program.now.program program.now.ranks class.now)) }
{
    let rank = rank(alloc, program, class)?;
    class_line(alloc, class, rank)
}

/// The line of a lock class of the text.
fn line_of(alloc: Global, text: &str, class: &str) -> Result<String, NoMemory>
    ensures { IfOk result (λ told. ranks.IsClassLine text.now class.now (string_bytes told)) }
{
    match compile(alloc, text.as_bytes()) {
        Ok(program) => {
            let told = ranked_line(alloc, &program, class)?;
            Ok(told)
        }
        Err(Refusal::NoMemory) => Err(NoMemory),
        Err(Refusal::Fault(_)) => {
            let told = class_line(alloc, class, None)?;
            Ok(told)
        }
    }
}

/// The line of the lock class that belongs to a declaration; empty, where there is none.
pub(crate) fn lock_line(
    alloc: Global,
    text: &str,
    class: Option<String>,
) -> Result<String, NoMemory>
    ensures { IfOk result (λ told. ranks.IsLockLine text.now (option_map string_bytes class) (string_bytes told)) }
{
    match class {
        Some(class) => line_of(alloc, text, class.as_str()),
        None => Ok(String::new(alloc)),
    }
}
