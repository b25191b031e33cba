//! Whether a section has too many lock paths.

ghost use Rattle.std.specs.Prelude.{Decides, IfOk};
ghost use Rattle.core_lang.specs.WellFormed.{IsWellFormed};
ghost use Rattle.source.specs.Tokens.{seen};
ghost use Rattle.explanation_faults.specs.PathsPassed.{IsFirstOfPaths};
ghost use Rattle.explanation_faults.specs.Working.Values.{IsLimitAt, IsMeant, TellsOfPaths};

use core_lang::typed::Typed;
use core_lang_helpers::program::expand;
use lockpaths::paths;
use parser::{one_tree, parse};
use source::fault::{Code, Fault, Refusal};
use source::memory::NoMemory;
use source::token::Token;
use std::alloc::Global;
use types::program::check;

/// The expanded program that tokens mean, if it does not have a fault before its lock paths.
fn meant(alloc: Global, tokens: &[Token]) -> Result<Option<Typed>, NoMemory>
    ensures { IfOk result (IsMeant (seen tokens.now)) }
{
    one_tree();
    let tree = match parse(alloc, tokens) {
        Ok(tree) => tree,
        Err(Refusal::Fault(_)) => return Ok(None),
        Err(Refusal::NoMemory) => return Err(NoMemory),
    };
    let program = match check(alloc, &tree) {
        Ok(program) => program,
        Err(Refusal::Fault(_)) => return Ok(None),
        Err(Refusal::NoMemory) => return Err(NoMemory),
    };
    let written = expand(alloc, &program)?;
    Ok(Some(written))
}

/// Whether `fault` is an exceeded limit at byte `at`.
pub fn is_limit_at(fault: &Fault, at: usize) -> bool
    ensures { Decides result (IsLimitAt fault.now at) }
{
    fault.code == Code::LimitExceeded && fault.start == at
}

/// Whether the first fault of the lock paths of a program is an exceeded limit at byte `at`.
fn is_first_limit(alloc: Global, written: &Typed, at: usize) -> Result<bool, NoMemory>
    requires { IsWellFormed written.now }
    ensures { IfOk result (λ is. Decides is (IsFirstOfPaths written.now at)) }
{
    match paths(alloc, written) {
        Ok(_) => Ok(false),
        Err(Refusal::Fault(fault)) => Ok(is_limit_at(&fault, at)),
        Err(Refusal::NoMemory) => Err(NoMemory),
    }
}

/// Whether the first fault of the lock paths of the program that tokens mean is their exceeded limit at byte `at`.
pub fn are_paths_past(alloc: Global, tokens: &[Token], at: usize) -> Result<bool, NoMemory>
    ensures { IfOk result (TellsOfPaths (seen tokens.now) at) }
{
    let Some(written) = meant(alloc, tokens)? else {
        return Ok(false);
    };
    is_first_limit(alloc, &written, at)
}
