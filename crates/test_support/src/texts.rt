//! The answers to a test's questions about a compiled text.

use crate::scenarios::Scenario;
use compiler::compile;
use core_lang::value::Value;
use std::alloc::Global;
use std::test::Fail;

/// The text on the calls of a scenario, made to a manager of the program's locks.
pub fn said_of_calls(alloc: Global, text: &str, scenario: Scenario) -> Result<String, Fail> {
    let program = compile(alloc, text.as_bytes())?;
    crate::scenarios::said_of(alloc, &program, scenario)
}

/// The layout of the program's locks and cells.
pub fn laid_out(alloc: Global, text: &str) -> Result<String, Fail> {
    let program = compile(alloc, text.as_bytes())?;
    crate::layouts::laid_out(alloc, &program)
}

/// Whether the program takes each of `calls`.
pub fn taken(alloc: Global, text: &str, calls: &[(usize, &[Value])]) -> Result<String, Fail> {
    let program = compile(alloc, text.as_bytes())?;
    crate::calls_taken::taken(alloc, program.expanded(), calls)
}

/// The text on the first `steps` steps of a thread of the program.
pub fn stepped(alloc: Global, text: &str, thread: u32, steps: usize) -> Result<String, Fail> {
    let program = compile(alloc, text.as_bytes())?;
    crate::world_steps::stepped(alloc, &program, thread, steps)
}
