//! The calls of all scripts in the order of their serial run.

ghost use Rattle.std.specs.Prelude.{◌≡◌, ◌++◌, IfOk, OnOk, map};
ghost use Rattle.core_lang.specs.Serial.{all_calls, script_from};
ghost use Rattle.driver.specs.Working.Running.{scheduled_of};

use core_lang::typed::{Call, Typed};
use source::memory::NoMemory;
use std::alloc::{AllocError, Global};

/// A call of a thread's script.
#[derive(Drop)]
pub struct ScheduledCall<'a> {
    /// The thread, in order of declaration, from 0.
    pub thread: usize,
    /// The number of the call in its thread's script, from 0.
    pub step: usize,
    /// The section and the arguments.
    pub call: &'a Call,
}

/// Appends the calls of `thread`.
fn push_script<'a>(
    all: &mut Vec<ScheduledCall<'a>>,
    thread: usize,
    calls: &'a [Call],
) -> Result<(), AllocError>
    ensures { OnOk result
        (map scheduled_of all.new.items ≡ map scheduled_of all.old.items ++ script_from thread 0 calls.entry.now) }
{
    for (step, call) in calls.iter().enumerate() {
        all.push(ScheduledCall { thread, step, call })?;
    }
    Ok(())
}

/// The calls of all scripts, thread 0's whole script first, then thread 1's, and so on.
pub fn schedule<'a>(alloc: Global, program: &'a Typed) -> Result<Vec<ScheduledCall<'a>>, NoMemory>
    ensures { IfOk result (λ all. map scheduled_of all.items ≡ all_calls program.entry.now) }
{
    let mut all = Vec::new(alloc);
    for (thread, script) in program.threads.iter().enumerate() {
        push_script(&mut all, thread, &script.calls)?;
    }
    Ok(all)
}
