//! The calls of a program's threads.

ghost use Rattle.std.specs.Prelude.{◌≡◌, ◌++◌, IfOk, OnOk, map};
ghost use Rattle.core_lang.specs.Serial.{all_calls, script_from};
ghost use Rattle.report.specs.Entry.{scheduled_called};

use core_lang::typed::{Call, Typed};
use report::record::CallRef;
use std::alloc::{AllocError, Global};

/// Appends the calls of `thread`.
fn add_calls<'a>(
    calls: &mut Vec<CallRef<'a>>,
    thread: usize,
    script: &'a [Call],
) -> Result<(), AllocError>
    ensures { OnOk result (map scheduled_called calls.new.items ≡ map scheduled_called calls.old.items
        ++ script_from thread 0 script.entry.now) }
{
    for (step, call) in script.iter().enumerate() {
        calls.push(CallRef {
            thread,
            step,
            begun: 0,
            section: call.section,
            arguments: &call.arguments,
        })?;
    }
    Ok(())
}

/// The calls of all threads, thread 0's whole script first.
pub(crate) fn calls_of(alloc: Global, program: &Typed) -> Result<Vec<CallRef<'_>>, AllocError>
    ensures { IfOk result (λ calls. map scheduled_called calls.items ≡ all_calls program.entry.now) }
{
    let mut calls = Vec::new(alloc);
    for (thread, script) in program.threads.iter().enumerate() {
        add_calls(&mut calls, thread, &script.calls)?;
    }
    Ok(calls)
}
