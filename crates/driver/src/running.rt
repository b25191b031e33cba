//! The serial run of a program's calls, and of some of them.

ghost use Rattle.std.specs.Prelude.{◌≡◌, IfOk, map};
ghost use Rattle.core_lang.specs.Expansion.{IsExpansion};
ghost use Rattle.core_lang.specs.Serial.{all_calls};
ghost use Rattle.core_lang.specs.Typing.{HasCells};
ghost use Rattle.core_lang.specs.WellFormed.{IsChecked};
ghost use Rattle.report.specs.{entry_of};
ghost use Rattle.driver.specs.Working.Running.{scheduled_of, ended_of, CanMake, IsRan};
ghost use Rattle.driver.specs.Serial.{entry};

use crate::schedule::{ScheduledCall, schedule};
use core_lang::typed::Typed;
use lowering::compiled::Program;
use meaning::heap::Heap;
use meaning::run::End;
use meaning_registers::prepared::Prepared;
use report::record::{CallRef, Record};
use source::memory::NoMemory;
use std::alloc::Global;

/// How far the calls of a program came. The program holds their arguments.
#[derive(Drop)]
pub struct Ran<'a> {
    /// The calls that were settled.
    pub records: Vec<Record<'a>>,
    /// The values of all cells after the settled calls.
    pub heap: Heap,
    /// The thread and the step of the first call that was not settled, if a call was not.
    pub unsettled: Option<(usize, usize)>,
}

/// The record of the call `made`, which ended with `end`.
fn record_of<'a>(made: &ScheduledCall<'a>, end: End) -> Record<'a>
    ensures { entry_of result ≡ entry (scheduled_of made.entry.now) (ended_of end) }
{
    let call = CallRef {
        thread: made.thread,
        step: made.step,
        // (only the first format reports these, and it leaves this out)
        begun: 0,
        section: made.call.section,
        arguments: &made.call.arguments,
    };
    let End {
        outcome,
        prints,
        ..
    } = end;
    Record {
        call,
        outcome,
        prints,
    }
}

/// Prepares the program, as it was accepted, for its calls.
pub fn prepared(alloc: Global, program: &Program) -> Result<Prepared<'_>, NoMemory>
    ensures program { IfOk result (λ prepared. prepared.program.now ≡ program.now.accepted) }
    ensures checked { IfOk result (λ prepared. IsChecked prepared.program.now) }
    ensures expansion { IfOk result (λ prepared. IsExpansion prepared.program.now prepared.written.now) }
{
    Prepared::new(alloc, program.typed(), program.expanded())
}

/// Runs `calls` one after another from the opening heap, up to the first call that `turns` turns of each execution of a
/// loop don't settle.
pub fn run_calls<'a>(
    alloc: Global,
    prepared: &Prepared<'_>,
    turns: u64,
    calls: &[ScheduledCall<'a>],
) -> Result<Ran<'a>, NoMemory>
    requires checked { IsChecked prepared.now.program.now }
    requires expansion { IsExpansion prepared.now.program.now prepared.now.written.now }
    requires calls { CanMake prepared.now.program.now (map scheduled_of calls.now) }
    ensures ran { IfOk result (IsRan turns prepared.now.program.now (map scheduled_of calls.entry.now)) }
    ensures cells { IfOk result (λ ran. HasCells prepared.now.program.now ran.heap) }
{
    let mut heap = Heap::open(alloc, prepared.program())?;
    let mut records = Vec::with_capacity(alloc, calls.len())?;
    for next in calls {
        let call = next.call;
        let run = prepared.run_whole(alloc, call.section, &call.arguments, &mut heap, turns)?;
        let Some(end) = run else {
            let unsettled = Some((next.thread, next.step));
            return Ok(Ran {
                records,
                heap,
                unsettled,
            });
        };
        records.push(record_of(next, end))?;
    }
    Ok(Ran {
        records,
        heap,
        unsettled: None,
    })
}

/// Runs all calls of `program` one after another, thread 0's whole script first, up to the first call that `turns`
/// turns of each execution of a loop don't settle.
pub fn run_scripts<'a>(
    alloc: Global,
    program: &'a Typed,
    prepared: &Prepared<'_>,
    turns: u64,
) -> Result<Ran<'a>, NoMemory>
    requires checked { IsChecked program.now }
    requires same { prepared.now.program.now ≡ program.now }
    requires expansion { IsExpansion program.now prepared.now.written.now }
    ensures ran { IfOk result (IsRan turns program.entry.now (all_calls program.entry.now)) }
    ensures cells { IfOk result (λ ran. HasCells program.entry.now ran.heap) }
{
    let calls = schedule(alloc, program)?;
    run_calls(alloc, prepared, turns, &calls)
}
