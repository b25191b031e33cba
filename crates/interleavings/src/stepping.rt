//! One step of one thread.

ghost use Rattle.std.specs.Prelude.{◌≡◌, ◌<◌, ◌≤◌, length, MatchOption, IfOk};
ghost use Rattle.interleavings.specs.Working.States.{state_of, AreReady};
ghost use Rattle.interleavings.specs.Working.Steps.{Stepped, AskingSteps, EndedSteps, CanBegin, CanStep, HasNoCall, IsCall, status_at, asking_at, coming_at};
ghost use Rattle.interleavings.specs.declared.state.TypedState.TheVariants as state;
ghost use Rattle.runner.specs.Working.Opens.{CanBeReleased, IsKnown};

use crate::coming::Coming;
use crate::state::TypedState;
use crate::status::ThreadStatus;
use core_lang::typed::Call;
use lock_manager::manager::Manager;
use lowering::compiled::Program;
use runner::states::{Asked, Asking, Ended, Next, Ready};
use source::memory::NoMemory;
use std::alloc::Global;
use std::mem;
use worlds::event::Event;

/// Takes one step of a thread.
///
/// # Errors
///
/// Out of memory, only if a call would begin. All is then as it was.
pub fn step<'p>(
    alloc: Global,
    program: &'p Program,
    manager: &mut Manager<'p>,
    state: TypedState<'p>,
) -> (TypedState<'p>, Result<Event, NoMemory>)
    requires { CanStep manager.old state }
    ensures { Stepped program.now manager.old state.entry result.1 result.0 manager.new }
{
    match state {
        TypedState::Away => unreachable!(),
        TypedState::Ready(ready) => begin(alloc, program, manager, ready),
        TypedState::Running(running) => (state_of(running.step()), Ok(Event::Moved)),
        TypedState::Asking(asking) => {
            let (state, event) = ask(manager, asking);
            (state, Ok(event))
        }
        TypedState::Ended(ended) => {
            let (state, event) = end(manager, ended);
            (state, Ok(event))
        }
    }
}

// Begins the next call, if one is left.
fn begin<'p>(
    alloc: Global,
    program: &'p Program,
    manager: &mut Manager<'p>,
    ready: Ready<'p>,
) -> (TypedState<'p>, Result<Event, NoMemory>)
    requires { CanBegin manager.old ready }
    ensures { Stepped program.now manager.old (state.Ready ready.entry) result.1 result.0 manager.new }
{
    match call_at(program, ready.thread(), ready.step()) {
        None => (TypedState::Ready(ready), Ok(Event::Idle)),
        Some(call) => match ready.begin(alloc, manager, program, call) {
            Ok(running) => (TypedState::Running(running), Ok(Event::Began)),
            Err(ready) => (TypedState::Ready(ready), Err(NoMemory)),
        },
    }
}

// Asks for the next lock.
fn ask<'p>(manager: &mut Manager<'p>, asking: Asking<'p>) -> (TypedState<'p>, Event)
    requires { IsKnown manager.old asking }
    ensures { AskingSteps manager.old asking.entry result.1 result.0 manager.new }
{
    let lock = asking.lock();
    match asking.ask(manager) {
        Asked::Got(next) => (state_of(next), Event::Got(lock)),
        Asked::Waits(asking, holder) => (TypedState::Asking(asking), Event::Waits(lock, holder)),
    }
}

// Ends the section.
fn end<'p>(manager: &mut Manager<'p>, ended: Ended<'p>) -> (TypedState<'p>, Event)
    requires { CanBeReleased manager.old ended }
    ensures { EndedSteps manager.old ended.entry result.1 result.0 manager.new }
{
    let (ready, receipt) = ended.release(manager);
    let position = receipt.position();
    (
        TypedState::Ready(ready.keep(receipt)),
        Event::Ended(position),
    )
}

/// The call with this number of a thread's script, if there is one.
pub fn call_at(program: &Program, thread: u32, step: usize) -> Option<&Call>
    ensures { MatchOption result (HasNoCall program.now thread step) (λ call. IsCall program.now thread step call.now) }
{
    let thread = program.expanded().threads.get(thread as usize)?;
    thread.calls.get(step)
}

/// The state with which a section goes on.
pub fn state_of(next: Next<'_>) -> TypedState<'_>
    ensures { result ≡ state_of next.entry }
{
    match next {
        Next::Running(running) => TypedState::Running(running),
        Next::Asking(asking) => TypedState::Asking(asking),
        Next::Ended(ended) => TypedState::Ended(ended),
    }
}

/// Puts a state into an empty place.
pub fn put<'p>(place: &mut TypedState<'p>, next: TypedState<'p>)
    requires { place.old ≡ state.Away }
    ensures { place.new ≡ next.entry }
{
    match mem::replace(place, next) {
        TypedState::Away => {}
        TypedState::Ready(_ready) => {}
        TypedState::Running(_running) => unreachable!(),
        TypedState::Asking(_asking) => unreachable!(),
        TypedState::Ended(_ended) => unreachable!(),
    }
}

/// The status of a thread in this state.
pub fn status(program: &Program, manager: &Manager<'_>, state: &TypedState<'_>) -> ThreadStatus
    ensures { result ≡ status_at program.now manager.now state.now }
{
    match state {
        TypedState::Away => ThreadStatus::Idle,
        TypedState::Ready(ready) => match call_at(program, ready.thread(), ready.step()) {
            None => ThreadStatus::Idle,
            Some(_) => ThreadStatus::Ready,
        },
        TypedState::Running(_) => ThreadStatus::Running,
        TypedState::Asking(asking) => wanted(manager, asking),
        TypedState::Ended(_) => ThreadStatus::Running,
    }
}

// Whether another thread holds the lock that the section has asked for, as a status.
fn wanted(manager: &Manager<'_>, section: &Asking<'_>) -> ThreadStatus
    ensures { result ≡ asking_at manager.now section.now }
{
    let lock = section.lock();
    if !section.asked() {
        return ThreadStatus::Running;
    }
    match manager.holder(lock) {
        None => ThreadStatus::Running,
        Some(holder) => ThreadStatus::Waits(lock, holder),
    }
}

/// What the next step of a thread in this state does.
pub fn coming(state: &TypedState<'_>) -> Coming
    ensures { result ≡ coming_at state.now }
{
    match state {
        TypedState::Away => Coming::Other,
        TypedState::Ready(ready) => Coming::Call(ready.step()),
        TypedState::Running(running) => Coming::Instruction {
            section: running.section(),
            place: running.place(),
        },
        TypedState::Asking(_) => Coming::Other,
        TypedState::Ended(_) => Coming::Other,
    }
}

/// The given number of threads before their first calls.
///
/// # Errors
///
/// Out of memory.
pub fn all_ready<'p>(alloc: Global, count: usize) -> Result<Vec<TypedState<'p>>, NoMemory>
    requires { count ≤ 64 }
    ensures { IfOk result (λ states. AreReady count states.items) }
{
    let mut states = Vec::with_capacity(alloc, count)?;
    for thread in 0..count {
        match states.push(TypedState::Ready(Ready::new(thread as u32))) {
            Ok(()) => {}
            Err(_) => unreachable!(),
        }
    }
    Ok(states)
}
