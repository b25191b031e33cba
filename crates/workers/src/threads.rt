//! The scripts of a program, each run by a thread of its own.

ghost use Rattle.workers.specs.declared.seat.CallRefusal.TheVariants as refusal;
ghost use Rattle.std.specs.Prelude.{◌≡◌, ◌<◌, ◌↔◌, ◌⊎◌, ℕ, true, Some, Err, IsOk, IfOk, IfSome, OnOk, MatchOption, length, map};
ghost use denote.Param.Send.{IsSend, IsSync};
ghost use Rattle.lowering.specs.contracts.compiled.Program as program;
ghost use Rattle.worlds.specs.Claims.{AreOfScripts};
ghost use Rattle.workers.specs.Answers.{HasScript, IsHistoryOf, RunsAsAccepted, call_in, script_at};
ghost use Rattle.workers.specs.Working.Within.{AreInOrder, HasCalls, NoCall, IsCall};

use crate::closed::{Closed, Strange};
use crate::gate::Gate;
use crate::naming::Naming;
use crate::row::Row;
use crate::seat::{CallRefusal, Seat};
use crate::shared::Shared;
use core_lang::typed::Call;
use lowering::compiled::Program;
use source::memory::NoMemory;
use std::alloc::Global;
use std::marker::Brand;
use std::sync::Wait;
use std::thread;
use std::thread::Threads;

/// Runs each script of the program in a thread of its own, to its end. The gate observes the progress of each call. The
/// history is legal and its entries are true. Each thread's entries are the calls of its script, in order and each
/// once, begun in turn. The history has no other entries.
///
/// # Errors
///
/// A thread that is refused memory, or can't be started, stops, and the others go on. The error is then `NoMemory`. It
/// is `Strange` if a thread's call was refused as strange, whatever else was refused: [`joined`].
pub fn run_threads<'p, R: Threads + Wait + Sync, G: Gate>(
    rt: &R,
    alloc: Global,
    program: &'p Program,
    gate: &G,
) -> Result<Closed<'p>, CallRefusal>
    ensures history { IfOk result (λ c. IsHistoryOf program.now c.history c.values) }
    ensures accepted { IfOk result (λ c. RunsAsAccepted program.now c.history c.values) }
    ensures scripts { let count = length program.now.program.threads.items in
        IfOk result (λ c. (t : ℕ) → t < count → HasScript program.now c.history t) }
    ensures nobody_else { IfOk result (λ c. AreOfScripts program.now c.history) }
{
    let row = Row::new(alloc)?;
    run_named::<Brand, R, G>(rt, alloc, program, &row, gate)
}

// Runs each script of the program that `J` names, into the row that `J` names.
fn run_named<'p, 'r, J: Naming + Send + Sync, R: Threads + Wait + Sync, G: Gate>(
    rt: &R,
    alloc: Global,
    program: &'p Program,
    row: &'r Row,
    gate: &G,
) -> Result<Closed<'p>, CallRefusal>
    requires program { program.now ≡ J.plan }
    requires row { row.now ≡ J.book }
    ensures history { IfOk result (λ c. IsHistoryOf J.plan c.history c.values) }
    ensures accepted { IfOk result (λ c. RunsAsAccepted J.plan c.history c.values) }
    ensures scripts { let count = length program.now.program.threads.items in
        IfOk result (λ c. (t : ℕ) → t < count → HasScript J.plan c.history t) }
    ensures nobody_else { IfOk result (λ c. AreOfScripts J.plan c.history) }
{
    let _shown = program.expanded();
    let count = program.threads();
    if count > 64 {
        return Err(CallRefusal::Strange);
    }
    let (shared, seats): (Shared<'p, 'r, J>, Vec<Seat<'p, 'r, J>>) = Shared::open(
        row, alloc, program, count,
    )?;
    let places = places_of(alloc, seats)?;
    let places = run_all(rt, alloc, &shared, places, gate)?;
    let Some(seats) = in_order(alloc, places, count)? else {
        return Err(CallRefusal::Strange);
    };
    match shared.close(seats) {
        Ok(closed) => Ok(closed),
        Err(Strange) => Err(CallRefusal::Strange),
    }
}

/// A seat, and whether its thread's script has run: if so, its answers are to exactly the calls of the script, in
/// order.
#[derive(Drop)]
pub(crate) struct ScriptSeat<'p, 'r, J: Naming> {
    seat: Seat<'p, 'r, J>,
    ran: bool,
    ghost calls: { ran ≡ true → Some (map call_in seat.answers) ≡ script_at J.plan seat.thread },
}

// The seat before its thread's script has run.
fn place_of<'p, 'r, J: Naming>(seat: Seat<'p, 'r, J>) -> ScriptSeat<'p, 'r, J> {
    ScriptSeat { seat, ran: false }
}

// The seats before any script has run.
fn places_of<'p, 'r, J: Naming>(
    alloc: Global,
    seats: Vec<Seat<'p, 'r, J>>,
) -> Result<Vec<ScriptSeat<'p, 'r, J>>, NoMemory> {
    let mut places = Vec::with_capacity(alloc, seats.len())?;
    for seat in seats {
        places.push(place_of(seat))?;
    }
    Ok(places)
}

// Runs the script of each seat's thread in a thread of its own. Errors: the threads' refusals, joined.
fn run_all<'p, 'r, J: Naming + Send + Sync, R: Threads + Wait + Sync, G: Gate>(
    rt: &R,
    alloc: Global,
    shared: &Shared<'p, 'r, J>,
    places: Vec<ScriptSeat<'p, 'r, J>>,
    gate: &G,
) -> Result<Vec<ScriptSeat<'p, 'r, J>>, CallRefusal> {
    lowering::laws::programs_are_shared();
    let mut places = places;
    let lent = &mut places;
    let ran = thread::scope(
        thread::scope_env(),
        rt,
        move |scope| -> Result<(), CallRefusal>
            requires { IsSync R.row × IsSync G.row × IsSync J.row × IsSend J.row × IsSync program.the_row }
        {
            // (the room for all of them, before the first thread starts)
            let Ok(mut handles) = Vec::with_capacity(alloc, lent.len()) else {
                return Err(CallRefusal::NoMemory);
            };
            let mut told = Ok(());
            let each = lent.iter_mut();
            for place in each {
                let started = scope.spawn(move || -> Result<(), CallRefusal> {
                    run_place(rt, shared, place, gate)
                });
                match started {
                    Ok(handle) => {
                        if handles.push(handle).is_err() {
                            told = joined(told, Err(CallRefusal::NoMemory));
                        }
                    }
                    Err(_) => told = joined(told, Err(CallRefusal::NoMemory)),
                }
            }
            for handle in handles {
                told = joined(told, handle.join(rt));
            }
            told
        },
    );
    match ran {
        Ok(()) => Ok(places),
        Err(refusal) => Err(refusal),
    }
}

/// The joint result of two threads: `Strange` where one is, whatever the other is; otherwise `NoMemory` where one is.
pub fn joined(
    one: Result<(), CallRefusal>,
    other: Result<(), CallRefusal>,
) -> Result<(), CallRefusal>
    ensures strange { (result ≡ Err refusal.Strange) ↔ ((one ≡ Err refusal.Strange) ⊎ (other ≡ Err refusal.Strange)) }
    ensures ok { IsOk result ↔ (IsOk one × IsOk other) }
{
    match one {
        Ok(()) => other,
        Err(CallRefusal::Strange) => Err(CallRefusal::Strange),
        Err(CallRefusal::NoMemory) => match other {
            Ok(()) => Err(CallRefusal::NoMemory),
            Err(refused) => Err(refused),
        },
    }
}

// The call of `thread` with the number `step`, if there is one.
fn call_at(program: &Program, thread: u32, step: usize) -> Option<&Call>
    ensures { MatchOption result (NoCall program.now thread step) (λ call. IsCall program.now thread step call.now) }
{
    let thread = program.expanded().threads.get(thread as usize)?;
    thread.calls.get(step)
}

// The number of calls of `thread`, if the thread exists.
fn calls_of(program: &Program, thread: u32) -> Option<usize>
    ensures { IfSome result (λ n. HasCalls program.now thread n) }
{
    let thread = program.expanded().threads.get(thread as usize)?;
    Some(thread.calls.len())
}

// Runs the script of a seat's thread, and marks the seat.
fn run_place<'p, 'r, J: Naming, R: Wait, G: Gate>(
    rt: &R,
    shared: &Shared<'p, 'r, J>,
    place: &mut ScriptSeat<'p, 'r, J>,
    gate: &G,
) -> Result<(), CallRefusal> {
    place.ran = false;
    run_script(rt, shared, &mut place.seat, gate)?;
    place.ran = true;
    Ok(())
}

// Runs the script of a seat's thread.
fn run_script<'p, 'r, J: Naming, R: Wait, G: Gate>(
    rt: &R,
    shared: &Shared<'p, 'r, J>,
    seat: &mut Seat<'p, 'r, J>,
    gate: &G,
) -> Result<(), CallRefusal>
    ensures { OnOk result (Some (map call_in seat.new.answers) ≡ script_at J.plan seat.new.thread) }
{
    if !seat.is_new() {
        return Err(CallRefusal::Strange);
    }
    let program = shared.program();
    let thread = seat.thread();
    let Some(count) = calls_of(program, thread) else {
        return Err(CallRefusal::Strange);
    };
    for step in 0..count {
        let Some(call) = call_at(program, thread, step) else {
            return Err(CallRefusal::Strange);
        };
        shared.call(rt, seat, call.section, &call.arguments, gate)?;
    }
    Ok(())
}

// The seats, if all scripts have run and the seats are those of all threads, in order.
fn in_order<'p, 'r, J: Naming>(
    alloc: Global,
    places: Vec<ScriptSeat<'p, 'r, J>>,
    count: u32,
) -> Result<Option<Vec<Seat<'p, 'r, J>>>, NoMemory>
    ensures { IfOk result (λ r. IfSome r (λ seats. AreInOrder J.plan count seats.items)) }
{
    let mut seats = Vec::new(alloc);
    for place in places {
        let ScriptSeat { seat, ran } = place;
        if !ran {
            return Ok(None);
        }
        if seat.thread() as usize != seats.len() {
            return Ok(None);
        }
        seats.push(seat)?;
    }
    if seats.len() != count as usize {
        return Ok(None);
    }
    Ok(Some(seats))
}
