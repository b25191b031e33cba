//! Seats that call, each once.

ghost use denote.Param.Send.{IsSend, IsSync};
ghost use Rattle.lowering.specs.contracts.compiled.Program as program;

use crate::scene::Mark;
use crate::stage::Stage;
use core_lang::calls::can_call;
use source::memory::NoMemory;
use std::alloc::Global;
use std::sync::Wait;
use std::thread;
use std::thread::Threads;
use workers::naming::Naming;
use workers::seat::{CallRefusal, Done, Seat};
use workers::shared::Shared;

/// The answer to a call.
pub type Answered = Result<Done, CallRefusal>;

/// Seats that have called, and their answers in the same order.
#[derive(Drop)]
pub struct Turns<'p, 'r, J: Naming> {
    pub seats: Vec<Seat<'p, 'r, J>>,
    pub answers: Vec<Answered>,
}

/// Makes the calls of the seats one after another.
pub fn one_by_one<'p, 'r, J: Naming, R: Wait>(
    rt: &R,
    alloc: Global,
    shared: &Shared<'p, 'r, J>,
    seats: Vec<Seat<'p, 'r, J>>,
    stage: &Stage<'_>,
) -> Result<Turns<'p, 'r, J>, NoMemory> {
    let mut after = Vec::new(alloc);
    let mut answers = Vec::new(alloc);
    for seat in seats {
        let mut seat = seat;
        answers.push(take_turn(rt, shared, &mut seat, stage))?;
        after.push(seat)?;
    }
    Ok(Turns {
        seats: after,
        answers,
    })
}

/// Makes the calls of the seats from a thread each.
pub fn all_at_once<'p, 'r, J: Naming + Send + Sync, R: Threads + Wait + Sync>(
    rt: &R,
    alloc: Global,
    shared: &Shared<'p, 'r, J>,
    seats: Vec<Seat<'p, 'r, J>>,
    stage: &Stage<'_>,
) -> Result<Turns<'p, 'r, J>, NoMemory> {
    lowering::laws::programs_are_shared();
    let mut seats = seats;
    let lent = &mut seats;
    let answers = thread::scope(
        thread::scope_env(),
        rt,
        move |scope| -> Result<Vec<Answered>, NoMemory>
            requires { IsSync R.row × IsSync J.row × IsSend J.row × IsSync program.the_row }
        {
            let mut handles = Vec::new(alloc);
            let mut answers = Vec::new(alloc);
            let each = lent.iter_mut();
            for seat in each {
                let started = scope.spawn(move || -> Answered {
                    take_turn(rt, shared, seat, stage)
                });
                let Ok(handle) = started else {
                    return Err(NoMemory);
                };
                handles.push(handle)?;
            }
            for handle in handles {
                answers.push(handle.join(rt))?;
            }
            Ok(answers)
        },
    );
    match answers {
        Ok(answers) => Ok(Turns { seats, answers }),
        Err(NoMemory) => Err(NoMemory),
    }
}

/// Makes the call of a seat.
pub fn take_turn<'p, 'r, J: Naming, R: Wait>(
    rt: &R,
    shared: &Shared<'p, 'r, J>,
    seat: &mut Seat<'p, 'r, J>,
    stage: &Stage<'_>,
) -> Answered {
    let thread = seat.thread();
    stage.come(thread, Mark::Ready);
    let answer = match call(rt, shared, seat, stage) {
        // A refused growth changes nothing: the call may be made again (`tests/refused_memory.sh`).
        Err(CallRefusal::NoMemory) => call(rt, shared, seat, stage),
        answer => answer,
    };
    stage.come(thread, Mark::Over);
    answer
}

fn call<'p, 'r, J: Naming, R: Wait>(
    rt: &R,
    shared: &Shared<'p, 'r, J>,
    seat: &mut Seat<'p, 'r, J>,
    stage: &Stage<'_>,
) -> Answered {
    let Some(call) = stage.call_of(seat.thread()) else {
        return Err(CallRefusal::Strange);
    };
    if !can_call(shared.program().expanded(), call.section, call.arguments) {
        return Err(CallRefusal::Strange);
    }
    shared.call(rt, seat, call.section, call.arguments, stage)
}
