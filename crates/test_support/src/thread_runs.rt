//! Runs of a scene.

ghost use Rattle.std.specs.Prelude.{◌≡◌, ◌≤◌, IfOk};
ghost use Rattle.core_lang.specs.Typing.{HasCells};

use crate::scene::Scene;
use crate::stage::Stage;
use crate::threads_told::{say_agreement, say_done, say_history, say_refusal};
use crate::turns::{Answered, Turns, all_at_once, one_by_one, take_turn};
use compiler::compile;
use lowering::compiled::Program;
use std::alloc::Global;
use std::marker::Brand;
use std::sync::Wait;
use std::test::Fail;
use std::thread::Threads;
use workers::closed::{Closed, Strange};
use workers::naming::Naming;
use workers::row::Row;
use workers::seat::Seat;
use workers::shared::Shared;
use workers::threads::run_threads;

/// The text on a run in which the scene's seats call one after another, and the first `closing` of them close.
pub fn in_turn<R: Wait>(
    rt: &R,
    alloc: Global,
    scene: &Scene<'_>,
    closing: usize,
) -> Result<String, Fail> {
    let program = compile(alloc, scene.text.as_bytes())?;
    let row = Row::new(alloc)?;
    said_in_turn::<Brand, R>(rt, alloc, &program, &row, scene, closing)
}

/// The text on a run in which the scene's seats call from a thread each.
pub fn side_by_side<R: Threads + Wait + Sync>(
    rt: &R,
    alloc: Global,
    scene: &Scene<'_>,
) -> Result<String, Fail> {
    let program = compile(alloc, scene.text.as_bytes())?;
    let row = Row::new(alloc)?;
    said_side_by_side::<Brand, R>(rt, alloc, &program, &row, scene)
}

/// The text on a run in which two seats of the scene call one after another, with whether what one has seen is a prefix
/// of what the other has, both ways, before the calls and after.
pub fn in_agreement<R: Wait>(rt: &R, alloc: Global, scene: &Scene<'_>) -> Result<String, Fail> {
    let program = compile(alloc, scene.text.as_bytes())?;
    let row = Row::new(alloc)?;
    said_in_agreement::<Brand, R>(rt, alloc, &program, &row, scene)
}

/// The text on two runs that are opened over one row, with a seat each; the first seat calls, then the second: the
/// first one's answer and end, then the second one's.
pub fn over_one_row<R: Wait>(rt: &R, alloc: Global, scene: &Scene<'_>) -> Result<String, Fail> {
    let program = compile(alloc, scene.text.as_bytes())?;
    let row = Row::new(alloc)?;
    said_over_one_row::<Brand, R>(rt, alloc, &program, &row, scene)
}

/// The text on a run in which a thread runs each script of the scene's text.
pub fn by_threads<R: Threads + Wait + Sync>(
    rt: &R,
    alloc: Global,
    scene: &Scene<'_>,
) -> Result<String, Fail> {
    let program = compile(alloc, scene.text.as_bytes())?;
    said_by_threads(rt, alloc, &program, scene)
}

// The text of `in_turn` for the program, in the row that `J` names.
fn said_in_turn<J: Naming, R: Wait>(
    rt: &R,
    alloc: Global,
    program: &Program,
    row: &Row,
    scene: &Scene<'_>,
    closing: usize,
) -> Result<String, Fail>
    requires program { program.now ≡ J.plan }
    requires row { row.now ≡ J.book }
{
    let count = seats_of(scene)?;
    let (shared, seats): (Shared<'_, '_, J>, Vec<Seat<'_, '_, J>>) = Shared::open(
        row, alloc, program, count,
    )?;
    let stage = Stage::new(scene);
    let turns = one_by_one(rt, alloc, &shared, seats, &stage)?;
    with_patience(said_of(alloc, program, shared, turns, closing), &stage)
}

// The text of `side_by_side` for the program, in the row that `J` names.
fn said_side_by_side<J: Naming + Send + Sync, R: Threads + Wait + Sync>(
    rt: &R,
    alloc: Global,
    program: &Program,
    row: &Row,
    scene: &Scene<'_>,
) -> Result<String, Fail>
    requires program { program.now ≡ J.plan }
    requires row { row.now ≡ J.book }
{
    let count = seats_of(scene)?;
    let (shared, seats): (Shared<'_, '_, J>, Vec<Seat<'_, '_, J>>) = Shared::open(
        row, alloc, program, count,
    )?;
    let stage = Stage::new(scene);
    let turns = all_at_once(rt, alloc, &shared, seats, &stage)?;
    with_patience(
        said_of(alloc, program, shared, turns, scene.calls.len()),
        &stage,
    )
}

// The text of `in_agreement` for the program, in the row that `J` names.
fn said_in_agreement<J: Naming, R: Wait>(
    rt: &R,
    alloc: Global,
    program: &Program,
    row: &Row,
    scene: &Scene<'_>,
) -> Result<String, Fail>
    requires program { program.now ≡ J.plan }
    requires row { row.now ≡ J.book }
{
    let (shared, seats): (Shared<'_, '_, J>, Vec<Seat<'_, '_, J>>) = Shared::open(
        row, alloc, program, 2,
    )?;
    let Some((mut one, mut other)) = two_of(seats) else {
        return Err(Fail::new("there aren't two seats"));
    };
    let stage = Stage::new(scene);
    let said = agreement(rt, alloc, &shared, &mut one, &mut other, &stage);
    with_patience(said, &stage)
}

// The text of `over_one_row` for the program, in the row that `J` names.
fn said_over_one_row<J: Naming, R: Wait>(
    rt: &R,
    alloc: Global,
    program: &Program,
    row: &Row,
    scene: &Scene<'_>,
) -> Result<String, Fail>
    requires program { program.now ≡ J.plan }
    requires row { row.now ≡ J.book }
{
    let (first, seats): (Shared<'_, '_, J>, Vec<Seat<'_, '_, J>>) = Shared::open(
        row, alloc, program, 1,
    )?;
    let (second, others): (Shared<'_, '_, J>, Vec<Seat<'_, '_, J>>) = Shared::open(
        row, alloc, program, 1,
    )?;
    let stage = Stage::new(scene);
    let turns = one_by_one(rt, alloc, &first, seats, &stage)?;
    let Turns { seats, answers } = one_by_one(rt, alloc, &second, others, &stage)?;
    let mut said = said_of(alloc, program, first, turns, 1)?;
    for answer in answers {
        say_refusal(&mut said, 0, answer)?;
    }
    match second.close(seats) {
        Ok(closed) => say_history(&mut said, program, &closed)?,
        Err(Strange) => said.push_str("strange\n")?,
    }
    with_patience(Ok(said), &stage)
}

// The text of `by_threads` for a program.
fn said_by_threads<R: Threads + Wait + Sync>(
    rt: &R,
    alloc: Global,
    program: &Program,
    scene: &Scene<'_>,
) -> Result<String, Fail> {
    let stage = Stage::new(scene);
    let closed = run_threads(rt, alloc, program, &stage)?;
    with_patience(history_of(alloc, program, &closed), &stage)
}

// The answers of two seats that call one after another, and how they agree before that and after.
fn agreement<'p, 'r, J: Naming, R: Wait>(
    rt: &R,
    alloc: Global,
    shared: &Shared<'p, 'r, J>,
    one: &mut Seat<'p, 'r, J>,
    other: &mut Seat<'p, 'r, J>,
    stage: &Stage<'_>,
) -> Result<String, Fail> {
    let mut said = String::new(alloc);
    say_agreement(&mut said, one, other)?;
    say_done(&mut said, 0, take_turn(rt, shared, one, stage))?;
    say_done(&mut said, 1, take_turn(rt, shared, other, stage))?;
    say_agreement(&mut said, one, other)?;
    Ok(said)
}

// The two seats.
fn two_of<'p, 'r, J: Naming>(
    mut seats: Vec<Seat<'p, 'r, J>>,
) -> Option<(Seat<'p, 'r, J>, Seat<'p, 'r, J>)> {
    let other = seats.pop()?;
    let one = seats.pop()?;
    Some((one, other))
}

// The number of seats of a scene.
fn seats_of(scene: &Scene<'_>) -> Result<u32, Fail>
    ensures { IfOk result (λ count. count ≤ 64) }
{
    let count = scene.calls.len();
    if count > 64 {
        return Err(Fail::new("there are too many seats"));
    }
    Ok(count as u32)
}

// The text on turns, and on the end where the first `closing` seats close.
fn said_of<'p, 'r, J: Naming>(
    alloc: Global,
    program: &Program,
    shared: Shared<'p, 'r, J>,
    turns: Turns<'p, 'r, J>,
    closing: usize,
) -> Result<String, Fail>
    requires { program.now ≡ J.plan }
{
    let mut said = String::new(alloc);
    let Turns { mut seats, answers } = turns;
    let answered = say_answers(&mut said, answers);
    seats.truncate(closing);
    let closed = shared.close(seats);
    // Only here, so that less is dropped where memory is refused.
    answered?;
    match closed {
        Ok(closed) => say_history(&mut said, program, &closed)?,
        Err(Strange) => said.push_str("strange\n")?,
    }
    Ok(said)
}

fn say_answers(said: &mut String, answers: Vec<Answered>) -> Result<(), Fail> {
    for (thread, answer) in answers.into_iter().enumerate() {
        say_done(said, thread, answer)?;
    }
    Ok(())
}

// The text on a history.
fn history_of(alloc: Global, program: &Program, closed: &Closed<'_>) -> Result<String, Fail>
    requires { HasCells program.now.program closed.now.values }
{
    let mut said = String::new(alloc);
    say_history(&mut said, program, closed)?;
    Ok(said)
}

// The text `said`, if there is one, and whether a thread waited in vain.
fn with_patience(said: Result<String, Fail>, stage: &Stage<'_>) -> Result<String, Fail> {
    let mut said = said?;
    if stage.gave_up() {
        said.push_str("a thread waited in vain\n")?;
    }
    Ok(said)
}
