//! Calls of a lock manager.

use crate::manager_calls::Calls;
use core_lang::value::Value;
use lock_manager::manager::Manager;
use locks::lock::Lock;
use lowering::compiled::Program;
use source::memory::NoMemory;
use std::alloc::Global;
use std::test::Fail;

/// The lock of the first class, or of its first object.
const G: Lock = Lock {
    class: 0,
    object: 0,
};

/// A manager of the program's locks.
fn opened<'p>(alloc: Global, program: &'p Program) -> Result<Manager<'p>, NoMemory> {
    let _shown = program.expanded();
    Manager::open(alloc, program.layout(), program.ranks())
}

/// Thread 1 gets what thread 0 wrote, and what it gives up has no effect.
fn hand_over(calls: &mut Calls<'_>) -> Result<(), Fail> {
    calls.begin(0)?;
    calls.ask(0, G)?;
    calls.say_values(0)?;
    calls.begin(1)?;
    calls.ask(1, G)?;
    calls.set(0, 0, 1)?;
    calls.release(0, &[(0, Value::Int(1))])?;
    calls.ask(1, G)?;
    calls.say_values(1)?;
    calls.set(1, 0, 5)?;
    calls.give_up(1)?;
    calls.say_cell(0)?;
    calls.say_lock(G)
}

/// A waiting thread keeps the place of its first ask until the lock is granted.
fn wait_in_line(calls: &mut Calls<'_>) -> Result<(), Fail> {
    calls.begin(0)?;
    calls.ask(0, G)?;
    calls.begin(1)?;
    calls.begin(2)?;
    calls.ask(2, G)?;
    calls.ask(1, G)?;
    calls.ask(2, G)?;
    calls.say_lock(G)?;
    calls.release(0, &[])?;
    calls.ask(1, G)?;
    calls.say_lock(G)?;
    calls.release(1, &[])
}

/// A grant has all cells of its lock, in the order of their numbers.
fn set_one_of_three(calls: &mut Calls<'_>) -> Result<(), Fail> {
    calls.begin(0)?;
    calls.ask(0, G)?;
    calls.set(0, 1, 1)?;
    calls.say_values(0)
}

/// Calls that form a scenario.
#[derive(Clone, Copy)]
pub enum Scenario {
    /// Thread 1 gets what thread 0 wrote, and gives up.
    HandOver,
    /// Threads 2 and 1 wait for what thread 0 holds.
    WaitInLine,
    /// Thread 0 sets one cell of its lock.
    SetOneOfThree,
}

/// The text on the calls of a scenario, made to a manager of the program's locks.
pub fn said_of(alloc: Global, program: &Program, scenario: Scenario) -> Result<String, Fail> {
    let mut calls = Calls::of(alloc, opened(alloc, program)?);
    let made = match scenario {
        Scenario::HandOver => hand_over(&mut calls),
        Scenario::WaitInLine => wait_in_line(&mut calls),
        Scenario::SetOneOfThree => set_one_of_three(&mut calls),
    };
    let said = calls.into_said();
    made?;
    Ok(said)
}
