//! The kinds of runs.

ghost use Rattle.std.specs.Prelude.{◌≡◌, IfOk, map};
ghost use Rattle.report_runs.specs.Working.Kinds.{held_of, call_place};

use core_lang::value::Value;
use history::entries::History;
use source::memory::NoMemory;
use std::alloc::Global;

/// The call of an entry: its thread, and its number in the thread's script.
#[derive(Clone, Copy, Debug, PartialEq, Eq, Hash)]
pub(crate) struct Place {
    pub(crate) thread: u32,
    pub(crate) step: usize,
}

/// The content of a cell, as a value that can be hashed.
#[derive(Clone, Copy, Debug, PartialEq, Eq, Hash)]
pub(crate) enum Held {
    /// A number.
    Number(i64),
    /// A reference.
    Object(Option<u32>),
}

/// The order of a run's calls, and the final contents of its cells.
#[derive(Drop, PartialEq, Eq, Hash)]
pub(crate) struct RunKind {
    pub(crate) order: Vec<Place>,
    pub(crate) end: Vec<Held>,
}

/// The order of the calls of a history.
pub(crate) fn order_of(alloc: Global, history: &History) -> Result<Vec<Place>, NoMemory>
    ensures { IfOk result (λ order. order.items ≡ map call_place history.now.commits) }
{
    let mut order = Vec::with_capacity(alloc, history.len())?;
    for position in 0..history.len() {
        let entry = history.get(position);
        order.push(Place {
            thread: entry.thread(),
            step: entry.step(),
        })?;
    }
    Ok(order)
}

/// The content of a cell with this value.
fn held_of(value: Value) -> Held
    ensures { result ≡ held_of value }
{
    match value {
        Value::Int(number) => Held::Number(number),
        Value::Ref(object) => Held::Object(object),
    }
}

/// The contents of cells with these values.
pub(crate) fn end_of(alloc: Global, values: &[Value]) -> Result<Vec<Held>, NoMemory>
    ensures { IfOk result (λ end. end.items ≡ map held_of values.now) }
{
    let mut end = Vec::with_capacity(alloc, values.len())?;
    for value in values {
        end.push(held_of(*value))?;
    }
    Ok(end)
}
