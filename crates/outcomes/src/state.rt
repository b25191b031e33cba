//! The states between the calls of a program.

use core_lang::value;
use core_lang::value::Value;

/// A cell whose value differs from its opening value.
#[derive(Clone, Copy, PartialEq, Eq)]
pub struct Change {
    /// The cell's number.
    pub cell: usize,
    /// Its value.
    pub value: Value,
}

/// A state between calls: the number of each thread's calls that are done, the values of the cells, and how the calls
/// ended.
#[derive(Drop)]
pub struct State {
    /// The number of each thread's calls that are done.
    pub done: Vec<usize>,
    /// The cells whose values differ from the opening values, in order.
    pub changes: Vec<Change>,
    /// How the calls ended that are done, by their numbers; empty, if that isn't asked for.
    pub answers: Vec<Option<value::Outcome>>,
    /// The number of orders that lead here.
    pub orders: u64,
    /// The number of one of them.
    pub first: usize,
}
