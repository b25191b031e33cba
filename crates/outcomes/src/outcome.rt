//! The request for a search, and its result.

use core_lang::value;
use core_lang::value::Value;

/// The cells by which ends are distinguished.
#[derive(Drop)]
pub enum Cells {
    /// All cells.
    Every,
    /// The cells of these numbers, in this order.
    These(Vec<usize>),
}

/// The parts of a state by which ends are distinguished.
#[derive(Drop)]
pub struct Asked {
    /// The cells whose values count.
    pub cells: Cells,
    /// Whether the outcome of each call counts too.
    pub answers: bool,
}

/// A distinct end: the values of the cells and the outcomes of the calls.
#[derive(Drop)]
pub struct FinalState {
    /// The values of the cells by which ends are distinguished.
    pub cells: Vec<Value>,
    /// How each call ended, by its number among the calls of all threads, thread 0's first. Empty, if ends are not
    /// distinguished by it.
    pub answers: Vec<Option<value::Outcome>>,
    /// The number of orders that lead to this end, of those that were run.
    pub count: u64,
    /// One of these orders, as a list of threads.
    pub order: Vec<usize>,
}

/// The result of a search.
#[derive(Drop)]
pub enum Found {
    /// All orders were run.
    All {
        /// The distinct ends of all orders.
        ends: Vec<FinalState>,
        /// The number of configurations that these orders pass through. A configuration is the number of each thread's
        /// calls that are done, the values of the cells, and, if ends are distinguished by them, the outcomes of the
        /// calls.
        configurations: usize,
    },
    /// The program has more orders than the limit. Some of them were run, which stand for all: calls that touch no cell
    /// in common were made in one order only.
    Reduced {
        /// The distinct ends of all orders.
        ends: Vec<FinalState>,
        /// The number of configurations that the orders which were run pass through.
        configurations: usize,
    },
    /// The distinct ends of orders that were drawn, since the program has more orders than the limit.
    Drawn(Vec<FinalState>),
    /// After the calls of an order, the turns don't settle the next call of a thread.
    Unsettled {
        /// The order.
        order: Vec<usize>,
        /// The thread.
        thread: usize,
    },
}
