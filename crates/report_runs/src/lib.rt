//! The texts of `simulate`, `trace`, `run --times` and `outcomes`, with the comparison that an expectation means.
//!
//! - [`simulation_text`]: the text of `simulate`, and the last part of that of `trace`: the finished sections, what each
//!   cell holds, and how each thread stands. [`Trace`]: a line for each reported step of a world's threads, then that text.
//! - [`Seen`]: the text of `run --times`: the numbers of different orders of the calls and of different ends of the cells,
//!   and the first history of each kind of run.
//! - [`Ends`], [`Scope`]: the text of `outcomes`: how cells and, if asked for, calls can end, over which orders.
//!   [`asked_cells`]: the cells that are asked for by names.
//! - [`read_expectation`], [`Expectation`], [`Comparison`], [`ExpectedEnds`]: the text of `outcomes --expect`: a comparison
//!   of two sums of numbers and cells, and the ends that break it. [`BadName`]: a name in it that does not stand for a sum.
//!   [`expectation_laws`]: what that says of every order.
//!
//! `specs/Simulation`, `specs/Trace`, `specs/Runs`, `specs/Outcomes` and `specs/Breaches` define these texts. `specs/Names`
//! defines the cells that a name stands for, `specs/ExpectationTexts`, `specs/ExpectationCells` and `specs/Sums` what an
//! expectation means and when an end meets it. `specs/Working` only says what the code has done; nobody has to believe it.
#![tactic(auto)]

mod bytes;
mod cell_names;
pub mod comparison;
mod ends;
pub mod expectation;
pub mod expectation_laws;
mod expectation_names;
mod expectation_reading;
mod expected_ends;
mod instructions;
mod order_calls;
mod run_kind;
mod runs_told;
mod same_ends;
mod seen;
mod simulation;
mod step_teller;
mod trace;

pub use cell_names::asked_cells;
pub use comparison::Comparison;
pub use ends::{Ends, Scope};
pub use expectation::Expectation;
pub use expectation_names::BadName;
pub use expectation_reading::read_expectation;
pub use expected_ends::ExpectedEnds;
pub use seen::Seen;
pub use simulation::simulation_text;
pub use trace::Trace;
