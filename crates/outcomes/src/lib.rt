//! An explorer of interleavings: it finds how the cells of a program, and if asked its calls, can end over all orders of
//! its calls, with partial-order reduction of calls that touch no cell in common. In an order the calls come one after
//! another, and those of each thread in the order of its script.
//!
//! - [`search::Search::ends`]: finds each end once, with one order that leads to it. It runs all orders, if they are
//!   within the limit of the [`search::Search`], or some that stand for all. Otherwise it draws orders, as many as the
//!   limit.
//! - [`outcome`]: the request for a search, and its result.
//! - [`layer`], [`state`], [`trail`]: the states after a number of calls, each once, and an order that leads to each.
//! - [`groups::groups`]: the threads in groups, such that calls of different groups commute. [`accesses::AccessWalk`],
//!   [`touched::Touched`], [`marks::TouchMarks`]: the accesses of a section, the cells that calls read and write, and the
//!   threads that touch each. [`independence_laws`]: laws of calls by the cells that they touch.
//!
//! `specs/Orders` defines orders, `specs/Ends` the result of a search, `specs/Commuting` calls that commute, and
//! `specs/Footprints` the cells that a call may touch. `specs/Working` only says how the search goes; nobody has to
//! believe it.
//!
//! `specs/Working/Searching` begins with how the search is proved.
#![tactic(auto)]

pub mod accesses;
mod changes;
mod drawing;
pub mod groups;
mod hash;
pub mod independence_laws;
pub mod layer;
pub mod marks;
pub mod outcome;
mod reducing;
pub mod search;
pub mod state;
mod telling;
pub mod touched;
pub mod trail;
