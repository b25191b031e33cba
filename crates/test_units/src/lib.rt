//! Tests of `core_lang`, `layout`, `lock_manager` and `interleavings` over compiled programs, and of `driver_words`,
//! `driver` and `source`. They test what no clause says, against values from outside.
//!
//! They are here and not in the crates that they test, since a crate with tests is proved twice.
#![tactic(auto)]

#[cfg(test)]
mod calls_taken;
#[cfg(test)]
mod command_lines;
#[cfg(test)]
mod engine;
#[cfg(test)]
mod layouts;
#[cfg(test)]
mod managers;
#[cfg(test)]
mod refusals;
#[cfg(test)]
mod world_steps;
