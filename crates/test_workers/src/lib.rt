//! Tests of `workers` over compiled programs. They test what no clause says, against values from outside: that threads
//! run side by side, that a waiting thread is woken, and that no call of the seats is refused.
//!
//! They are here and not in `workers`, since a crate with tests is proved twice.
#![tactic(auto)]

#[cfg(test)]
mod scripts;
#[cfg(test)]
mod seats;
