//! The command line of the program, which `clap` parses.
//!
//! - [`words`]: the [`Line`] that the words of a command line mean: a file, and a [`Request`].
//! - [`Request`]: what is requested, by the files that it reads. [`Alone`]: a request that reads a program's file
//!   alone. [`Report`]: what is written of an accepted program. [`Beside`]: a request that reads a program and another
//!   file.
//! - [`Color`], [`Emission`], [`ReplayOptions`], [`OutcomesOptions`], [`RunOptions`], [`ScheduleOptions`]: the options
//!   of requests.
//! - [`DEFAULT_TURNS`], [`DEFAULT_COUNT`], [`DEFAULT_SEED`], [`DEFAULT_LENGTH`]: the defaults of options.
//! - [`is_prefix`]: whether the names of a C text may begin with a word.
//!
//! `specs/Commands.antt` has the commands as `clap`'s definitions see them, `specs/Lines.antt` defines the line of the
//! matches that those definitions give, and `specs/Codes.antt` which words are codes of faults.
#![tactic(auto)]

mod codes;
mod command;
mod line;
mod reading;
mod unasked;

pub use line::{
    Alone, Beside, Color, DEFAULT_COUNT, DEFAULT_LENGTH, DEFAULT_SEED, DEFAULT_TURNS, Emission,
    Line, OutcomesOptions, ReplayOptions, Report, Request, RunOptions, ScheduleOptions,
};
pub use reading::{is_prefix, words};
