//! Notes on an unexpected token (`E03`): advice on what is written there, and the tokens that could be there instead.
//!
//! - [`token_notes`]: the notes.
//! - [`foreign_rows::FOREIGN_ROWS`], [`rows::USUAL_ROWS`]: the table of advice: which tokens lead to which advice, and
//!   where. The first row that fits is reported.
//! - [`pattern::Pattern`], [`area::Area`]: what a row requires of a token, and of the place. [`view::View`]: the tokens
//!   around a place; `fitting` finds the row. [`advice::Advice`]: the advice, in words.
//! - [`candidate::Candidate`]: the kinds of tokens that are tried.
//! - [`trial`]: finds which of these can come, by parsing the tokens before the place with each of them after.
//!
//! `specs/Advice.antt` has the table row by row and defines which row is reported, `specs/Patterns.antt` what fits, and
//! `specs/Around.antt` which signs are open. `specs/Expected.antt` defines when a token could come, and the words of a
//! note, and `specs/Told.antt` which notes are given.
#![tactic(auto)]

pub mod advice;
pub mod area;
pub mod candidate;
pub mod fitting;
pub mod foreign_rows;
mod notes;
pub mod pattern;
pub mod rows;
pub mod trial;
pub mod view;

pub use notes::token_notes;
