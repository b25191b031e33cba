//! Long texts with recurring parts: a [`Rope`] keeps each such part once, and the places where it is inserted.
//!
//! `specs/Working/Ropes.antt` defines the text of a rope and how it grows.
#![tactic(auto)]

mod text;

pub use text::Rope;
