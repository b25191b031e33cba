//! Expectations for the ends.

ghost use Rattle.std.specs.Prelude.{◌≡◌};
ghost use Rattle.report_runs.specs.declared.expectation.ExpectationRefusal.TheVariants.{NoMemory};

use std::alloc::{AllocError, AllocFailed};
use thiserror::Error;

/// A relation between two sums.
#[derive(Clone, Copy, Debug, PartialEq, Eq)]
pub enum Relation {
    /// `==`
    Equal,
    /// `!=`
    NotEqual,
    /// `<`
    Less,
    /// `<=`
    LessOrEqual,
    /// `>`
    Greater,
    /// `>=`
    GreaterOrEqual,
}

/// Whether an item of a sum is added or subtracted.
#[derive(Clone, Copy, Debug, PartialEq, Eq)]
pub enum Sign {
    /// It is added.
    Plus,
    /// It is subtracted.
    Minus,
}

/// An item of a sum.
#[derive(Clone, Copy, Debug, PartialEq, Eq)]
pub enum Item<'t> {
    /// A number, from 0 to 9223372036854775807.
    Number(i64),
    /// The name of a cell, or of several cells, whose sum it stands for.
    Name(&'t str),
}

/// An item of a sum, with its sign.
#[derive(Clone, Copy, Debug, PartialEq, Eq)]
pub struct Term<'t> {
    /// Whether the item is added or subtracted.
    pub sign: Sign,
    /// The item.
    pub item: Item<'t>,
}

/// The expectation for each end: a comparison of two sums.
#[derive(Drop)]
pub struct Expectation<'t> {
    /// The sum before the relation.
    pub left: Vec<Term<'t>>,
    /// The relation that has to hold between the sums.
    pub relation: Relation,
    /// The sum after the relation.
    pub right: Vec<Term<'t>>,
}

/// A text that is not a comparison of two sums.
#[derive(Clone, Copy, Debug, PartialEq, Eq)]
pub struct BadExpectation {
    /// The byte up to which the text could be read, from 0; at most the length of the text.
    pub start: usize,
}

/// Why a text does not give an expectation.
#[derive(Clone, Copy, Debug, PartialEq, Eq, Error)]
pub enum ExpectationRefusal {
    /// The text is not a comparison.
    #[error("no comparison, at byte {}", .0.start)]
    Bad(BadExpectation),
    /// A growth was refused.
    #[error("no memory")]
    NoMemory,
}

impl From<AllocError> for ExpectationRefusal {
    ghost from_gives = { λ _ e. e ≡ NoMemory };

    fn from(_e: AllocError) -> ExpectationRefusal {
        ExpectationRefusal::NoMemory
    }
}

impl<T: Drop> From<AllocFailed<T>> for ExpectationRefusal {
    ghost from_gives = { λ _ e. e ≡ NoMemory };

    fn from(_e: AllocFailed<T>) -> ExpectationRefusal {
        ExpectationRefusal::NoMemory
    }
}
