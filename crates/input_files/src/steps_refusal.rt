//! The faults of a steps file.

ghost use Rattle.std.specs.Prelude.{◌≡◌};
ghost use Rattle.input_files.specs.declared.steps_refusal.StepsRefusal.TheVariants.{NoMemory};
ghost use Rattle.input_files.specs.Steps.{code_name, code_text};

use source::memory;
use std::alloc::{AllocError, AllocFailed};
use thiserror::Error;

/// The code of a fault, which says what is wrong with an item. It is printed as `S1` to `S3`.
#[derive(Clone, Copy, Debug, PartialEq, Eq)]
pub enum StepsCode {
    /// `S1`: neither a number nor a thread's name, alone or before a `*` and digits, a `!` or a `+`.
    BadItem,
    /// `S2`: no thread has this number.
    NoSuchThread,
    /// `S3`: with this item the file has more than 10,000,000 steps.
    TooManySteps,
}

impl StepsCode {
    /// The code as it is printed, `S1` to `S3`.
    pub fn name(self) -> &'static str
        ensures { result.now ≡ code_name self }
    {
        match self {
            StepsCode::BadItem => "S1",
            StepsCode::NoSuchThread => "S2",
            StepsCode::TooManySteps => "S3",
        }
    }

    /// The message of the code.
    pub fn text(self) -> &'static str
        ensures { result.now ≡ code_text self }
    {
        match self {
            StepsCode::BadItem => "bad item",
            StepsCode::NoSuchThread => "no such thread",
            StepsCode::TooManySteps => "too many steps",
        }
    }
}

/// A faulty item.
#[derive(Clone, Copy, Debug, PartialEq, Eq)]
pub struct StepsFault {
    /// What is wrong with it.
    pub code: StepsCode,
    /// The first byte of the item, from 0.
    pub start: usize,
}

/// The reason why a steps file has no items.
#[derive(Clone, Copy, Debug, PartialEq, Eq, Error)]
pub enum StepsRefusal {
    /// An item is faulty.
    #[error("{} {} at byte {}", .0.code.name(), .0.code.text(), .0.start)]
    Fault(StepsFault),
    /// An allocation failed.
    #[error("no memory")]
    NoMemory,
}

impl From<AllocError> for StepsRefusal {
    ghost from_gives = { λ _ e. e ≡ NoMemory };

    fn from(_e: AllocError) -> StepsRefusal {
        StepsRefusal::NoMemory
    }
}

impl<T: Drop> From<AllocFailed<T>> for StepsRefusal {
    ghost from_gives = { λ _ e. e ≡ NoMemory };

    fn from(_e: AllocFailed<T>) -> StepsRefusal {
        StepsRefusal::NoMemory
    }
}

impl From<memory::NoMemory> for StepsRefusal {
    ghost from_gives = { λ _ e. e ≡ NoMemory };

    fn from(_e: memory::NoMemory) -> StepsRefusal {
        StepsRefusal::NoMemory
    }
}
