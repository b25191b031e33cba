//! The prints of a section.

ghost use Rattle.std.specs.Prelude.{◌≡◌, ◌≤◌, [], length, IfOk};
ghost use Rattle.runner_machine.specs.Working.Prints.{IsPrinted};

use core_lang::value::{Failure, Trap, Value};
use source::limits::PRINT_LIMIT;
use source::memory::NoMemory;
use std::alloc::Global;
use std::marker::Model;

/// The numbers that a section has printed, with room for the most that it may print.
#[derive(Drop)]
pub struct Prints {
    numbers: Vec<i64>,
}

impl Model for Prints {
    ghost use Rattle.std.specs.Prelude.{ℤ, List, ◌≤◌, vec_len, vec_capacity};

    ghost Value = { List ℤ };

    ghost view = { λ p. p.numbers.items };

    ghost invariant = { λ p. (vec_len p.numbers ≤ 256) × (256 ≤ vec_capacity p.numbers) };
}

impl Prints {
    /// No numbers, with room for all.
    ///
    /// # Errors
    ///
    /// Out of memory.
    pub fn new(alloc: Global) -> Result<Prints, NoMemory>
        ensures { IfOk result (λ prints. prints ≡ []) }
    {
        let mut numbers = Vec::new(alloc);
        numbers.reserve(PRINT_LIMIT)?;
        Ok(Prints { numbers })
    }

    /// Removes the numbers.
    pub fn clear(&mut self)
        ensures { self.new ≡ [] }
    {
        self.numbers.clear();
    }

    /// Appends a printed number; at most 256 can be printed.
    ///
    /// # Errors
    ///
    /// `Wrong` for a value that is not a number, and a trap for the 257th number. The numbers are then unchanged.
    #[inline]
    pub fn print(&mut self, value: Value) -> Result<(), Failure>
        ensures { IsPrinted self.old value result self.new }
    {
        let Value::Int(number) = value else {
            return Err(Failure::Wrong);
        };
        if self.numbers.len() < PRINT_LIMIT {
            self.numbers.push(number).unwrap();
            Ok(())
        } else {
            Err(Failure::Trap(Trap::TooManyPrints))
        }
    }

    /// The numbers, the first one first.
    pub fn numbers(&self) -> &[i64]
        ensures items { result.now ≡ self.now }
        ensures few { length result.now ≤ 256 }
    {
        self.numbers.as_slice()
    }

    /// A law: the numbers don't exceed the most that may be printed.
    pub fn keeps_its_rules(&self)
        ensures { length self.now ≤ 256 }
    {
        let _ = &self.numbers;
    }
}
