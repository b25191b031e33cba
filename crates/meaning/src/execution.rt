//! A section that is being run.

ghost use Rattle.std.specs.Prelude.{◌≡◌, Ok};
ghost use Rattle.core_lang.specs.Meaning.{values_of, stored, written, printed, received};
ghost use Rattle.meaning.specs.Working.Halts.{Follows, Concludes, Gives};
ghost use Rattle.meaning.specs.Working.Execution.{state_of, assigned, run_from, Keeps};
ghost use Rattle.meaning.specs.Working.Within.{effect_within, sequence_within, while_within, called, helped_within, run_within};

use crate::draft::Draft;
use crate::evaluate::{evaluate, is_true};
use core_lang::access::{cell_of_element, cell_of_field, follow, non_null};
use core_lang::opening::with_defaults;
use core_lang::shape::Shape;
use core_lang::tree::{Action, Condition, Expr, Section, Stmt};
use core_lang::value::{Failure, Outcome, Trap, Value};
use source::limits;
use source::limits::PRINT_LIMIT;
use std::alloc::AllocError;
use std::mem;

// The greatest depth of a section's calls of helpers.
const DEPTH_LIMIT: u32 = limits::DEPTH_LIMIT as u32;

/// Why a statement does not lead on.
#[derive(Drop)]
pub enum Halt {
    /// The section traps.
    Trap(Trap),
    /// A loop would make more turns than it may.
    Beyond,
    /// The tree is not well typed.
    Wrong,
    /// An allocation failed.
    NoMemory,
}

impl From<Failure> for Halt {
    ghost use Rattle.meaning.specs.Working.Halts.{halt_of};

    ghost from_gives = { λ failure halt. halt ≡ halt_of failure };

    fn from(failure: Failure) -> Halt {
        match failure {
            Failure::Trap(trap) => Halt::Trap(trap),
            Failure::Wrong => Halt::Wrong,
        }
    }
}

impl From<AllocError> for Halt {
    ghost use Rattle.meaning.specs.declared.execution.Halt.TheVariants.{NoMemory};

    ghost from_gives = { λ _ halt. halt ≡ NoMemory };

    fn from(_error: AllocError) -> Halt {
        Halt::NoMemory
    }
}

// The limits of a run.
#[derive(Clone, Copy)]
struct Bounds {
    // The most turns of each execution of a loop.
    turns: u64,
    // The greatest depth of calls of helpers from here.
    depth: u32,
}

/// The locals of a section, the heap with its writes, and what the section has printed.
#[derive(Drop)]
pub struct Execution {
    /// The values of the locals, by number.
    pub locals: Vec<Value>,
    /// The heap.
    pub draft: Draft,
    /// The printed numbers.
    pub prints: Vec<i64>,
}

impl Execution {
    #[inline(always)]
    fn store(&mut self, local: usize, value: Value) -> Result<(), Halt>
        ensures follows { Follows result (state_of self.new) (stored local value (state_of self.old)) }
        ensures keeps { Keeps self.old self.new }
    {
        if local >= self.locals.len() {
            return Err(Halt::Wrong);
        }
        self.locals[local] = value;
        Ok(())
    }

    #[inline(always)]
    fn write(&mut self, cell: usize, value: Value) -> Result<(), Halt>
        ensures follows { Follows result (state_of self.new) (written cell value (state_of self.old)) }
        ensures keeps { Keeps self.old self.new }
    {
        if cell >= self.draft.cells().len() {
            return Err(Halt::Wrong);
        }
        self.draft.write(cell, value)?;
        Ok(())
    }

    fn print(&mut self, value: Value) -> Result<(), Halt>
        ensures follows { Follows result (state_of self.new) (printed value (state_of self.old)) }
        ensures keeps { Keeps self.old self.new }
    {
        let Value::Int(n) = value else {
            return Err(Halt::Wrong);
        };
        if self.prints.len() >= PRINT_LIMIT {
            return Err(Halt::Trap(Trap::TooManyPrints));
        }
        match self.prints.push(n) {
            Ok(()) => Ok(()),
            Err(_) => Err(Halt::NoMemory),
        }
    }

    // Assigns a value to a local.
    #[inline(never)]
    fn set(&mut self, local: usize, value: &Expr, shape: &Shape) -> Result<(), Halt>
        ensures follows { Follows result (state_of self.new) (assigned local value.now shape.now (state_of self.old)) }
        ensures keeps { Keeps self.old self.new }
    {
        let v = evaluate(value, shape, &self.locals, self.draft.cells())?;
        self.store(local, v)
    }

    #[cycle(run)]
    fn run(&mut self, action: &Action, shape: &Shape, bounds: &Bounds) -> Result<(), Halt>
        ensures follows { Follows result (state_of self.new)
            (effect_within action.now shape.now bounds.now (state_of self.old)) }
        ensures keeps { Keeps self.old self.new }
    {
        match action {
            Action::Bind { local, value } => self.set(*local, value, shape),
            Action::SetLocal { local, value } => self.set(*local, value, shape),
            Action::SetGlobal { cell, value } => {
                let v = evaluate(value, shape, &self.locals, self.draft.cells())?;
                self.write(*cell as usize, v)
            }
            Action::SetElement {
                array,
                index,
                value,
            } => {
                let index = evaluate(index, shape, &self.locals, self.draft.cells())?;
                let cell = cell_of_element(shape, *array, index)?;
                let v = evaluate(value, shape, &self.locals, self.draft.cells())?;
                self.write(cell, v)
            }
            Action::SetField {
                base,
                field,
                value,
                ..
            } => {
                let base = non_null(follow(base, shape, &self.locals, self.draft.cells())?)?;
                let v = evaluate(value, shape, &self.locals, self.draft.cells())?;
                let cell = cell_of_field(shape, base, *field)?;
                self.write(cell, v)
            }
            Action::Call {
                helper,
                arguments,
                result,
            } => {
                let outcome = self.call(*helper, arguments, shape, bounds)?;
                self.receive(outcome, *result)
            }
            Action::Print(e) => {
                let v = evaluate(e, shape, &self.locals, self.draft.cells())?;
                self.print(v)
            }
            Action::If { condition, block } => {
                if is_true(condition, shape, &self.locals, self.draft.cells())? {
                    self.run_all(block, shape, bounds)
                } else {
                    Ok(())
                }
            }
            Action::IfElse {
                condition,
                block,
                otherwise,
            } => {
                if is_true(condition, shape, &self.locals, self.draft.cells())? {
                    self.run_all(block, shape, bounds)
                } else {
                    self.run_all(otherwise, shape, bounds)
                }
            }
            Action::While { condition, body } => self.repeat(body, condition, shape, bounds),
        }
    }

    // Runs a loop. It has a frame of its own with its statements inlined, since a call for each turn would cost as much
    // as a statement.
    #[inline(never)]
    #[cycle(run)]
    fn repeat(
        &mut self,
        body: &[Stmt],
        condition: &Condition,
        shape: &Shape,
        bounds: &Bounds,
    ) -> Result<(), Halt>
        ensures follows { Follows result (state_of self.new)
            (while_within condition.now body.now shape.now bounds.now (state_of self.old)) }
        ensures keeps { Keeps self.old self.new }
    {
        let mut left = bounds.turns;
        while is_true(condition, shape, &self.locals, self.draft.cells())? {
            if left == 0 {
                return Err(Halt::Beyond);
            }
            left -= 1;
            self.steps(body, shape, bounds)?;
        }
        Ok(())
    }

    #[inline(never)]
    #[cycle(run)]
    fn run_all(&mut self, block: &[Stmt], shape: &Shape, bounds: &Bounds) -> Result<(), Halt>
        ensures follows { Follows result (state_of self.new)
            (sequence_within block.now shape.now bounds.now (state_of self.old)) }
        ensures keeps { Keeps self.old self.new }
    {
        self.steps(block, shape, bounds)
    }

    #[inline(always)]
    #[cycle(run)]
    fn steps(&mut self, block: &[Stmt], shape: &Shape, bounds: &Bounds) -> Result<(), Halt>
        ensures follows { Follows result (state_of self.new)
            (sequence_within block.now shape.now bounds.now (state_of self.old)) }
        ensures keeps { Keeps self.old self.new }
    {
        for s in block {
            self.run(&s.action, shape, bounds)?;
        }
        Ok(())
    }

    // The values of arguments, from left to right.
    fn values(&self, arguments: &[Expr], shape: &Shape) -> Result<Vec<Value>, Halt>
        ensures { Gives result (values_of arguments.now shape.now self.now.locals.items self.now.draft.now) }
    {
        let mut values = Vec::with_capacity(*self.locals.allocator(), arguments.len())?;
        for argument in arguments {
            let value = evaluate(argument, shape, &self.locals, self.draft.cells())?;
            if values.push(value).is_err() {
                return Err(Halt::NoMemory);
            }
        }
        Ok(values)
    }

    // Runs a helper on the values of arguments.
    #[inline(never)]
    #[cycle(run)]
    fn call(
        &mut self,
        helper: usize,
        arguments: &[Expr],
        shape: &Shape,
        bounds: &Bounds,
    ) -> Result<Outcome, Halt>
        ensures follows { Concludes result (state_of self.new)
            (called helper arguments.now shape.now bounds.now (state_of self.old)) }
        ensures locals { self.new.locals.items ≡ self.old.locals.items }
        ensures keeps { Keeps self.old self.new }
    {
        let arguments = self.values(arguments, shape)?;
        self.help(helper, arguments, shape, bounds)
    }

    // Runs a helper with locals of its own, on the same heap, after what was printed. The locals of its caller stay.
    #[cycle(run)]
    fn help(
        &mut self,
        helper: usize,
        arguments: Vec<Value>,
        shape: &Shape,
        bounds: &Bounds,
    ) -> Result<Outcome, Halt>
        ensures follows { Concludes result (state_of self.new)
            (helped_within helper arguments.items shape.now bounds.now (state_of self.old)) }
        ensures locals { self.new.locals.items ≡ self.old.locals.items }
        ensures keeps { Keeps self.old self.new }
    {
        if bounds.depth == 0 {
            return Err(Halt::Wrong);
        }
        let Some(section) = shape.helpers.get(helper) else {
            return Err(Halt::Wrong);
        };
        let deeper = Bounds {
            turns: bounds.turns,
            depth: bounds.depth - 1,
        };
        let locals = with_defaults(arguments, &section.locals)?;
        let callers = mem::replace(&mut self.locals, locals);
        let ended = self.finish(section, shape, &deeper);
        self.locals = callers;
        ended
    }

    // Goes on after a call: binds its value to a `let`, or drops it.
    fn receive(&mut self, outcome: Outcome, local: Option<usize>) -> Result<(), Halt>
        ensures follows { Follows result (state_of self.new) (received outcome local (state_of self.old)) }
        ensures keeps { Keeps self.old self.new }
    {
        match (outcome, local) {
            (Outcome::Traps(trap), _) => Err(Halt::Trap(trap)),
            (Outcome::Returns(value), Some(local)) => self.store(local, value),
            (Outcome::Ends, Some(_)) => Err(Halt::Wrong),
            (_, None) => Ok(()),
        }
    }

    // Runs the statements of a section or a helper, and returns how it ends.
    #[cycle(run)]
    fn finish(&mut self, section: &Section, shape: &Shape, bounds: &Bounds) -> Result<Outcome, Halt>
        ensures follows { Concludes result (state_of self.new)
            (run_within section.now shape.now bounds.now (state_of self.old)) }
        ensures keeps { Keeps self.old self.new }
    {
        self.run_all(&section.body, shape, bounds)?;
        match &section.result {
            None => Ok(Outcome::Ends),
            Some(result) => {
                let v = evaluate(&result.value, shape, &self.locals, self.draft.cells())?;
                Ok(Outcome::Returns(v))
            }
        }
    }

    /// Runs a section's statements, and returns how it ends.
    pub fn conclude(
        &mut self,
        section: &Section,
        shape: &Shape,
        turns: u64,
    ) -> Result<Outcome, Halt>
        ensures follows { Concludes result (state_of self.new)
            (run_from section.now shape.now turns (state_of self.old)) }
        ensures keeps { Keeps self.old self.new }
    {
        let bounds = Bounds {
            turns,
            depth: DEPTH_LIMIT,
        };
        self.finish(section, shape, &bounds)
    }
}
