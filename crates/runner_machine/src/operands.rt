//! The operand stack.

ghost use Rattle.std.specs.Prelude.{◌≡◌, ◌<◌, ◌+◌, [], ◌∷◌, length, slice_get, OnOk, Some};
ghost use Rattle.runner_machine.specs.Working.Operands.{pushed, popped, with_top};

use core_lang::value::Value;
use source::memory::NoMemory;
use std::alloc::Global;
use std::marker::Model;

/// The operand stack of a section, with room for a number of operands. Its value is the operands, the top first, and
/// the room.
#[derive(Drop)]
pub struct Operands {
    // The operands from the bottom up, then unused places.
    values: Vec<Value>,
    depth: usize,
}

impl Model for Operands {
    ghost use Rattle.std.specs.Prelude.{◌≤◌, length};
    ghost use Rattle.runner_machine.specs.Working.Operands.{OperandsOf, downward};

    ghost Value = { OperandsOf };

    ghost view = { λ o. record { stack = downward o.values.items o.depth; room = length o.values.items } };

    ghost invariant = { λ o. o.depth ≤ length o.values.items };
}

impl Operands {
    /// An empty stack without room.
    pub fn new(alloc: Global) -> Operands
        ensures { result ≡ record { stack = []; room = 0 } }
    {
        Operands {
            values: Vec::new(alloc),
            depth: 0,
        }
    }

    /// Removes the operands, and makes room for `room` of them. The memory grows if it is too small.
    ///
    /// # Errors
    ///
    /// Out of memory. The stack is then empty.
    pub fn renew(&mut self, room: usize) -> Result<(), NoMemory>
        ensures { OnOk result (self.new ≡ record { stack = []; room = room }) }
    {
        self.depth = 0;
        self.values.resize(room, Value::Int(0))?;
        Ok(())
    }

    /// Pushes `value`.
    #[inline(always)]
    pub fn push(&mut self, value: Value)
        requires { length self.old.stack < self.old.room }
        ensures { self.new ≡ pushed self.old value }
    {
        self.values[self.depth] = value;
        self.depth += 1;
    }

    /// The top, if the stack is not empty.
    #[inline(always)]
    pub fn top(&self) -> Option<Value>
        ensures { result ≡ slice_get self.now.stack 0 }
    {
        if self.depth == 0 {
            return None;
        }
        Some(self.values[self.depth - 1])
    }

    /// The operand below the top, if there are two.
    #[inline(always)]
    pub fn second(&self) -> Option<Value>
        ensures { result ≡ slice_get self.now.stack 1 }
    {
        if self.depth < 2 {
            return None;
        }
        Some(self.values[self.depth - 2])
    }

    /// Removes the top.
    #[inline(always)]
    pub fn pop(&mut self)
        requires { 0 < length self.old.stack }
        ensures { self.new ≡ popped self.old }
    {
        self.depth -= 1;
    }

    /// Replaces the top by `value`.
    #[inline(always)]
    pub fn set_top(&mut self, value: Value)
        requires { 0 < length self.old.stack }
        ensures { self.new ≡ with_top self.old value }
    {
        self.values[self.depth - 1] = value;
    }
}
