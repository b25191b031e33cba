//! The stack machine of an open section.

ghost use Rattle.std.specs.Prelude.{◌≡◌, ◌<◌, drop, length, Ok};
ghost use Rattle.core_lang.specs.Arithmetic.{negated, on_values};
ghost use Rattle.core_lang.specs.Cells.{element_cell, member_of, field_cell, final_value, not_null};
ghost use Rattle.code.specs.Machine.{advances, jumps, negation, or_trap};
ghost use Rattle.runner_machine.specs.Working.Held.{IsLoad, IsStore};
ghost use Rattle.runner_machine.specs.Working.Machines.{FitsRoom, HasSmallCells, HasEffect, effect_of, putting_on, loading_on};
ghost use Rattle.runner_machine.specs.Working.Machines.{storing_found, getting, setting, storing, owner_test, on_one, on_both, testing, passing};
ghost use Rattle.runner_machine.specs.Working.Machines.{if_passed, loading_named, storing_named, branching, printing, back_by, returning};

use crate::holding::Holding;
use crate::operands::Operands;
use crate::prints::Prints;
use crate::progress::{Progress, failed};
use crate::truths::{agrees, negate_truth, truth_in, truth_value};
use code::instr::Instr;
use core_lang::access::{
    cell_of_element, cell_of_field, member, non_null, owned_by, value_at, value_of_final,
};
use core_lang::operators::{compare, negate, operate};
use core_lang::shape::Shape;
use core_lang::tree::{Comparison, Operator};
use core_lang::value::{Failure, Outcome, Value};
use history::kept::CellValue;
use layout::room::Room;
use layout::table::Layout;
use locks::lock::Lock;
use moved_cells::grant::Grant;
use source::memory::NoMemory;
use std::alloc::Global;
use std::marker::Model;
use std::mem;

/// The machine of an open section: its place in the code, its operands and locals, the cells that it holds, and what it
/// has printed. It is passed from one section to the next, and ends only when it holds no cells.
pub struct StackMachine<'p> {
    pub(crate) place: usize,
    pub(crate) operands: Operands,
    pub(crate) locals: Vec<Value>,
    pub(crate) held: Holding<'p>,
    pub(crate) prints: Prints,
}

impl<'p> Model for StackMachine<'p> {
    ghost use Rattle.runner_machine.specs.Working.Machines.{RunOf};

    ghost Value = { RunOf };

    ghost view = { λ m. record {
      machine = record {
        place = m.place;
        stack = m.operands.stack;
        locals = m.locals.items;
        memory = m.held.memory;
        prints = m.prints;
      };
      operand_room = m.operands.room;
      layout = m.held.layout;
      locks = m.held.locks;
      lock_room = m.held.lock_room;
      cell_room = m.held.cell_room;
    } };
}

impl<'p> StackMachine<'p> {
    ghost use Rattle.std.specs.Prelude.{◌+◌, ◌≤◌, ◌^◌, [], IfOk, OnOk, slice_index};
    ghost use Rattle.locks.specs.Locks.{among};
    ghost use Rattle.code.specs.Machine.{passed};
    ghost use Rattle.runner_machine.specs.Working.Held.{CanHold, with_grant};
    ghost use Rattle.runner_machine.specs.Working.Machines.{at_first, with_machine, with_holding, holding_of, IsFinished};

    /// A machine without cells, with room for the most prints of a section. The begin of a section allocates the rest.
    ///
    /// # Errors
    ///
    /// Out of memory.
    pub fn new(alloc: Global, layout: &'p Layout) -> Result<StackMachine<'p>, NoMemory>
        ensures { IfOk result (λ m. m.locks ≡ []) }
    {
        let prints = Prints::new(alloc)?;
        Ok(StackMachine {
            place: 0,
            operands: Operands::new(alloc),
            locals: Vec::new(alloc),
            held: Holding::new(alloc, layout),
            prints,
        })
    }

    /// Moves the locals out, so that their memory can be used again.
    pub fn take_locals(&mut self, alloc: Global) -> Vec<Value>
        ensures { self.new.locks ≡ self.old.locks }
    {
        mem::replace(&mut self.locals, Vec::new(alloc))
    }

    /// Begins the next section, with `locals`, without cells, and with all memory that the section can need.
    ///
    /// # Errors
    ///
    /// Out of memory. The machine then has no cells.
    pub fn renew(
        &mut self,
        locals: Vec<Value>,
        layout: &'p Layout,
        room: Room,
    ) -> Result<(), NoMemory>
        requires none { self.old.locks ≡ [] }
        ensures ok { OnOk result (self.new ≡ at_first locals.items layout.now room) }
        ensures none { self.new.locks ≡ [] }
    {
        self.place = 0;
        self.locals = locals;
        self.prints.clear();
        self.operands.renew(room.operands)?;
        self.held.renew(layout, room)
    }

    /// The index of its next instruction.
    #[inline]
    pub fn place(&self) -> usize
        ensures { result ≡ self.now.machine.place }
    {
        self.place
    }

    /// The values of its locals.
    #[inline]
    pub fn locals(&self) -> &[Value]
        ensures { result.now ≡ self.now.machine.locals }
    {
        self.locals.as_slice()
    }

    /// Moves on to the next instruction.
    #[inline]
    pub fn pass(&mut self)
        requires { self.old.machine.place + 1 < 2 ^ 64 }
        ensures { self.new ≡ with_machine self.old (passed self.old.machine) }
    {
        self.place += 1;
    }

    /// Adds the cells of a lock.
    pub fn grant(&mut self, grant: Grant)
        requires { CanHold (holding_of self.old) grant }
        ensures { self.new ≡ with_holding self.old (with_grant (holding_of self.old) grant) }
    {
        self.held.grant(grant);
    }

    /// Whether it holds the cells of `lock`.
    pub fn holds(&self, lock: Lock) -> bool
        ensures { result ≡ among self.now.locks lock }
    {
        self.held.holds(lock)
    }

    /// Ends the section: moves the grants, the oldest first, into the empty list `grants`, and puts the reads and
    /// writes in order of the cells' numbers. The rest is unchanged.
    pub fn finish(&mut self, grants: &mut Vec<Grant>)
        requires none { grants.old.items ≡ [] }
        ensures { IsFinished self.old grants.new.items self.new }
    {
        self.prints.keeps_its_rules();
        self.held.keeps_its_rules();
        self.held.finish(grants);
    }

    /// Each cell that was read before it was written, with the value found, in order of the cells' numbers.
    pub fn reads(&self) -> &[CellValue]
        requires { self.now.cell_room ≡ 0 }
        ensures { result.now ≡ self.now.machine.memory.reads }
    {
        self.held.reads()
    }

    /// Each cell that was written, with the last value written, in order of the cells' numbers.
    pub fn writes(&self) -> &[CellValue]
        requires { self.now.cell_room ≡ 0 }
        ensures { result.now ≡ self.now.machine.memory.writes }
    {
        self.held.writes()
    }

    /// The numbers that the section printed, the first one first.
    pub fn prints(&self) -> &[i64]
        ensures items { result.now ≡ self.now.machine.prints }
        ensures few { length self.now.machine.prints ≤ 256 }
    {
        self.prints.numbers()
    }

    /// Frees the memory of a machine without cells.
    pub fn let_go(self)
        requires { self.locks ≡ [] }
    {
        let StackMachine {
            place: _,
            operands: _,
            locals: _,
            held,
            prints: _,
        } = self;
        held.let_go();
    }
}

// The value of `cell`, if it is held.
#[inline(always)]
fn load(held: &mut Holding, cell: usize) -> Option<Value>
    requires { HasSmallCells held.old.memory }
    ensures { IsLoad held.old cell result held.new }
{
    match u32::try_from(cell) {
        Ok(cell) => held.load(cell),
        Err(_) => None,
    }
}

// Writes `cell`, and returns whether it is held.
#[inline(always)]
fn store(held: &mut Holding, cell: usize, value: Value) -> bool
    requires { HasSmallCells held.old.memory }
    ensures { IsStore held.old cell value result held.new }
{
    match u32::try_from(cell) {
        Ok(cell) => held.store(cell, value),
        Err(_) => false,
    }
}

// The operations of the instructions, which `step` calls.
impl<'p> StackMachine<'p> {
    // Pushes `value`.
    #[inline(always)]
    fn push(&mut self, value: Value) -> Progress
        requires { FitsRoom self.old.operand_room (putting_on self.old.machine.stack (Ok value) self.old.machine) }
        ensures { HasEffect (putting_on self.old.machine.stack (Ok value) self.old.machine) self.old result self.new }
    {
        self.operands.push(value);
        self.place += 1;
        Progress::Moved
    }

    // Replaces the top by `value`, unless it is a failure.
    #[inline(always)]
    fn replace_top(&mut self, value: Result<Value, Failure>) -> Progress
        requires top { 0 < length self.old.machine.stack }
        requires fits { FitsRoom self.old.operand_room
            (putting_on (drop 1 self.old.machine.stack) value self.old.machine) }
        ensures { HasEffect (putting_on (drop 1 self.old.machine.stack) value self.old.machine) self.old result
            self.new }
    {
        match value {
            Ok(value) => {
                self.operands.set_top(value);
                self.place += 1;
                Progress::Moved
            }
            Err(failure) => failed(failure),
        }
    }

    // Replaces the two operands on top by `value`, unless it is a failure.
    #[inline(always)]
    fn replace_two(&mut self, value: Result<Value, Failure>) -> Progress
        requires top { 1 < length self.old.machine.stack }
        requires fits { FitsRoom self.old.operand_room
            (putting_on (drop 2 self.old.machine.stack) value self.old.machine) }
        ensures { HasEffect (putting_on (drop 2 self.old.machine.stack) value self.old.machine) self.old result
            self.new }
    {
        match value {
            Ok(value) => {
                self.operands.pop();
                self.operands.set_top(value);
                self.place += 1;
                Progress::Moved
            }
            Err(failure) => failed(failure),
        }
    }

    // Moves on if `test` is passed.
    #[inline(always)]
    fn go_on_if<T: Drop>(&mut self, test: Result<T, Failure>) -> Progress
        requires { FitsRoom self.old.operand_room (passing test self.old.machine) }
        ensures { HasEffect (passing test self.old.machine) self.old result self.new }
    {
        match test {
            Ok(_) => {
                self.place += 1;
                Progress::Moved
            }
            Err(failure) => failed(failure),
        }
    }

    #[inline(always)]
    fn load_global(&mut self, cell: u32) -> Progress
        requires { FitsRoom self.old.operand_room (loading_on self.old.machine.stack cell self.old.machine) }
        ensures { HasEffect (loading_on self.old.machine.stack cell self.old.machine) self.old result self.new }
    {
        let Some(value) = self.held.load(cell) else {
            return Progress::Undefined;
        };
        self.operands.push(value);
        self.place += 1;
        Progress::Moved
    }

    #[inline(always)]
    fn put_global(&mut self, cell: u32) -> Progress
        requires { FitsRoom self.old.operand_room (storing cell self.old.machine) }
        ensures { HasEffect (storing cell self.old.machine) self.old result self.new }
    {
        let Some(value) = self.operands.top() else {
            return Progress::Undefined;
        };
        if !self.held.store(cell, value) {
            return Progress::Undefined;
        }
        self.operands.pop();
        self.place += 1;
        Progress::Moved
    }

    // Replaces the top by the value of `cell`.
    #[inline(always)]
    fn load_cell(&mut self, cell: Result<usize, Failure>) -> Progress
        requires top { 0 < length self.old.machine.stack }
        requires small { HasSmallCells self.old.machine.memory }
        requires fits { FitsRoom self.old.operand_room
            (or_trap cell (λ c. loading_on (drop 1 self.old.machine.stack) c self.old.machine)) }
        ensures { HasEffect (or_trap cell (λ c. loading_on (drop 1 self.old.machine.stack) c self.old.machine))
            self.old result self.new }
    {
        match cell {
            Ok(cell) => {
                let Some(value) = load(&mut self.held, cell) else {
                    return Progress::Undefined;
                };
                self.operands.set_top(value);
                self.place += 1;
                Progress::Moved
            }
            Err(failure) => failed(failure),
        }
    }

    // Writes `value` to `cell`, and pops two operands.
    #[inline(always)]
    fn store_cell(&mut self, cell: Result<usize, Failure>, value: Value) -> Progress
        requires top { 1 < length self.old.machine.stack }
        requires small { HasSmallCells self.old.machine.memory }
        requires fits { FitsRoom self.old.operand_room
            (storing_found (drop 2 self.old.machine.stack) cell value self.old.machine) }
        ensures { HasEffect (storing_found (drop 2 self.old.machine.stack) cell value self.old.machine) self.old result
            self.new }
    {
        match cell {
            Ok(cell) => {
                if !store(&mut self.held, cell, value) {
                    return Progress::Undefined;
                }
                self.operands.pop();
                self.operands.pop();
                self.place += 1;
                Progress::Moved
            }
            Err(failure) => failed(failure),
        }
    }
}

impl<'p> StackMachine<'p> {
    #[inline(always)]
    fn get_local(&mut self, local: usize) -> Progress
        requires { FitsRoom self.old.operand_room (getting local self.old.machine) }
        ensures { HasEffect (getting local self.old.machine) self.old result self.new }
    {
        match self.locals.get(local) {
            Some(value) => {
                let value = *value;
                self.push(value)
            }
            None => Progress::Undefined,
        }
    }

    #[inline(always)]
    fn put_local(&mut self, local: usize) -> Progress
        requires { FitsRoom self.old.operand_room (setting local self.old.machine) }
        ensures { HasEffect (setting local self.old.machine) self.old result self.new }
    {
        let Some(value) = self.operands.top() else {
            return Progress::Undefined;
        };
        if local >= self.locals.len() {
            return Progress::Undefined;
        }
        self.locals[local] = value;
        self.operands.pop();
        self.place += 1;
        Progress::Moved
    }

    #[inline(always)]
    fn load_element(&mut self, shape: &Shape, array: usize) -> Progress
        requires small { HasSmallCells self.old.machine.memory }
        requires fits { FitsRoom self.old.operand_room (loading_named (element_cell shape.now array) self.old.machine) }
        ensures { HasEffect (loading_named (element_cell shape.now array) self.old.machine) self.old result self.new }
    {
        let Some(index) = self.operands.top() else {
            return Progress::Undefined;
        };
        self.load_cell(cell_of_element(shape, array, index))
    }

    #[inline(always)]
    fn bound(&mut self, shape: &Shape, array: usize) -> Progress
        requires { FitsRoom self.old.operand_room (if_passed (element_cell shape.now array) self.old.machine) }
        ensures { HasEffect (if_passed (element_cell shape.now array) self.old.machine) self.old result self.new }
    {
        let Some(index) = self.operands.top() else {
            return Progress::Undefined;
        };
        self.go_on_if(cell_of_element(shape, array, index))
    }

    #[inline(always)]
    fn put_element(&mut self, shape: &Shape, array: usize) -> Progress
        requires small { HasSmallCells self.old.machine.memory }
        requires fits { FitsRoom self.old.operand_room (storing_named (element_cell shape.now array) self.old.machine) }
        ensures { HasEffect (storing_named (element_cell shape.now array) self.old.machine) self.old result self.new }
    {
        let Some(index) = self.operands.second() else {
            return Progress::Undefined;
        };
        let Some(value) = self.operands.top() else {
            return Progress::Undefined;
        };
        self.store_cell(cell_of_element(shape, array, index), value)
    }

    #[inline(always)]
    fn get_member(&mut self, shape: &Shape, pool: usize) -> Progress
        requires { FitsRoom self.old.operand_room (on_one (member_of shape.now pool) self.old.machine) }
        ensures { HasEffect (on_one (member_of shape.now pool) self.old.machine) self.old result self.new }
    {
        let Some(index) = self.operands.top() else {
            return Progress::Undefined;
        };
        self.replace_top(member(shape, pool, index))
    }

    #[inline(always)]
    fn load_final(&mut self, shape: &Shape, number: u32) -> Progress
        requires { FitsRoom self.old.operand_room
            (on_one (λ base. final_value shape.now base number) self.old.machine) }
        ensures { HasEffect (on_one (λ base. final_value shape.now base number) self.old.machine) self.old result
            self.new }
    {
        let Some(base) = self.operands.top() else {
            return Progress::Undefined;
        };
        self.replace_top(value_of_final(shape, base, number))
    }

    #[inline(always)]
    fn load_field(&mut self, shape: &Shape, number: u32) -> Progress
        requires small { HasSmallCells self.old.machine.memory }
        requires fits { FitsRoom self.old.operand_room
            (loading_named (λ base. field_cell shape.now base number) self.old.machine) }
        ensures { HasEffect (loading_named (λ base. field_cell shape.now base number) self.old.machine) self.old result
            self.new }
    {
        let Some(base) = self.operands.top() else {
            return Progress::Undefined;
        };
        self.load_cell(cell_of_field(shape, base, number))
    }

    #[inline(always)]
    fn check_null(&mut self) -> Progress
        requires { FitsRoom self.old.operand_room (if_passed not_null self.old.machine) }
        ensures { HasEffect (if_passed not_null self.old.machine) self.old result self.new }
    {
        let Some(base) = self.operands.top() else {
            return Progress::Undefined;
        };
        self.go_on_if(non_null(base))
    }

    #[inline(always)]
    fn put_field(&mut self, shape: &Shape, number: u32) -> Progress
        requires small { HasSmallCells self.old.machine.memory }
        requires fits { FitsRoom self.old.operand_room
            (storing_named (λ base. field_cell shape.now base number) self.old.machine) }
        ensures { HasEffect (storing_named (λ base. field_cell shape.now base number) self.old.machine) self.old result
            self.new }
    {
        let Some(base) = self.operands.second() else {
            return Progress::Undefined;
        };
        let Some(value) = self.operands.top() else {
            return Progress::Undefined;
        };
        self.store_cell(cell_of_field(shape, base, number), value)
    }

    #[inline(always)]
    fn negate_top(&mut self) -> Progress
        requires { FitsRoom self.old.operand_room (on_one negated self.old.machine) }
        ensures { HasEffect (on_one negated self.old.machine) self.old result self.new }
    {
        let Some(top) = self.operands.top() else {
            return Progress::Undefined;
        };
        self.replace_top(negate(top))
    }

    #[inline(always)]
    fn check_owner(&mut self, shape: &Shape, number: u32, local: usize) -> Progress
        requires { FitsRoom self.old.operand_room
            (on_one (owner_test shape.now number local self.old.machine.locals) self.old.machine) }
        ensures { HasEffect (on_one (owner_test shape.now number local self.old.machine.locals) self.old.machine)
            self.old result self.new }
    {
        let Some(top) = self.operands.top() else {
            return Progress::Undefined;
        };
        let owned = self.owned(shape, top, number, local);
        self.replace_top(owned)
    }

    // `value`, if it is null or its final reference equals the local.
    #[inline(always)]
    fn owned(
        &self,
        shape: &Shape,
        value: Value,
        number: u32,
        local: usize,
    ) -> Result<Value, Failure>
        ensures { result ≡ owner_test shape.now number local self.now.machine.locals value }
    {
        let owner = value_at(&self.locals, local)?;
        owned_by(shape, value, number, owner)
    }

    #[inline(always)]
    fn not_top(&mut self) -> Progress
        requires { FitsRoom self.old.operand_room (on_one negation self.old.machine) }
        ensures { HasEffect (on_one negation self.old.machine) self.old result self.new }
    {
        let Some(top) = self.operands.top() else {
            return Progress::Undefined;
        };
        self.replace_top(negate_truth(top))
    }

    #[inline(always)]
    fn operate(&mut self, operator: Operator) -> Progress
        requires { FitsRoom self.old.operand_room (on_both (on_values operator) self.old.machine) }
        ensures { HasEffect (on_both (on_values operator) self.old.machine) self.old result self.new }
    {
        let Some(left) = self.operands.second() else {
            return Progress::Undefined;
        };
        let Some(right) = self.operands.top() else {
            return Progress::Undefined;
        };
        self.replace_two(operate(operator, left, right))
    }

    #[inline(always)]
    fn test(&mut self, comparison: Comparison) -> Progress
        requires { FitsRoom self.old.operand_room (testing comparison self.old.machine) }
        ensures { HasEffect (testing comparison self.old.machine) self.old result self.new }
    {
        let Some(left) = self.operands.second() else {
            return Progress::Undefined;
        };
        let Some(right) = self.operands.top() else {
            return Progress::Undefined;
        };
        match compare(comparison, left, right) {
            Ok(holds) => self.replace_two(Ok(truth_value(holds))),
            Err(failure) => failed(failure),
        }
    }

    #[inline(always)]
    fn jump(&mut self, over: usize) -> Progress
        requires { FitsRoom self.old.operand_room (jumps self.old.machine over self.old.machine.stack) }
        ensures { HasEffect (jumps self.old.machine over self.old.machine.stack) self.old result self.new }
    {
        self.place += 1 + over;
        Progress::Moved
    }

    #[inline(always)]
    fn go_on(&mut self) -> Progress
        requires { FitsRoom self.old.operand_room (advances self.old.machine self.old.machine.stack) }
        ensures { HasEffect (advances self.old.machine self.old.machine.stack) self.old result self.new }
    {
        self.place += 1;
        Progress::Moved
    }

    #[inline(always)]
    fn jump_back(&mut self, back: usize) -> Progress
        ensures { HasEffect (back_by back self.old.machine) self.old result self.new }
    {
        self.place = self.place.saturating_sub(back);
        Progress::Moved
    }

    // Pops a truth value, and jumps over `over` instructions if it equals `on`.
    #[inline(always)]
    fn branch(&mut self, over: usize, on: bool) -> Progress
        requires { FitsRoom self.old.operand_room (branching on over self.old.machine) }
        ensures { HasEffect (branching on over self.old.machine) self.old result self.new }
    {
        let Some(top) = self.operands.top() else {
            return Progress::Undefined;
        };
        match truth_in(top) {
            Ok(truth) => {
                self.operands.pop();
                if agrees(on, truth) {
                    self.jump(over)
                } else {
                    self.go_on()
                }
            }
            Err(failure) => failed(failure),
        }
    }

    #[inline(always)]
    fn print_top(&mut self) -> Progress
        requires { FitsRoom self.old.operand_room (printing self.old.machine) }
        ensures { HasEffect (printing self.old.machine) self.old result self.new }
    {
        let Some(top) = self.operands.top() else {
            return Progress::Undefined;
        };
        match self.prints.print(top) {
            Ok(()) => {
                self.operands.pop();
                self.place += 1;
                Progress::Moved
            }
            Err(failure) => failed(failure),
        }
    }

    #[inline(always)]
    fn return_top(&mut self) -> Progress
        ensures { HasEffect (returning self.old.machine) self.old result self.new }
    {
        match self.operands.top() {
            Some(value) => Progress::Finished(Outcome::Returns(value)),
            None => Progress::Undefined,
        }
    }
}

impl<'p> StackMachine<'p> {
    /// Runs one instruction. The machine moves only if the answer is [`Progress::Moved`]; an instruction that asks for
    /// locks doesn't move it yet.
    pub fn step(&mut self, shape: &Shape, instruction: Instr) -> Progress
        requires small { HasSmallCells self.old.machine.memory }
        requires fits { FitsRoom self.old.operand_room (effect_of shape.now instruction self.old) }
        ensures { HasEffect (effect_of shape.now instruction self.old) self.old result self.new }
    {
        match instruction {
            Instr::PushNumber(number) => self.push(Value::Int(number)),
            Instr::PushNull => self.push(Value::Ref(None)),
            Instr::GetLocal(local) => self.get_local(local),
            Instr::PutLocal(local) => self.put_local(local),
            Instr::LoadGlobal(cell) => self.load_global(cell),
            Instr::PutGlobal(cell) => self.put_global(cell),
            Instr::LoadElement(array) => self.load_element(shape, array),
            Instr::Bound(array) => self.bound(shape, array),
            Instr::PutElement(array) => self.put_element(shape, array),
            Instr::GetMember(pool) => self.get_member(shape, pool),
            Instr::LoadFinal { number, .. } => self.load_final(shape, number),
            Instr::LoadField { number, .. } => self.load_field(shape, number),
            Instr::NonNull => self.check_null(),
            Instr::PutField { number, .. } => self.put_field(shape, number),
            Instr::Where { number, local, .. } => self.check_owner(shape, number, local as usize),
            Instr::NegateTop => self.negate_top(),
            Instr::NotTop => self.not_top(),
            Instr::Operate(operator) => self.operate(operator),
            Instr::Test(comparison) => self.test(comparison),
            Instr::Jump(over) => self.jump(over),
            Instr::JumpBack(back) => self.jump_back(back),
            Instr::JumpIfFalse(over) => self.branch(over, false),
            Instr::JumpIfTrue(over) => self.branch(over, true),
            Instr::PrintTop => self.print_top(),
            Instr::Acquire(point) => Progress::Asks(point),
            Instr::Return => self.return_top(),
            Instr::End => Progress::Finished(Outcome::Ends),
        }
    }
}
