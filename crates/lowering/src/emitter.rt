//! Writes the instructions of statements.

ghost use Rattle.std.specs.Prelude.{◌≡◌, ◌<◌, [], length, IfOk, OnOk};
ghost use Rattle.code.specs.Working.NumberLists.{number_lists};
ghost use Rattle.lowering.specs.Working.Assembly.{IsListed};

use crate::assembler::{Assembler, above_one};
use code::instr::Instr;
use core_lang::tree::{Action, Condition, Expr, Path, Return, Stmt};
use source::memory::NoMemory;
use std::alloc::Global;

/// The code of a section under construction.
#[derive(Drop)]
pub struct Emitter<'a> {
    /// The lists before its points.
    pub lists: &'a [Vec<u8>],
    /// For each point so far, the place of its first instruction.
    pub begins: Vec<usize>,
    /// The greatest number of operands on the stack so far.
    pub operands: usize,
    /// The instructions so far.
    pub code: Assembler,
}

/// Whether a lock path is listed before a point.
fn is_listed(lists: &[Vec<u8>], point: usize) -> bool
    ensures { IsListed (number_lists lists.now) point result }
{
    match lists.get(point) {
        Some(list) => !list.is_empty(),
        None => false,
    }
}

impl<'a> Emitter<'a> {
    ghost use Rattle.lowering.specs.Working.Emission.{Emits, Ends, Opens, Skips, Joins};
    ghost use Rattle.lowering.specs.Working.Emission.{acquire_piece, value_piece, stuck_piece, set_element_piece};
    ghost use Rattle.lowering.specs.Working.Emission.{set_field_piece, choice_piece, loop_piece, statement_piece};
    ghost use Rattle.lowering.specs.Working.Emission.{sequence_piece};

    /// An emitter before the first point, with room for `size` instructions.
    pub fn new(alloc: Global, lists: &'a [Vec<u8>], size: usize) -> Result<Emitter<'a>, NoMemory>
        ensures lists { IfOk result (λ emitter. emitter.lists ≡ lists.entry) }
        ensures begins { IfOk result (λ emitter. emitter.begins.items ≡ []) }
        ensures operands { IfOk result (λ emitter. emitter.operands ≡ 0) }
        ensures code { IfOk result (λ emitter. emitter.code.instructions.items ≡ []) }
    {
        Ok(Emitter {
            lists,
            begins: Vec::new(alloc),
            operands: 0,
            code: Assembler::new(alloc, size)?,
        })
    }

    // Begins the next point, with an instruction if its list has a path.
    fn acquire(&mut self) -> Result<(), NoMemory>
        ensures { OnOk result (Emits self.old self.new acquire_piece) }
    {
        let point = self.begins.len();
        self.begins.push(self.code.instructions.len())?;
        if !is_listed(self.lists, point) {
            return Ok(());
        }
        self.code.put(Instr::Acquire(point))
    }

    // Appends a point that evaluates an expression and ends with an instruction for its value.
    fn evaluate(&mut self, value: &Expr, last: Instr) -> Result<(), NoMemory>
        ensures { OnOk result (Emits self.old self.new (value_piece value.now last)) }
    {
        self.acquire()?;
        let need = self.code.expression(value)?;
        self.code.put(last)?;
        self.operands = self.operands.max(need);
        Ok(())
    }

    // Appends the code of a call, which has none of its own: this code gets stuck.
    fn stick(&mut self) -> Result<(), NoMemory>
        ensures { OnOk result (Emits self.old self.new stuck_piece) }
    {
        self.acquire()?;
        self.code.put(Instr::PushNull)?;
        self.code.put(Instr::PrintTop)?;
        self.operands = self.operands.max(1);
        Ok(())
    }

    // Appends an assignment to an element.
    fn set_element(&mut self, array: usize, index: &Expr, value: &Expr) -> Result<(), NoMemory>
        ensures { OnOk result (Emits self.old self.new (set_element_piece array index.now value.now)) }
    {
        self.acquire()?;
        let below = self.code.expression(index)?;
        self.code.put(Instr::Bound(array))?;
        let above = above_one(self.code.expression(value)?)?;
        self.code.put(Instr::PutElement(array))?;
        self.operands = self.operands.max(below.max(above));
        Ok(())
    }

    // Appends an assignment to a field by the instruction `last`.
    fn set_field(&mut self, base: &Path, value: &Expr, last: Instr) -> Result<(), NoMemory>
        ensures { OnOk result (Emits self.old self.new (set_field_piece base.now value.now last)) }
    {
        self.acquire()?;
        self.code.path(base)?;
        self.code.put(Instr::NonNull)?;
        let need = above_one(self.code.expression(value)?)?;
        self.code.put(last)?;
        self.operands = self.operands.max(need);
        Ok(())
    }

    // Appends a statement.
    #[cycle(statement)]
    fn statement(&mut self, action: &Action) -> Result<(), NoMemory>
        ensures { OnOk result (Emits self.old self.new (statement_piece action.now)) }
    {
        match action {
            Action::Bind { local, value } => self.evaluate(value, Instr::PutLocal(*local)),
            Action::SetLocal { local, value } => self.evaluate(value, Instr::PutLocal(*local)),
            Action::SetGlobal { cell, value } => self.evaluate(value, Instr::PutGlobal(*cell)),
            Action::SetElement {
                array,
                index,
                value,
            } => self.set_element(*array, index, value),
            Action::SetField {
                base,
                structure,
                field,
                value,
            } => {
                let last = Instr::PutField {
                    structure: *structure,
                    number: *field,
                };
                self.set_field(base, value, last)
            }
            Action::Call { .. } => self.stick(),
            Action::Print(value) => self.evaluate(value, Instr::PrintTop),
            Action::If { condition, block } => self.choose(block, condition),
            Action::IfElse {
                condition,
                block,
                otherwise,
            } => {
                let test_end = self.open(condition)?;
                self.block(block)?;
                let block_end = self.skip(test_end)?;
                self.block(otherwise)?;
                self.join(block_end);
                Ok(())
            }
            Action::While { condition, body } => self.repeat(body, condition),
        }
    }

    // Appends the condition of an `if` or a `while`, and a jump after it. Returns the place of the jump.
    fn open(&mut self, condition: &Condition) -> Result<usize, NoMemory>
        ensures { IfOk result (λ place. Opens self.old self.new condition.now place) }
    {
        self.acquire()?;
        let need = self.code.condition(condition)?;
        let place = self.code.instructions.len();
        self.code.put(Instr::JumpIfFalse(0))?;
        self.operands = self.operands.max(need);
        Ok(place)
    }

    // Appends a jump at the end of the first block, after which the second one begins. Returns the place of the jump.
    fn skip(&mut self, test_end: usize) -> Result<usize, NoMemory>
        requires { test_end < length self.old.code.instructions.items }
        ensures { IfOk result (Skips test_end self.old self.new) }
    {
        let place = self.code.instructions.len();
        self.code.put(Instr::Jump(0))?;
        self.code.land(test_end);
        Ok(place)
    }

    // Makes the jump at the end of the first block skip the second one.
    fn join(&mut self, block_end: usize)
        requires { block_end < length self.old.code.instructions.items }
        ensures { Joins block_end self.old self.new }
    {
        let over = self.code.instructions.len() - block_end - 1;
        self.code.instructions[block_end] = Instr::Jump(over);
    }

    // Appends an `if` without an `else`.
    #[cycle(statement)]
    fn choose(&mut self, block: &[Stmt], condition: &Condition) -> Result<(), NoMemory>
        ensures { OnOk result (Emits self.old self.new (choice_piece condition.now block.now)) }
    {
        let test_end = self.open(condition)?;
        self.block(block)?;
        self.code.land(test_end);
        Ok(())
    }

    // Appends a `while`.
    #[cycle(statement)]
    fn repeat(&mut self, body: &[Stmt], condition: &Condition) -> Result<(), NoMemory>
        ensures { OnOk result (Emits self.old self.new (loop_piece condition.now body.now)) }
    {
        let start = self.code.instructions.len();
        let test_end = self.open(condition)?;
        self.block(body)?;
        let passed = self.code.instructions.len() - start;
        self.code.put(Instr::JumpBack(passed))?;
        self.code.land(test_end);
        Ok(())
    }

    /// Appends statements.
    #[cycle(statement)]
    pub fn block(&mut self, statements: &[Stmt]) -> Result<(), NoMemory>
        ensures { OnOk result (Emits self.old self.new (sequence_piece statements.now)) }
    {
        for statement in statements {
            self.statement(&statement.action)?;
        }
        Ok(())
    }

    /// Appends the result, or the end.
    pub fn end(&mut self, returned: &Option<Return>) -> Result<(), NoMemory>
        ensures { OnOk result (Ends self.old self.new returned.now) }
    {
        match returned {
            Some(returned) => self.evaluate(&returned.value, Instr::Return),
            None => self.code.put(Instr::End),
        }
    }
}
