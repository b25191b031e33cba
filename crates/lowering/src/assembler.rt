//! Writes the instructions of expressions and conditions.

ghost use Rattle.std.specs.Prelude.{◌≡◌, ◌<◌, ◌+◌, [], ◌∷◌, length, IfOk, OnOk};
ghost use Rattle.std.specs.List.{All};
ghost use Rattle.code.specs.Lowering.{path_code, expr_code, test_code};
ghost use Rattle.code.specs.Needs.{expr_need, test_need};

use code::instr::Instr;
use core_lang::tree::{Condition, Expr, FieldStep, Path};
use source::memory::NoMemory;
use std::alloc::Global;

/// The connective of conditions.
#[derive(Clone, Copy)]
pub enum Connective {
    /// `&&`
    And,
    /// `||`
    Or,
}

impl Connective {
    ghost use Rattle.lowering.specs.Working.Assembly.{jump_of, decided};

    // The jump after an operand, which is taken if the operand decides the condition.
    fn jump(self, over: usize) -> Instr
        ensures { result ≡ jump_of self over }
    {
        match self {
            Connective::And => Instr::JumpIfFalse(over),
            Connective::Or => Instr::JumpIfTrue(over),
        }
    }

    // The value of the condition if an operand decides it.
    fn decided(self) -> i64
        ensures { result ≡ decided self }
    {
        match self {
            Connective::And => 0,
            Connective::Or => 1,
        }
    }
}

/// One operand more. A stack whose depth does not fit into a `usize` does not fit into memory.
pub fn above_one(need: usize) -> Result<usize, NoMemory>
    ensures { IfOk result (λ more. more ≡ 1 + need) }
{
    need.checked_add(1).ok_or(NoMemory)
}

/// The state after the operands of `&&` or `||` except the last.
#[derive(Drop)]
struct Operands {
    /// The places of the jumps after them.
    jumps: Vec<usize>,
    /// The greatest number of operands on the stack.
    need: usize,
}

/// Instructions under construction. A method that appends an expression or a condition returns the greatest number of
/// operands on the stack.
#[derive(Drop)]
pub struct Assembler {
    /// The instructions so far.
    pub instructions: Vec<Instr>,
    alloc: Global,
}

impl Assembler {
    ghost use Rattle.lowering.specs.Working.Assembly.{Adds, Lands, field_code, blank, places, closed, PointsToEnd};
    ghost use Rattle.lowering.specs.Working.CodeLists.{conditions_need};

    /// No instructions, with room for `size` of them.
    pub fn new(alloc: Global, size: usize) -> Result<Assembler, NoMemory>
        ensures { IfOk result (λ code. code.instructions.items ≡ []) }
    {
        Ok(Assembler {
            instructions: Vec::with_capacity(alloc, size)?,
            alloc,
        })
    }

    /// Appends an instruction.
    pub fn put(&mut self, instr: Instr) -> Result<(), NoMemory>
        ensures { OnOk result (Adds self.old self.new (instr ∷ [])) }
    {
        self.instructions.push(instr)?;
        Ok(())
    }

    /// Appends a path.
    pub fn path(&mut self, path: &Path) -> Result<(), NoMemory>
        ensures { OnOk result (Adds self.old self.new (path_code path.now)) }
    {
        self.put(Instr::GetLocal(path.local))?;
        for field in &path.fields {
            self.put(Assembler::field(*field))?;
        }
        Ok(())
    }

    // The instruction from a reference to a field of its object.
    fn field(field: FieldStep) -> Instr
        ensures { result ≡ field_code field }
    {
        match field {
            FieldStep::Final { structure, number } => Instr::LoadFinal { structure, number },
            FieldStep::Field { structure, number } => Instr::LoadField { structure, number },
        }
    }

    // Appends an instruction that is an operand by itself.
    fn operand(&mut self, instr: Instr) -> Result<usize, NoMemory>
        ensures code { OnOk result (Adds self.old self.new (instr ∷ [])) }
        ensures need { IfOk result (λ need. need ≡ 1) }
    {
        self.put(instr)?;
        Ok(1)
    }

    /// Appends an expression.
    pub fn expression(&mut self, e: &Expr) -> Result<usize, NoMemory>
        ensures code { OnOk result (Adds self.old self.new (expr_code e.now)) }
        ensures need { IfOk result (λ need. need ≡ expr_need e.now) }
    {
        match e {
            Expr::Number(n) => self.operand(Instr::PushNumber(*n)),
            Expr::Null => self.operand(Instr::PushNull),
            Expr::Place(path) => {
                self.path(path)?;
                Ok(1)
            }
            Expr::Global { cell, .. } => self.operand(Instr::LoadGlobal(*cell)),
            Expr::Element { array, index, .. } => {
                let need = self.expression(index)?;
                self.put(Instr::LoadElement(*array))?;
                Ok(need)
            }
            Expr::Member { pool, index } => {
                let need = self.expression(index)?;
                self.put(Instr::GetMember(*pool))?;
                Ok(need)
            }
            Expr::Negate(e) => {
                let need = self.expression(e)?;
                self.put(Instr::NegateTop)?;
                Ok(need)
            }
            Expr::Owned {
                value,
                structure,
                number,
                owner,
                ..
            } => {
                let need = self.expression(value)?;
                self.put(Instr::Where {
                    number: *number,
                    structure: *structure,
                    local: *owner,
                })?;
                Ok(need)
            }
            Expr::Chain { first, rest } => {
                let mut need = self.expression(first)?;
                for operation in rest {
                    let operand = above_one(self.expression(&operation.operand)?)?;
                    self.put(Instr::Operate(operation.operator))?;
                    need = need.max(operand);
                }
                Ok(need)
            }
        }
    }

    /// Appends a condition.
    #[cycle(condition)]
    pub fn condition(&mut self, c: &Condition) -> Result<usize, NoMemory>
        ensures code { OnOk result (Adds self.old self.new (test_code c.now)) }
        ensures need { IfOk result (λ need. need ≡ test_need c.now) }
    {
        match c {
            Condition::Compare(comparison, a, b) => {
                let left = self.expression(a)?;
                let right = self.expression(b)?;
                self.put(Instr::Test(*comparison))?;
                Ok(left.max(above_one(right)?))
            }
            Condition::Not(c) => {
                let need = self.condition(c)?;
                self.put(Instr::NotTop)?;
                Ok(need)
            }
            Condition::And(before, last) => {
                let operands = self.operands(Connective::And, before)?;
                let need = self.condition(last)?;
                self.close(Connective::And, &operands.jumps)?;
                Ok(operands.need.max(need))
            }
            Condition::Or(before, last) => {
                let operands = self.operands(Connective::Or, before)?;
                let need = self.condition(last)?;
                self.close(Connective::Or, &operands.jumps)?;
                Ok(operands.need.max(need))
            }
        }
    }

    // Appends the operands of `&&` or `||` except the last, each with a jump after it.
    #[cycle(condition)]
    fn operands(
        &mut self,
        connective: Connective,
        operands: &[Condition],
    ) -> Result<Operands, NoMemory>
        ensures code { OnOk result (Adds self.old self.new (blank connective operands.now)) }
        ensures jumps { IfOk result
            (λ put. put.jumps.items ≡ places (length self.old.instructions.items) operands.now) }
        ensures need { IfOk result (λ put. put.need ≡ conditions_need operands.now) }
    {
        let mut jumps = Vec::new(self.alloc);
        let mut need = 0;
        for operand in operands {
            let operand_need = self.condition(operand)?;
            need = need.max(operand_need);
            jumps.push(self.instructions.len())?;
            self.put(connective.jump(0))?;
        }
        Ok(Operands { jumps, need })
    }

    // Appends the end of `&&` or `||`: the target of these jumps, which the last operand skips.
    fn close(&mut self, connective: Connective, jumps: &[usize]) -> Result<(), NoMemory>
        requires { All (λ place. place < length self.old.instructions.items) jumps.now }
        ensures { OnOk result (self.new.instructions.items ≡ closed connective jumps.now self.old.instructions.items) }
    {
        self.put(Instr::Jump(1))?;
        self.point_to_end(connective, jumps);
        self.put(Instr::PushNumber(connective.decided()))
    }

    // Makes the jumps at these places skip past the last instruction.
    fn point_to_end(&mut self, connective: Connective, jumps: &[usize])
        requires { All (λ place. place < length self.old.instructions.items) jumps.now }
        ensures { PointsToEnd connective jumps.now self.old self.new }
    {
        let end = self.instructions.len();
        for place in jumps {
            self.instructions[*place] = connective.jump(end - *place - 1);
        }
    }

    /// Makes the instruction at `place` a jump past all that follows it if the condition is false.
    pub fn land(&mut self, place: usize)
        requires { place < length self.old.instructions.items }
        ensures { Lands place self.old self.new }
    {
        let over = self.instructions.len() - place - 1;
        self.instructions[place] = Instr::JumpIfFalse(over);
    }
}
