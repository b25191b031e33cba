//! The operands of a section's statements as C text. The only error is a failed allocation.

ghost use Rattle.std.specs.Prelude.{◌≡◌, ◌++◌, [], OnOk};
ghost use Rattle.c_language.specs.declared.statement.RightSide.TheVariants.{Member};
ghost use Rattle.locks.specs.Texts.{AddsText};
ghost use Rattle.c_statements.specs.Names as names;
ghost use Rattle.c_statements.specs.Statements as text;

use crate::names::{push_local, push_number, push_temporary};
use c_language::statement::{Operand, RightSide, StructMember};
use core_lang::tree::{Comparison, Section};
use core_lang::typed::{CellOwner, Struct, Typed};
use locks::text::push_class;
use std::alloc::AllocError;

/// The sign of a comparison, with spaces.
fn comparison_word(comparison: Comparison) -> &'static str
    ensures { result.now ≡ text.comparison_text comparison }
{
    match comparison {
        Comparison::Equal => " == ",
        Comparison::NotEqual => " != ",
        Comparison::Less => " < ",
        Comparison::LessOrEqual => " <= ",
        Comparison::Greater => " > ",
        Comparison::GreaterOrEqual => " >= ",
    }
}

/// Appends the name of a struct's field.
fn push_field_of(out: &mut String, structure: &Struct, number: usize) -> Result<(), AllocError>
    ensures { OnOk result (AddsText (names.field_of structure.now number) out.old out.new) }
{
    match structure.fields.get(number) {
        Some(field) => out.push_str(field.name.as_str()),
        None => Ok(()),
    }
}

/// Appends the name of a struct's final reference.
fn push_final_of(out: &mut String, structure: &Struct, number: usize) -> Result<(), AllocError>
    ensures { OnOk result (AddsText (names.final_of structure.now number) out.old out.new) }
{
    match structure.finals.get(number) {
        Some(field) => out.push_str(field.name.as_str()),
        None => Ok(()),
    }
}

/// A section and its program, which have the names.
#[derive(Clone, Copy)]
pub struct OperandScope<'a> {
    /// The program.
    pub program: &'a Typed,
    /// The section.
    pub section: &'a Section,
}

impl OperandScope<'_> {
    ghost use Rattle.c_statements.specs.Working.Views.{operand_of, right_of, indexed_of};

    /// Appends a parameter or local, as `v3_moved`.
    pub fn push_variable(&self, out: &mut String, local: usize) -> Result<(), AllocError>
        ensures { OnOk result (AddsText (names.variable_text self.now.section.now local) out.old out.new) }
    {
        match self.section.locals.get(local) {
            Some(found) => push_local(out, local, found),
            None => Ok(()),
        }
    }

    /// Appends the member of the state for a global lock, as `s->g_G`.
    pub fn push_lock_member(&self, out: &mut String, class: usize) -> Result<(), AllocError>
        ensures { OnOk result (AddsText (names.lock_member self.now.program.now class) out.old out.new) }
    {
        out.push_str("s->g_")?;
        push_class(out, self.program, class)
    }

    // Appends a global that a global lock protects, as `s->g_G.x_n`.
    fn push_under_lock(&self, out: &mut String, class: usize, name: &str) -> Result<(), AllocError>
        ensures { OnOk result (AddsText (names.under_lock self.now.program.now class name.now) out.old out.new) }
    {
        self.push_lock_member(out, class)?;
        out.push_str(".x_")?;
        out.push_str(name)
    }

    // Appends the global that owns a cell, if its owner is a global that is not an array.
    fn push_owner(&self, out: &mut String, owner: CellOwner) -> Result<(), AllocError>
        ensures { OnOk result (AddsText (names.owner_text self.now.program.now owner) out.old out.new) }
    {
        let CellOwner::Global(global) = owner else {
            return Ok(());
        };
        match self.program.globals.get(global) {
            Some(global) => self.push_under_lock(out, global.class, global.name.as_str()),
            None => Ok(()),
        }
    }

    /// Appends the global that has a cell.
    pub fn push_global(&self, out: &mut String, cell: u32) -> Result<(), AllocError>
        ensures { OnOk result (AddsText (names.global_text self.now.program.now cell) out.old out.new) }
    {
        match self.program.cells.get(cell as usize) {
            Some(cell) => self.push_owner(out, cell.owner),
            None => Ok(()),
        }
    }

    /// Appends an array.
    pub fn push_array(&self, out: &mut String, array: usize) -> Result<(), AllocError>
        ensures { OnOk result (AddsText (names.array_text self.now.program.now array) out.old out.new) }
    {
        match self.program.shape.arrays.get(array) {
            Some(array) => self.push_under_lock(out, array.class, array.name.as_str()),
            None => Ok(()),
        }
    }

    // Appends a pool.
    fn push_pool(&self, out: &mut String, pool: usize) -> Result<(), AllocError>
        ensures { OnOk result (AddsText (names.pool_text self.now.program.now pool) out.old out.new) }
    {
        out.push_str("s->p_")?;
        match self.program.shape.pools.get(pool) {
            Some(pool) => out.push_str(pool.name.as_str()),
            None => Ok(()),
        }
    }

    /// Appends the length of an array.
    pub fn push_array_length(&self, out: &mut String, array: usize) -> Result<(), AllocError>
        ensures { OnOk result (AddsText (names.array_length self.now.program.now array) out.old out.new) }
    {
        match self.program.shape.arrays.get(array) {
            Some(array) => write!(out, "{}", array.length),
            None => Ok(()),
        }
    }

    /// Appends the length of a pool.
    pub fn push_pool_length(&self, out: &mut String, pool: usize) -> Result<(), AllocError>
        ensures { OnOk result (AddsText (names.pool_length self.now.program.now pool) out.old out.new) }
    {
        match self.program.shape.pools.get(pool) {
            Some(pool) => write!(out, "{}", pool.length),
            None => Ok(()),
        }
    }

    /// Appends a field, after the pointer to its object.
    pub fn push_field(&self, out: &mut String, member: StructMember) -> Result<(), AllocError>
        ensures { OnOk result (AddsText (names.field_text self.now.program.now member) out.old out.new) }
    {
        out.push_str("->f_")?;
        match self.program.structs.get(member.structure) {
            Some(structure) => push_field_of(out, structure, member.number as usize),
            None => Ok(()),
        }
    }

    /// Appends a final reference, after the pointer to its object.
    pub fn push_final(&self, out: &mut String, member: StructMember) -> Result<(), AllocError>
        ensures { OnOk result (AddsText (names.final_text self.now.program.now member) out.old out.new) }
    {
        out.push_str("->f_")?;
        match self.program.structs.get(member.structure) {
            Some(structure) => push_final_of(out, structure, member.number as usize),
            None => Ok(()),
        }
    }

    /// Appends an operand.
    pub fn push_operand(&self, out: &mut String, operand: Operand) -> Result<(), AllocError>
        ensures { OnOk result (AddsText (operand_of self.now operand) out.old out.new) }
    {
        match operand {
            Operand::Variable(local) => self.push_variable(out, local),
            Operand::Temporary(temporary) => push_temporary(out, self.program, temporary),
            Operand::Number(number) => push_number(out, number),
            Operand::Null => out.push_str("NULL"),
        }
    }

    // Appends an index in brackets.
    fn push_index(&self, out: &mut String, index: Operand) -> Result<(), AllocError>
        ensures { OnOk result (AddsText (indexed_of self.now [] index) out.old out.new) }
    {
        out.push_str("[")?;
        self.push_operand(out, index)?;
        out.push_str("]")
    }

    /// Appends an element of an array.
    pub fn push_element(
        &self,
        out: &mut String,
        array: usize,
        index: Operand,
    ) -> Result<(), AllocError>
        ensures { OnOk result (AddsText (indexed_of self.now
            (names.array_text self.now.program.now array) index) out.old out.new) }
    {
        self.push_array(out, array)?;
        self.push_index(out, index)
    }

    // Appends the address of a member of a pool.
    fn push_member(&self, out: &mut String, pool: usize, index: Operand) -> Result<(), AllocError>
        ensures { OnOk result (AddsText (right_of self.now (Member pool index))
            out.old out.new) }
    {
        out.push_str("&")?;
        self.push_pool(out, pool)?;
        self.push_index(out, index)
    }

    /// Appends two operands with `word` between them.
    pub fn push_between(
        &self,
        out: &mut String,
        left: Operand,
        word: &str,
        right: Operand,
    ) -> Result<(), AllocError>
        ensures { OnOk result (AddsText (operand_of self.now left
            ++ word.now ++ operand_of self.now right) out.old out.new) }
    {
        self.push_operand(out, left)?;
        out.push_str(word)?;
        self.push_operand(out, right)
    }

    // Appends an operand after a sign.
    fn push_signed(&self, out: &mut String, sign: &str, value: Operand) -> Result<(), AllocError>
        ensures { OnOk result (AddsText (sign.now ++ operand_of self.now value)
            out.old out.new) }
    {
        out.push_str(sign)?;
        self.push_operand(out, value)
    }

    /// Appends a right side.
    pub fn push_right(&self, out: &mut String, value: RightSide) -> Result<(), AllocError>
        ensures { OnOk result (AddsText (right_of self.now value) out.old out.new) }
    {
        match value {
            RightSide::Same(value) => self.push_operand(out, value),
            RightSide::Negative(value) => self.push_signed(out, "-", value),
            RightSide::Quotient(left, right) => self.push_between(out, left, " / ", right),
            RightSide::Remainder(left, right) => self.push_between(out, left, " % ", right),
            RightSide::Compares(comparison, left, right) => {
                self.push_between(out, left, comparison_word(comparison), right)
            }
            RightSide::Inverse(value) => self.push_signed(out, "!", value),
            RightSide::Global(cell) => self.push_global(out, cell),
            RightSide::Element(array, index) => self.push_element(out, array, index),
            RightSide::Member(pool, index) => self.push_member(out, pool, index),
            RightSide::Field(base, member) => {
                self.push_operand(out, base)?;
                self.push_field(out, member)
            }
            RightSide::Final(base, member) => {
                self.push_operand(out, base)?;
                self.push_final(out, member)
            }
        }
    }
}
