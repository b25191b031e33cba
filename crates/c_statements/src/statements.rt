//! Writes the statements of a section as C text, a line each. The only error is a failed allocation.

ghost use Rattle.std.specs.Prelude.{◌≡◌, ◌++◌, OnOk, codes};
ghost use Rattle.c_language.specs.declared.statement.Statement.TheVariants.{Set, Assign, Check, TrapIf, StoreGlobal};
ghost use Rattle.c_language.specs.declared.statement.Statement.TheVariants.{StoreElement, StoreField, Print, GotoIf};
ghost use Rattle.c_language.specs.declared.statement.Statement.TheVariants.{ReturnValue};
ghost use Rattle.locks.specs.Texts.{AddsText};
ghost use Rattle.c_statements.specs.Statements as text;

use crate::names::push_temporary;
use crate::operands::OperandScope;
use c_language::statement::{
    Checked, Operand, RightSide, Statement, StructMember, Temporary, Test,
};
use core_lang::value::Trap;
use std::alloc::AllocError;

/// The macro that sets a variable to the sum, the difference or the product.
fn checked_word(checked: Checked) -> &'static str
    ensures { result.now ≡ text.checked_text checked }
{
    match checked {
        Checked::Sum => "AL_ADD(",
        Checked::Difference => "AL_SUB(",
        Checked::Product => "AL_MUL(",
    }
}

/// The begin of a jump that is taken if a value is true, or false.
fn on_word(on: bool) -> &'static str
    ensures { result.now ≡ text.on_text on }
{
    if on { "if (" } else { "if (!" }
}

/// Appends a jump to a label.
fn push_goto(out: &mut String, place: usize) -> Result<(), AllocError>
    ensures { OnOk result (AddsText (text.goto_text place) out.old out.new) }
{
    write!(out, "  goto L{place};\n")
}

/// Whether the operand is `NULL`.
fn is_null(operand: Operand) -> bool
    ensures { result ≡ text.is_null operand }
{
    matches!(operand, Operand::Null)
}

impl OperandScope<'_> {
    ghost use Rattle.c_statements.specs.Working.Views.{operand_of, test_of, condition_of, not_owned_of, printed_of, statement_of};

    // Appends an operand, with `words` after it.
    fn push_tested(&self, out: &mut String, operand: Operand, words: &str) -> Result<(), AllocError>
        ensures { OnOk result (AddsText (operand_of self.now operand ++ words.now) out.old out.new) }
    {
        self.push_operand(out, operand)?;
        out.push_str(words)
    }

    // Appends the test that an index is out of range, up to the length.
    fn push_outside(&self, out: &mut String, index: Operand) -> Result<(), AllocError>
        ensures { OnOk result (AddsText (codes "AL_OUT(" ++ operand_of self.now index ++ codes ", ") out.old out.new) }
    {
        out.push_str("AL_OUT(")?;
        self.push_tested(out, index, ", ")
    }

    // Appends the test that a reference has another owner than a local. `NULL` has none, and can't be followed.
    fn push_not_owned(
        &self,
        out: &mut String,
        base: Operand,
        member: StructMember,
        local: usize,
    ) -> Result<(), AllocError>
        ensures { OnOk result (AddsText (not_owned_of self.now base member local) out.old out.new) }
    {
        if is_null(base) {
            return out.push_str("0");
        }
        self.push_tested(out, base, " != NULL && ")?;
        self.push_operand(out, base)?;
        self.push_final(out, member)?;
        out.push_str(" != ")?;
        self.push_variable(out, local)
    }

    // Appends the condition of the `if` before a trap.
    fn push_condition(&self, out: &mut String, test: Test) -> Result<(), AllocError>
        ensures { OnOk result (AddsText (condition_of self.now test) out.old out.new) }
    {
        match test {
            Test::IsZero(value) => self.push_tested(out, value, " == 0"),
            Test::IsLeast(value) => self.push_tested(out, value, " == INT64_MIN"),
            Test::IsLeastByMinusOne(left, right) => {
                self.push_tested(out, left, " == INT64_MIN && ")?;
                self.push_tested(out, right, " == -1")
            }
            Test::IsNotOwned(base, member, local) => self.push_not_owned(out, base, member, local),
            Test::IsNull(_) | Test::IsNoElement(_, _) | Test::IsNoMember(_, _) => Ok(()),
        }
    }

    // Appends that `if`, up to the number of the trap.
    fn push_rare(&self, out: &mut String, test: Test) -> Result<(), AllocError>
        ensures { OnOk result (AddsText (text.rare_text (condition_of self.now test)) out.old out.new) }
    {
        out.push_str("if (AL_RARE(")?;
        self.push_condition(out, test)?;
        out.push_str(")) AL_TRAP(")
    }

    /// Appends the test before a trap, up to the number of the trap.
    pub fn push_test(&self, out: &mut String, test: Test) -> Result<(), AllocError>
        ensures { OnOk result (AddsText (test_of self.now test) out.old out.new) }
    {
        match test {
            Test::IsNull(value) => {
                out.push_str("AL_NULL(")?;
                self.push_tested(out, value, ", ")
            }
            Test::IsNoElement(array, index) => {
                self.push_outside(out, index)?;
                self.push_array_length(out, array)?;
                out.push_str(", ")
            }
            Test::IsNoMember(pool, index) => {
                self.push_outside(out, index)?;
                self.push_pool_length(out, pool)?;
                out.push_str(", ")
            }
            _ => self.push_rare(out, test),
        }
    }

    // Appends the assignment to a temporary.
    fn push_set(
        &self,
        out: &mut String,
        temporary: Temporary,
        value: RightSide,
    ) -> Result<(), AllocError>
        ensures { OnOk result (AddsText (statement_of self.now (Set temporary value)) out.old out.new) }
    {
        out.push_str("  ")?;
        push_temporary(out, self.program, temporary)?;
        out.push_str(" = ")?;
        self.push_right(out, value)?;
        out.push_str(";\n")
    }

    // Appends the right side of an assignment of an operand.
    fn push_assigned(&self, out: &mut String, value: Operand) -> Result<(), AllocError>
        ensures { OnOk result (AddsText (codes " = " ++ operand_of self.now value ++ codes ";\n") out.old out.new) }
    {
        out.push_str(" = ")?;
        self.push_operand(out, value)?;
        out.push_str(";\n")
    }

    // Appends the assignment to a local.
    fn push_assign(&self, out: &mut String, local: usize, value: Operand) -> Result<(), AllocError>
        ensures { OnOk result (AddsText (statement_of self.now (Assign local value)) out.old out.new) }
    {
        out.push_str("  ")?;
        self.push_variable(out, local)?;
        self.push_assigned(out, value)
    }

    // Appends the assignment to a temporary that is checked to fit into 64 bits.
    fn push_check(
        &self,
        out: &mut String,
        checked: Checked,
        temporary: Temporary,
        operands: (Operand, Operand),
    ) -> Result<(), AllocError>
        ensures { OnOk result (AddsText (statement_of self.now (Check checked temporary operands.0 operands.1))
            out.old out.new) }
    {
        let (left, right) = operands;
        out.push_str("  ")?;
        out.push_str(checked_word(checked))?;
        push_temporary(out, self.program, temporary)?;
        out.push_str(", ")?;
        self.push_between(out, left, ", ", right)?;
        out.push_str(");\n")
    }

    // Appends a trap with its test.
    fn push_trap(&self, out: &mut String, test: Test, trap: Trap) -> Result<(), AllocError>
        ensures { OnOk result (AddsText (statement_of self.now (TrapIf test trap)) out.old out.new) }
    {
        out.push_str("  ")?;
        self.push_test(out, test)?;
        let number = trap.number();
        write!(out, "{number});\n")
    }

    // Appends the assignment to a global.
    fn push_store_global(
        &self,
        out: &mut String,
        cell: u32,
        value: Operand,
    ) -> Result<(), AllocError>
        ensures { OnOk result (AddsText (statement_of self.now (StoreGlobal cell value)) out.old out.new) }
    {
        out.push_str("  ")?;
        self.push_global(out, cell)?;
        self.push_assigned(out, value)
    }

    // Appends the assignment to an element of an array.
    fn push_store_element(
        &self,
        out: &mut String,
        array: usize,
        index: Operand,
        value: Operand,
    ) -> Result<(), AllocError>
        ensures { OnOk result (AddsText (statement_of self.now (StoreElement array index value)) out.old out.new) }
    {
        out.push_str("  ")?;
        self.push_element(out, array, index)?;
        self.push_assigned(out, value)
    }

    // Appends the assignment to a field.
    fn push_store_field(
        &self,
        out: &mut String,
        base: Operand,
        member: StructMember,
        value: Operand,
    ) -> Result<(), AllocError>
        ensures { OnOk result (AddsText (statement_of self.now (StoreField base member value)) out.old out.new) }
    {
        out.push_str("  ")?;
        self.push_operand(out, base)?;
        self.push_field(out, member)?;
        self.push_assigned(out, value)
    }

    // Appends the store of a printed number after the others, if the caller wants the prints.
    fn push_printed(&self, out: &mut String, value: Operand) -> Result<(), AllocError>
        ensures { OnOk result (AddsText (printed_of self.now value) out.old out.new) }
    {
        out.push_str("  if (out != NULL) out->value[prints]")?;
        self.push_assigned(out, value)
    }

    // Appends the print of a number.
    fn push_print(&self, out: &mut String, value: Operand) -> Result<(), AllocError>
        ensures { OnOk result (AddsText (statement_of self.now (Print value)) out.old out.new) }
    {
        out.push_str("  if (AL_RARE(prints == 256)) AL_TRAP(6);\n")?;
        self.push_printed(out, value)?;
        out.push_str("  prints++;\n")
    }

    // Appends a jump that is taken if an operand is true, or false.
    fn push_goto_if(
        &self,
        out: &mut String,
        on: bool,
        value: Operand,
        place: usize,
    ) -> Result<(), AllocError>
        ensures { OnOk result (AddsText (statement_of self.now (GotoIf on value place)) out.old out.new) }
    {
        out.push_str("  ")?;
        out.push_str(on_word(on))?;
        self.push_operand(out, value)?;
        write!(out, ") goto L{place};\n")
    }

    // Appends the section's result.
    fn push_return(&self, out: &mut String, value: Operand) -> Result<(), AllocError>
        ensures { OnOk result (AddsText (statement_of self.now (ReturnValue value)) out.old out.new) }
    {
        out.push_str("  value")?;
        self.push_assigned(out, value)?;
        out.push_str("  goto end;\n")
    }

    /// Appends a statement.
    pub fn push_statement(&self, out: &mut String, statement: Statement) -> Result<(), AllocError>
        ensures { OnOk result (AddsText (statement_of self.now statement) out.old out.new) }
    {
        match statement {
            Statement::Set(temporary, value) => self.push_set(out, temporary, value),
            Statement::Assign(local, value) => self.push_assign(out, local, value),
            Statement::Check(checked, temporary, left, right) => {
                self.push_check(out, checked, temporary, (left, right))
            }
            Statement::TrapIf(test, trap) => self.push_trap(out, test, trap),
            Statement::StoreGlobal(cell, value) => self.push_store_global(out, cell, value),
            Statement::StoreElement(array, index, value) => {
                self.push_store_element(out, array, index, value)
            }
            Statement::StoreField(base, member, value) => {
                self.push_store_field(out, base, member, value)
            }
            Statement::Print(value) => self.push_print(out, value),
            Statement::Goto(place) => push_goto(out, place),
            Statement::GotoIf(on, value, place) => self.push_goto_if(out, on, value, place),
            Statement::ReturnValue(value) => self.push_return(out, value),
            Statement::Finish => out.push_str("  goto end;\n"),
        }
    }
}
