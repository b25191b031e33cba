//! The accesses of a section to cells and locals, in the order of its text.

ghost use Rattle.std.specs.Prelude.{◌≡◌, ◌++◌, IfOk, OnOk};
ghost use Rattle.outcomes.specs.Working.Touches.{reads_in, tests_in, acts_in, acts_in_all};
ghost use Rattle.outcomes.specs.Working.Listing.{touches, IsListed};

use core_lang::tree::{Action, Condition, Expr, Path, Section, Stmt};
use source::memory::NoMemory;
use std::alloc::Global;

/// An access of a section.
#[derive(Clone, Copy)]
pub enum Access<'a> {
    /// The fields on a path are read.
    Path(&'a Path),
    /// A global is read.
    Cell(u32),
    /// An element of an array is read.
    Element(usize, &'a Expr),
    /// A local is written.
    Local(usize),
    /// A global is written.
    SetCell(u32),
    /// An element of an array is written.
    SetElement(usize, &'a Expr),
    /// A field of the object at the end of a path is written, and the fields on the path are read.
    SetField(&'a Path, u32),
    /// A helper is called.
    Call,
}

/// The part of a section that matters for the cells that its calls touch.
#[derive(Drop)]
pub struct AccessWalk<'a> {
    /// The number of arguments of a call.
    pub parameters: usize,
    /// The accesses of the section.
    pub accesses: Vec<Access<'a>>,
}

/// The accesses of `section`. The only error is `NoMemory`.
pub fn body_of<'a>(alloc: Global, section: &'a Section) -> Result<AccessWalk<'a>, NoMemory>
    ensures { IfOk result (λ body. IsListed body section.now) }
{
    let mut accesses = Vec::new(alloc);
    push_statements(&section.body, &mut accesses)?;
    if let Some(result) = &section.result {
        push_reads(&result.value, &mut accesses)?;
    }
    Ok(AccessWalk {
        parameters: section.parameters,
        accesses,
    })
}

#[cycle(reads)]
fn push_reads<'a>(e: &'a Expr, list: &mut Vec<Access<'a>>) -> Result<(), NoMemory>
    ensures { OnOk result (touches list.new.items ≡ touches list.old.items ++ reads_in e.now) }
{
    match e {
        Expr::Number(_) | Expr::Null => {}
        Expr::Place(path) => list.push(Access::Path(path))?,
        Expr::Global { cell, .. } => list.push(Access::Cell(*cell))?,
        Expr::Element { array, index, .. } => {
            push_reads(index, list)?;
            list.push(Access::Element(*array, index))?;
        }
        Expr::Member { index, .. } => push_reads(index, list)?,
        Expr::Negate(e) => push_reads(e, list)?,
        Expr::Owned { value, .. } => push_reads(value, list)?,
        Expr::Chain { first, rest } => {
            push_reads(first, list)?;
            for operation in rest {
                push_reads(&operation.operand, list)?;
            }
        }
    }
    Ok(())
}

#[cycle(tests)]
fn push_tests<'a>(c: &'a Condition, list: &mut Vec<Access<'a>>) -> Result<(), NoMemory>
    ensures { OnOk result (touches list.new.items ≡ touches list.old.items ++ tests_in c.now) }
{
    match c {
        Condition::Compare(_, a, b) => {
            push_reads(a, list)?;
            push_reads(b, list)?;
        }
        Condition::Not(c) => push_tests(c, list)?,
        Condition::And(before, last) | Condition::Or(before, last) => {
            for c in before {
                push_tests(c, list)?;
            }
            push_tests(last, list)?;
        }
    }
    Ok(())
}

#[cycle(acts)]
fn push_statements<'a>(statements: &'a [Stmt], list: &mut Vec<Access<'a>>) -> Result<(), NoMemory>
    ensures { OnOk result (touches list.new.items ≡ touches list.old.items ++ acts_in_all statements.now) }
{
    for statement in statements {
        push_action(&statement.action, list)?;
    }
    Ok(())
}

#[cycle(acts)]
fn push_action<'a>(action: &'a Action, list: &mut Vec<Access<'a>>) -> Result<(), NoMemory>
    ensures { OnOk result (touches list.new.items ≡ touches list.old.items ++ acts_in action.now) }
{
    match action {
        Action::Bind { local, value } | Action::SetLocal { local, value } => {
            list.push(Access::Local(*local))?;
            push_reads(value, list)?;
        }
        Action::SetGlobal { cell, value } => {
            list.push(Access::SetCell(*cell))?;
            push_reads(value, list)?;
        }
        Action::SetElement {
            array,
            index,
            value,
        } => {
            list.push(Access::SetElement(*array, index))?;
            push_reads(index, list)?;
            push_reads(value, list)?;
        }
        Action::SetField {
            base,
            field,
            value,
            ..
        } => {
            list.push(Access::SetField(base, *field))?;
            push_reads(value, list)?;
        }
        Action::Call { .. } => list.push(Access::Call)?,
        Action::Print(value) => push_reads(value, list)?,
        Action::If { condition, block } => {
            push_tests(condition, list)?;
            push_statements(block, list)?;
        }
        Action::IfElse {
            condition,
            block,
            otherwise,
        } => {
            push_tests(condition, list)?;
            push_statements(block, list)?;
            push_statements(otherwise, list)?;
        }
        Action::While { condition, body } => {
            push_tests(condition, list)?;
            push_statements(body, list)?;
        }
    }
    Ok(())
}
