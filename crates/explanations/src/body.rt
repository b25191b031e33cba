//! The warnings on a body.

ghost use Rattle.std.specs.Prelude.{◌≡◌, ◌∷◌, [], IfOk, OnOk};
ghost use Rattle.std.specs.List.{flat_map, list_any};
ghost use Rattle.std.specs.Prelude.{map};
ghost use Rattle.syntax.specs.Views.{expr_of, ident, section_of, stmt_of, stmts_of};
ghost use Rattle.explanations.specs.Names.{all_in, read_among, writes};
ghost use Rattle.explanation_names.specs.Vars.{all_of};
ghost use Rattle.explanations.specs.Warnings.{a_local, subject_of, subjects_in};
ghost use Rattle.explanations.specs.Working.Found.{is_changed, is_named};
ghost use Rattle.explanations.specs.Working.Judged.{AddsWarnings, cells_of, loop_of};
ghost use Rattle.explanations.specs.Working.Values.{IsSetOf, stmt_at};

use crate::name_set::NameSet;
use crate::names::{push_expr, read_by, written};
use crate::program::Program;
use explanation::{Warned, Warning};
use explanation_names::vars::all_of;
use source::memory::NoMemory;
use syntax::tree::{Expr, Name, Section, Stmt, While};

/// The condition of a loop, and the names in it.
#[derive(Drop)]
struct Condition<'p, 'a> {
    program: &'p Program<'a>,
    expr: &'a Expr,
    /// All names in the condition.
    names: NameSet,
    /// Whether a cell has one of these names.
    has_cell: bool,
    ghost names_are: { IsSetOf (all_in (expr_of expr.now)) names },
    ghost cell: { has_cell ≡ list_any (is_named (all_in (expr_of expr.now))) (cells_of program.now) },
}

impl<'p, 'a> Condition<'p, 'a> {
    fn of(program: &'p Program<'a>, expr: &'a Expr) -> Result<Condition<'p, 'a>, NoMemory>
        ensures program { IfOk result (λ condition. condition.program.now ≡ program.entry.now) }
        ensures expr { IfOk result (λ condition. condition.expr.now ≡ expr.entry.now) }
    {
        let mut names = Vec::new(program.maker.alloc);
        push_expr(expr, true, &mut names)?;
        let has_cell = program.cells.has_some(&names);
        let names = NameSet::of(program.maker, &names)?;
        Ok(Condition {
            program,
            expr,
            names,
            has_cell,
        })
    }

    // Whether a statement itself may write a name of the condition.
    fn is_changed_by(&self, stmt: &Stmt) -> bool
        ensures { result ≡ list_any (is_named (all_in (expr_of self.now.expr.now)))
            (writes (cells_of self.now.program.now) (stmt_of stmt.now)) }
    {
        match stmt {
            Stmt::Assign(place, _) => self.names.contains(written(place)),
            Stmt::LetCall(_) => self.has_cell,
            Stmt::Call(_, _) => self.has_cell,
            Stmt::If(_) => false,
            Stmt::Let(_)
            | Stmt::LetOwned(_)
            | Stmt::Var(_)
            | Stmt::While(_)
            | Stmt::Print(_, _)
            | Stmt::Return(_, _) => false,
        }
    }

    // Whether one of the statements may write a name of the condition.
    fn is_changed(&self, all: &[&Stmt]) -> bool
        ensures { result ≡ list_any (is_named (all_in (expr_of self.now.expr.now)))
            (flat_map (writes (cells_of self.now.program.now)) (map stmt_at all.now)) }
    {
        for stmt in all {
            if self.is_changed_by(stmt) {
                return true;
            }
        }
        false
    }
}

/// Whether the body of a loop may write a name of its condition. The one error is a refused growth.
fn is_changing(program: &Program<'_>, repetition: &While) -> Result<bool, NoMemory>
    ensures { IfOk result (λ is. is ≡ is_changed (cells_of program.now) (expr_of repetition.now.condition)
        (stmts_of repetition.now.block.stmts.items)) }
{
    let condition = Condition::of(program, &repetition.condition)?;
    let all = all_of(program.maker.alloc, &repetition.block.stmts)?;
    Ok(condition.is_changed(&all))
}

/// A body, and the names that it reads.
#[derive(Drop)]
struct Body<'p, 'a> {
    program: &'p Program<'a>,
    stmts: &'a [Stmt],
    read: NameSet,
    ghost read_are: { IsSetOf (read_among (stmts_of stmts.now)) read },
}

impl<'p, 'a> Body<'p, 'a> {
    fn push_local(&self, name: &Name, warnings: &mut Vec<Warning>) -> Result<(), NoMemory>
        ensures { OnOk result (AddsWarnings self.now.program.now
            (a_local (stmts_of self.now.stmts.now) (ident name.now) ∷ []) warnings.old warnings.new) }
    {
        if self.read.contains(name) {
            return Ok(());
        }
        let text = String::from_str(self.program.maker.alloc, name.text.as_str())?;
        warnings.push(Warning {
            start: name.start as usize,
            what: Warned::UnusedLocal(text),
        })?;
        Ok(())
    }

    fn push_loop(&self, repetition: &While, warnings: &mut Vec<Warning>) -> Result<(), NoMemory>
        ensures { OnOk result
            (AddsWarnings self.now.program.now (loop_of repetition.now ∷ []) warnings.old warnings.new) }
    {
        if is_changing(self.program, repetition)? {
            return Ok(());
        }
        warnings.push(Warning {
            start: repetition.start.start as usize,
            what: Warned::UnchangedCondition,
        })?;
        Ok(())
    }

    // Appends the warning on what a statement itself is or declares, if it is warned of.
    fn push_of(&self, stmt: &Stmt, warnings: &mut Vec<Warning>) -> Result<(), NoMemory>
        ensures { OnOk result (AddsWarnings self.now.program.now
            (subject_of (stmts_of self.now.stmts.now) (stmt_of stmt.now)) warnings.old warnings.new) }
    {
        match stmt {
            Stmt::Let(local) => self.push_local(&local.name, warnings),
            Stmt::LetOwned(owned) => self.push_local(&owned.local.name, warnings),
            Stmt::LetCall(called) => self.push_local(&called.name, warnings),
            Stmt::Var(local) => self.push_local(&local.name, warnings),
            Stmt::While(repetition) => self.push_loop(repetition, warnings),
            Stmt::If(_) => Ok(()),
            Stmt::Assign(_, _) | Stmt::Print(_, _) | Stmt::Return(_, _) | Stmt::Call(_, _) => {
                Ok(())
            }
        }
    }

    // Appends the warnings on what statements themselves are or declare.
    fn push_all(&self, all: &[&Stmt], warnings: &mut Vec<Warning>) -> Result<(), NoMemory>
        ensures { OnOk result (AddsWarnings self.now.program.now
            (flat_map (subject_of (stmts_of self.now.stmts.now)) (map stmt_at all.now)) warnings.old warnings.new) }
    {
        for stmt in all {
            self.push_of(stmt, warnings)?;
        }
        Ok(())
    }
}

/// Appends the warnings on the body of a section or a helper. The one error is a refused growth.
pub fn push_body(
    program: &Program<'_>,
    section: &Section,
    warnings: &mut Vec<Warning>,
) -> Result<(), NoMemory>
    ensures { OnOk result (AddsWarnings program.now (subjects_in (section_of section.now)) warnings.old warnings.new) }
{
    let alloc = program.maker.alloc;
    let all = all_of(alloc, &section.body.stmts)?;
    let read = read_by(alloc, &all)?;
    let body = Body {
        program,
        stmts: &section.body.stmts,
        read: NameSet::of(program.maker, &read)?,
    };
    body.push_all(&all, warnings)
}
