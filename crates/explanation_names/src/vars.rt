//! Which `var` a name is, and whether it is assigned.

ghost use Rattle.std.specs.Prelude.{◌≡◌, ◌&&◌, ◌++◌, IfOk, OnOk, map};
ghost use Rattle.std.specs.Option.{option_map};
ghost use Rattle.syntax.specs.Views.{decl_of, else_of, place_of, section_of, stmt_of, stmts_of};
ghost use Rattle.explanation_names.specs.FirstBy.{first_by};
ghost use Rattle.explanation_names.specs.Vars.{all_of, behind, within};
ghost use Rattle.explanation_names.specs.Working.VarsFound.{assigns, encloses, is_named, section_if, section_there, some_assigns, var_in};
ghost use Rattle.explanation_names.specs.Working.Values.{ident_at};
ghost use Rattle.explanation_names.specs.Working.Viewed.{section_at, stmt_at};

use crate::missing_returns::body_of;
use source::memory::NoMemory;
use std::alloc::Global;
use syntax::tree::{Block, Decl, Name, Place, Section, Stmt};

#[cycle(statements)]
fn push_all<'a>(stmts: &'a [Stmt], all: &mut Vec<&'a Stmt>) -> Result<(), NoMemory>
    ensures { OnOk result (map stmt_at all.new.items ≡ map stmt_at all.old.items ++ all_of (stmts_of stmts.now)) }
{
    for stmt in stmts {
        all.push(stmt)?;
        push_within(stmt, all)?;
    }
    Ok(())
}

// Appends the statements of the blocks of a statement.
#[cycle(statements)]
fn push_within<'a>(stmt: &'a Stmt, all: &mut Vec<&'a Stmt>) -> Result<(), NoMemory>
    ensures { OnOk result (map stmt_at all.new.items ≡ map stmt_at all.old.items ++ within (stmt_of stmt.now)) }
{
    match stmt {
        Stmt::If(choice) => {
            push_all(&choice.block.stmts, all)?;
            push_behind(&choice.otherwise, all)?;
        }
        Stmt::While(repetition) => push_all(&repetition.block.stmts, all)?,
        Stmt::Let(_)
        | Stmt::LetOwned(_)
        | Stmt::LetCall(_)
        | Stmt::Var(_)
        | Stmt::Assign(_, _)
        | Stmt::Print(_, _)
        | Stmt::Return(_, _)
        | Stmt::Call(_, _) => {}
    }
    Ok(())
}

#[cycle(statements)]
fn push_behind<'a>(other: &'a Option<Block>, all: &mut Vec<&'a Stmt>) -> Result<(), NoMemory>
    ensures { OnOk result (map stmt_at all.new.items ≡ map stmt_at all.old.items ++ behind (else_of other.now)) }
{
    match other {
        None => Ok(()),
        Some(block) => push_all(&block.stmts, all),
    }
}

/// All statements of a block, those of its blocks included, in the order of the text. The only error is a failed
/// allocation.
pub fn all_of<'a>(alloc: Global, stmts: &'a [Stmt]) -> Result<Vec<&'a Stmt>, NoMemory>
    ensures { IfOk result (λ all. map stmt_at all.items ≡ all_of (stmts_of stmts.now)) }
{
    let mut all = Vec::new(alloc);
    push_all(stmts, &mut all)?;
    Ok(all)
}

/// The name of a `var`, if it is this one.
fn var_in<'a>(text: &str, stmt: &'a Stmt) -> Option<&'a Name>
    ensures { option_map ident_at result ≡ var_in text.now (stmt_of stmt.now) }
{
    match stmt {
        Stmt::Var(local) => {
            if text == local.name.text.as_str() {
                Some(&local.name)
            } else {
                None
            }
        }
        _ => None,
    }
}

/// The name of the first `var` of this name.
pub fn var_named<'a>(text: &str, all: &[&'a Stmt]) -> Option<&'a Name>
    ensures { option_map ident_at result ≡ first_by (var_in text.now) (map stmt_at all.now) }
{
    for stmt in all {
        if let Some(name) = var_in(text, stmt) {
            return Some(name);
        }
    }
    None
}

fn is_named(text: &str, place: &Place) -> bool
    ensures { result ≡ is_named text.now (place_of place.now) }
{
    match place {
        Place::Name(name) => text == name.text.as_str(),
        Place::Element(_) | Place::Path(_) => false,
    }
}

fn assigns(text: &str, stmt: &Stmt) -> bool
    ensures { result ≡ assigns text.now (stmt_of stmt.now) }
{
    match stmt {
        Stmt::Assign(place, _) => is_named(text, place),
        _ => false,
    }
}

/// Whether some statement assigns to the name.
pub fn some_assigns(text: &str, all: &[&Stmt]) -> bool
    ensures { result ≡ some_assigns text.now (map stmt_at all.now) }
{
    for stmt in all {
        if assigns(text, stmt) {
            return true;
        }
    }
    false
}

fn encloses(at: usize, section: &Section) -> bool
    ensures { result ≡ encloses at (section_of section.now) }
{
    (section.name.start as usize) < at && at < section.body.close.start as usize
}

fn section_if(at: usize, decl: &Decl) -> Option<&Section>
    ensures { option_map section_at result ≡ section_if at (decl_of decl.now) }
{
    let section = body_of(decl)?;
    if encloses(at, section) {
        Some(section)
    } else {
        None
    }
}

/// The section or helper that a place is in.
pub fn section_there(decls: &[Decl], at: usize) -> Option<&Section>
    ensures { option_map section_at result ≡ section_there (map decl_of decls.now) at }
{
    for decl in decls {
        if let Some(section) = section_if(at, decl) {
            return Some(section);
        }
    }
    None
}
