//! The names that must differ from each other.

ghost use Rattle.std.specs.Prelude.{◌≡◌, ◌++◌, IfOk, OnOk, map};
ghost use Rattle.std.specs.List.{filter_map};
ghost use Rattle.std.specs.Option.{option_map};
ghost use Rattle.syntax.specs.Views.{class_name_of, decl_of, ident, section_of, stmt_of};
ghost use Rattle.explanation_names.specs.NameSpaces.{classes_in, inner_names, local_names, top_names};
ghost use Rattle.explanation_names.specs.Working.Viewed.{bound_name, member_names, name_of_member, param_names, stmt_at};
ghost use Rattle.explanation_names.specs.Working.Values.{ident_at, idents};

use crate::sought::declared;
use crate::vars::all_of;
use source::memory::NoMemory;
use std::alloc::Global;
use syntax::tree::{ClassName, Decl, Member, Name, Param, Section, Stmt};

/// The names of the top level.
pub fn top_names_of<'a>(alloc: Global, decls: &'a [Decl]) -> Result<Vec<&'a Name>, NoMemory>
    ensures { IfOk result (λ names. idents names.items ≡ top_names (map decl_of decls.now)) }
{
    let mut names = Vec::new(alloc);
    for decl in decls {
        if let Some(name) = declared(decl) {
            names.push(name)?;
        }
    }
    Ok(names)
}

/// The name of a member.
pub fn member_name(member: &Member) -> &Name
    ensures { ident result.now ≡ name_of_member member.now }
{
    match member {
        Member::Lock(name) => name,
        Member::Final(reference) => &reference.name,
        Member::Field(field) => &field.name,
    }
}

/// Adds the names of members.
pub fn push_members<'a>(members: &'a [Member], names: &mut Vec<&'a Name>) -> Result<(), NoMemory>
    ensures { OnOk result (idents names.new.items ≡ idents names.old.items ++ member_names members.now) }
{
    for member in members {
        names.push(member_name(member))?;
    }
    Ok(())
}

/// The name that a statement itself binds.
fn bound_name(stmt: &Stmt) -> Option<&Name>
    ensures { option_map ident_at result ≡ bound_name (stmt_of stmt.now) }
{
    match stmt {
        Stmt::Let(local) => Some(&local.name),
        Stmt::LetOwned(owned) => Some(&owned.local.name),
        Stmt::LetCall(called) => Some(&called.name),
        Stmt::Var(local) => Some(&local.name),
        Stmt::If(_) => None,
        Stmt::While(_)
        | Stmt::Assign(_, _)
        | Stmt::Print(_, _)
        | Stmt::Return(_, _)
        | Stmt::Call(_, _) => None,
    }
}

/// Adds the names that statements bind.
fn push_bound<'a>(all: &[&'a Stmt], names: &mut Vec<&'a Name>) -> Result<(), NoMemory>
    ensures { OnOk result
        (idents names.new.items ≡ idents names.old.items ++ filter_map bound_name (map stmt_at all.now)) }
{
    for stmt in all {
        if let Some(name) = bound_name(stmt) {
            names.push(name)?;
        }
    }
    Ok(())
}

/// Adds the names of parameters.
pub fn push_params<'a>(params: &'a [Param], names: &mut Vec<&'a Name>) -> Result<(), NoMemory>
    ensures { OnOk result (idents names.new.items ≡ idents names.old.items ++ param_names params.now) }
{
    for param in params {
        names.push(&param.name)?;
    }
    Ok(())
}

/// Adds the names of the parameters and locals of a section.
pub fn push_locals<'a>(
    alloc: Global,
    section: &'a Section,
    names: &mut Vec<&'a Name>,
) -> Result<(), NoMemory>
    ensures { OnOk result (idents names.new.items ≡ idents names.old.items ++ local_names (section_of section.now)) }
{
    push_params(&section.params, names)?;
    let all = all_of(alloc, &section.body.stmts)?;
    push_bound(&all, names)
}

fn push_inner<'a>(alloc: Global, decl: &'a Decl, names: &mut Vec<&'a Name>) -> Result<(), NoMemory>
    ensures { OnOk result (idents names.new.items ≡ idents names.old.items ++ inner_names (decl_of decl.now)) }
{
    match decl {
        Decl::Struct(structure) => push_members(&structure.members, names),
        Decl::Atomic(section) => push_locals(alloc, section, names),
        Decl::Helper(section) => push_locals(alloc, section, names),
        Decl::Lock(_)
        | Decl::Global(_)
        | Decl::Array(_)
        | Decl::Pool(_)
        | Decl::Init(_)
        | Decl::Thread(_) => Ok(()),
    }
}

/// The names inside a declaration.
pub fn inner_names_of<'a>(alloc: Global, decl: &'a Decl) -> Result<Vec<&'a Name>, NoMemory>
    ensures { IfOk result (λ names. idents names.items ≡ inner_names (decl_of decl.now)) }
{
    let mut names = Vec::new(alloc);
    push_inner(alloc, decl, &mut names)?;
    Ok(names)
}

/// The lock classes that a section or a helper lists.
pub fn classes_in(decl: &Decl) -> &[ClassName]
    ensures { map class_name_of result.now ≡ classes_in (decl_of decl.now) }
{
    match decl {
        Decl::Atomic(section) => &section.listed,
        Decl::Helper(section) => &section.listed,
        Decl::Lock(_)
        | Decl::Struct(_)
        | Decl::Global(_)
        | Decl::Array(_)
        | Decl::Pool(_)
        | Decl::Init(_)
        | Decl::Thread(_) => &[],
    }
}
