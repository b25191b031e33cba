//! The limit on declarations, members or locals that is exceeded.

ghost use Rattle.std.specs.Prelude.{◌≡◌, ◌++◌, IfOk, OnOk, map};
ghost use Rattle.std.specs.List.{filter_map, flat_map};
ghost use Rattle.std.specs.Option.{option_map};
ghost use Rattle.syntax.specs.Trees.{atomic, struct};
ghost use Rattle.syntax.specs.Views.{decl_of, member_of, section_of, struct_of};
ghost use Rattle.explanation_faults.specs.Working.LimitsFound.{is_past, limit_in, limit_of_all, limit_passed, some_starts};
ghost use Rattle.explanation_faults.specs.LimitsPassed.{lock_names, own_lock_names};
ghost use Rattle.explanation_names.specs.Working.Values.{ident_at, idents};
ghost use Rattle.explanation_faults.specs.Working.Values.{kind_name};
ghost use Rattle.explanation_names.specs.Working.Viewed.{text_at};

use crate::locks_at_hand::own_lock_in;
use explanation_names::name_spaces::{push_locals, push_members, push_params};
use source::limits::{
    CLASS_LIMIT, LOCAL_LIMIT, MEMBER_LIMIT, PARAMETER_LIMIT, SECTION_LIMIT, STRUCT_LIMIT,
    THREAD_LIMIT,
};
use source::memory::NoMemory;
use std::alloc::Global;
use syntax::tree::{Decl, Member, Name, Section, Struct};

/// A kind of declarations.
#[derive(Clone, Copy)]
pub enum Kind {
    /// A struct.
    Structs,
    /// A section or a helper.
    Bodies,
    /// A thread.
    Threads,
}

/// The name of `decl`, if it is of the kind `kind`.
fn kind_name(kind: Kind, decl: &Decl) -> Option<&Name>
    ensures { option_map ident_at result ≡ kind_name kind (decl_of decl.now) }
{
    match (kind, decl) {
        (Kind::Structs, Decl::Struct(structure)) => Some(&structure.name),
        (Kind::Bodies, Decl::Atomic(section) | Decl::Helper(section)) => Some(&section.name),
        (Kind::Threads, Decl::Thread(thread)) => Some(&thread.name),
        _ => None,
    }
}

/// The names of the declarations of the kind `kind`.
fn kind_names(alloc: Global, kind: Kind, decls: &[Decl]) -> Result<Vec<&Name>, NoMemory>
    ensures { IfOk result (λ names. idents names.items ≡ filter_map (kind_name kind) (map decl_of decls.now)) }
{
    let mut names = Vec::new(alloc);
    for decl in decls {
        if let Some(name) = kind_name(kind, decl) {
            names.push(name)?;
        }
    }
    Ok(names)
}

fn push_own_locks<'a>(members: &'a [Member], names: &mut Vec<&'a Name>) -> Result<(), NoMemory>
    ensures { OnOk result
        (idents names.new.items ≡ idents names.old.items ++ own_lock_names (map member_of members.now)) }
{
    for member in members {
        if let Some(name) = own_lock_in(member) {
            names.push(name)?;
        }
    }
    Ok(())
}

fn push_locks<'a>(decl: &'a Decl, names: &mut Vec<&'a Name>) -> Result<(), NoMemory>
    ensures { OnOk result (idents names.new.items ≡ idents names.old.items ++ lock_names (decl_of decl.now)) }
{
    match decl {
        Decl::Lock(name) => {
            names.push(name)?;
            Ok(())
        }
        Decl::Struct(structure) => push_own_locks(&structure.members, names),
        Decl::Global(_)
        | Decl::Array(_)
        | Decl::Pool(_)
        | Decl::Init(_)
        | Decl::Atomic(_)
        | Decl::Helper(_)
        | Decl::Thread(_) => Ok(()),
    }
}

/// The names of all locks, including those of structs.
fn all_locks(alloc: Global, decls: &[Decl]) -> Result<Vec<&Name>, NoMemory>
    ensures { IfOk result (λ names. idents names.items ≡ flat_map lock_names (map decl_of decls.now)) }
{
    let mut names = Vec::new(alloc);
    for decl in decls {
        push_locks(decl, &mut names)?;
    }
    Ok(names)
}

fn some_starts(at: usize, names: &[&Name]) -> bool
    ensures { result ≡ some_starts at (idents names.now) }
{
    for name in names {
        if name.start as usize == at {
            return true;
        }
    }
    false
}

/// Whether a name after the first `limit` names starts at byte `at`.
fn is_past(at: usize, limit: usize, names: &[&Name]) -> bool
    ensures { result ≡ is_past at limit (idents names.now) }
{
    if limit >= names.len() {
        return false;
    }
    some_starts(at, &names[limit..])
}

/// The limit of the program that is exceeded at byte `at`.
fn limit_of_all(alloc: Global, at: usize, decls: &[Decl]) -> Result<Option<&'static str>, NoMemory>
    ensures { IfOk result (λ words. option_map text_at words ≡ limit_of_all at (map decl_of decls.now)) }
{
    let structs = kind_names(alloc, Kind::Structs, decls)?;
    if is_past(at, STRUCT_LIMIT, &structs) {
        return Ok(Some("a program has at most 64 structs"));
    }
    let bodies = kind_names(alloc, Kind::Bodies, decls)?;
    if is_past(at, SECTION_LIMIT, &bodies) {
        return Ok(Some("a program has at most 256 sections and helpers"));
    }
    let threads = kind_names(alloc, Kind::Threads, decls)?;
    if is_past(at, THREAD_LIMIT, &threads) {
        return Ok(Some("a program has at most 64 threads"));
    }
    let locks = all_locks(alloc, decls)?;
    if is_past(at, CLASS_LIMIT, &locks) {
        return Ok(Some("a program has at most 128 lock classes"));
    }
    Ok(None)
}

fn limit_of_struct(
    alloc: Global,
    at: usize,
    structure: &Struct,
) -> Result<Option<&'static str>, NoMemory>
    ensures { IfOk result (λ words. option_map text_at words ≡ limit_in at (struct (struct_of structure.now))) }
{
    let mut names = Vec::new(alloc);
    push_members(&structure.members, &mut names)?;
    if is_past(at, MEMBER_LIMIT, &names) {
        return Ok(Some("a struct has at most 32 members"));
    }
    Ok(None)
}

fn limit_of_section(
    alloc: Global,
    at: usize,
    section: &Section,
) -> Result<Option<&'static str>, NoMemory>
    ensures { IfOk result (λ words. option_map text_at words ≡ limit_in at (atomic (section_of section.now))) }
{
    let mut params = Vec::new(alloc);
    push_params(&section.params, &mut params)?;
    if is_past(at, PARAMETER_LIMIT, &params) {
        return Ok(Some("a section has at most 8 parameters"));
    }
    let mut locals = Vec::new(alloc);
    push_locals(alloc, section, &mut locals)?;
    if is_past(at, LOCAL_LIMIT, &locals) {
        return Ok(Some("a section has at most 64 locals, parameters included"));
    }
    Ok(None)
}

/// The limit on names inside a declaration that is exceeded at byte `at`.
fn limit_in(alloc: Global, at: usize, decl: &Decl) -> Result<Option<&'static str>, NoMemory>
    ensures { IfOk result (λ words. option_map text_at words ≡ limit_in at (decl_of decl.now)) }
{
    match decl {
        Decl::Struct(structure) => limit_of_struct(alloc, at, structure),
        Decl::Atomic(section) => limit_of_section(alloc, at, section),
        Decl::Lock(_)
        | Decl::Global(_)
        | Decl::Array(_)
        | Decl::Pool(_)
        | Decl::Init(_)
        | Decl::Helper(_)
        | Decl::Thread(_) => Ok(None),
    }
}

/// The limit that is exceeded at byte `at`.
pub fn limit_passed(
    alloc: Global,
    decls: &[Decl],
    at: usize,
) -> Result<Option<&'static str>, NoMemory>
    ensures { IfOk result (λ words. option_map text_at words ≡ limit_passed (map decl_of decls.now) at) }
{
    if let Some(words) = limit_of_all(alloc, at, decls)? {
        return Ok(Some(words));
    }
    for decl in decls {
        if let Some(words) = limit_in(alloc, at, decl)? {
            return Ok(Some(words));
        }
    }
    Ok(None)
}
