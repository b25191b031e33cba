//! The facts of a program that warnings depend on.

ghost use Rattle.std.specs.Prelude.{◌≡◌, ◌++◌, IfOk, OnOk, map};
ghost use Rattle.std.specs.List.{flat_map, list_any};
ghost use Rattle.syntax.specs.Views.{decl_of, item_of, items_of, member_of, section_of};
ghost use Rattle.explanations.specs.Names as name;
ghost use Rattle.explanations.specs.Working.Found.{is_thread, protecting};
ghost use Rattle.explanations.specs.Working.Values.{AddsNames, IsSetOf, field_names_of, idents, stmt_at};
ghost use Rattle.types_symbols.specs.Working.Views.{decls_of};

use crate::name_set::{NameSet, SetMaker};
use crate::names::push_called;
use crate::protecting::protecting;
use explanation_names::vars::all_of;
use resolution::finding::Firsts;
use source::memory::NoMemory;
use std::alloc::Global;
use syntax::tree::{Decl, Item, Member, Name, Section, Stmt, Tree};
use types_symbols::names::TableMaker;
use types_symbols::table::SymbolTable;

fn push_called_by_all<'a>(all: &[&'a Stmt], out: &mut Vec<&'a Name>) -> Result<(), NoMemory>
    ensures { OnOk result (AddsNames (flat_map name.calls (map stmt_at all.now)) out.old out.new) }
{
    for stmt in all {
        push_called(stmt, out)?;
    }
    Ok(())
}

fn push_helpers<'a>(
    alloc: Global,
    section: &'a Section,
    out: &mut Vec<&'a Name>,
) -> Result<(), NoMemory>
    ensures { OnOk result (AddsNames (name.called_in (section_of section.now)) out.old out.new) }
{
    let all = all_of(alloc, &section.body.stmts)?;
    push_called_by_all(&all, out)
}

fn push_helpers_of<'a>(
    alloc: Global,
    decl: &'a Decl,
    out: &mut Vec<&'a Name>,
) -> Result<(), NoMemory>
    ensures { OnOk result (AddsNames (name.helpers_called (decl_of decl.now)) out.old out.new) }
{
    match decl {
        Decl::Atomic(section) => push_helpers(alloc, section, out),
        Decl::Helper(section) => push_helpers(alloc, section, out),
        Decl::Lock(_)
        | Decl::Struct(_)
        | Decl::Global(_)
        | Decl::Array(_)
        | Decl::Pool(_)
        | Decl::Init(_)
        | Decl::Thread(_) => Ok(()),
    }
}

/// The helpers that `decls` call.
fn helpers_called<'a>(alloc: Global, decls: &'a [Decl]) -> Result<Vec<&'a Name>, NoMemory>
    ensures { IfOk result (λ out. idents out.items ≡ flat_map name.helpers_called (map decl_of decls.now)) }
{
    let mut out = Vec::new(alloc);
    for decl in decls {
        push_helpers_of(alloc, decl, &mut out)?;
    }
    Ok(out)
}

#[cycle(items)]
fn push_item<'a>(item: &'a Item, out: &mut Vec<&'a Name>) -> Result<(), NoMemory>
    ensures { OnOk result (AddsNames (name.called_by (item_of item.now)) out.old out.new) }
{
    match item {
        Item::Call(call) => {
            out.push(&call.section)?;
            Ok(())
        }
        Item::Repeat(_, items) => push_items(items, out),
    }
}

#[cycle(items)]
fn push_items<'a>(items: &'a [Item], out: &mut Vec<&'a Name>) -> Result<(), NoMemory>
    ensures { OnOk result (AddsNames (name.called_by_all (items_of items.now)) out.old out.new) }
{
    'items: for item in items {
        push_item(item, out)?;
    }
    Ok(())
}

fn push_sections_of<'a>(decl: &'a Decl, out: &mut Vec<&'a Name>) -> Result<(), NoMemory>
    ensures { OnOk result (AddsNames (name.sections_called (decl_of decl.now)) out.old out.new) }
{
    match decl {
        Decl::Thread(thread) => push_items(&thread.items, out),
        Decl::Lock(_)
        | Decl::Struct(_)
        | Decl::Global(_)
        | Decl::Array(_)
        | Decl::Pool(_)
        | Decl::Init(_)
        | Decl::Atomic(_)
        | Decl::Helper(_) => Ok(()),
    }
}

/// The sections that the threads of `decls` call.
fn sections_called<'a>(alloc: Global, decls: &'a [Decl]) -> Result<Vec<&'a Name>, NoMemory>
    ensures { IfOk result (λ out. idents out.items ≡ flat_map name.sections_called (map decl_of decls.now)) }
{
    let mut out = Vec::new(alloc);
    for decl in decls {
        push_sections_of(decl, &mut out)?;
    }
    Ok(out)
}

fn push_field_name<'a>(member: &'a Member, out: &mut Vec<&'a Name>) -> Result<(), NoMemory>
    ensures { OnOk result (AddsNames (name.field_name (member_of member.now)) out.old out.new) }
{
    match member {
        Member::Field(field) => out.push(&field.name)?,
        Member::Lock(_) | Member::Final(_) => {}
    }
    Ok(())
}

fn push_field_names<'a>(members: &'a [Member], out: &mut Vec<&'a Name>) -> Result<(), NoMemory>
    ensures { OnOk result (AddsNames (field_names_of members.now) out.old out.new) }
{
    for member in members {
        push_field_name(member, out)?;
    }
    Ok(())
}

fn push_cells<'a>(decl: &'a Decl, out: &mut Vec<&'a Name>) -> Result<(), NoMemory>
    ensures { OnOk result (AddsNames (name.cell_names (decl_of decl.now)) out.old out.new) }
{
    match decl {
        Decl::Global(variable) => {
            out.push(&variable.name)?;
            Ok(())
        }
        Decl::Array(array) => {
            out.push(&array.name)?;
            Ok(())
        }
        Decl::Struct(structure) => push_field_names(&structure.members, out),
        Decl::Lock(_)
        | Decl::Pool(_)
        | Decl::Init(_)
        | Decl::Atomic(_)
        | Decl::Helper(_)
        | Decl::Thread(_) => Ok(()),
    }
}

/// The names of the globals, arrays and fields.
fn cell_names<'a>(alloc: Global, decls: &'a [Decl]) -> Result<Vec<&'a Name>, NoMemory>
    ensures { IfOk result (λ out. idents out.items ≡ flat_map name.cell_names (map decl_of decls.now)) }
{
    let mut out = Vec::new(alloc);
    for decl in decls {
        push_cells(decl, &mut out)?;
    }
    Ok(out)
}

fn is_thread(decl: &Decl) -> bool
    ensures { result ≡ is_thread (decl_of decl.now) }
{
    match decl {
        Decl::Thread(_) => true,
        Decl::Lock(_)
        | Decl::Struct(_)
        | Decl::Global(_)
        | Decl::Array(_)
        | Decl::Pool(_)
        | Decl::Init(_)
        | Decl::Atomic(_)
        | Decl::Helper(_) => false,
    }
}

fn has_thread(decls: &[Decl]) -> bool
    ensures { result ≡ list_any is_thread (map decl_of decls.now) }
{
    for decl in decls {
        if is_thread(decl) {
            return true;
        }
    }
    false
}

/// A program, with the facts that warnings depend on.
#[derive(Drop)]
pub struct Program<'a> {
    /// The parameters of the sets.
    pub maker: SetMaker,
    /// The declarations.
    pub symbols: SymbolTable<'a>,
    /// The names of globals, arrays and fields.
    pub cells: NameSet,
    /// The names of the helpers that are called.
    pub helpers: NameSet,
    /// The names of the sections that threads call.
    pub sections: NameSet,
    /// Whether it has a thread.
    pub has_thread: bool,
    /// The classes of the locks at which the annotations end.
    pub classes: Vec<usize>,
    ghost cells_are: { IsSetOf (flat_map name.cell_names (decls_of symbols)) cells },
    ghost helpers_are: { IsSetOf (flat_map name.helpers_called (decls_of symbols)) helpers },
    ghost sections_are: { IsSetOf (flat_map name.sections_called (decls_of symbols)) sections },
    ghost has_threads: { has_thread ≡ list_any is_thread (decls_of symbols) },
    ghost classes_are: { classes.items ≡ protecting (decls_of symbols) },
}

impl<'a> Program<'a> {
    /// The facts of `tree`. The one error is a refused growth.
    pub fn of(alloc: Global, tree: &'a Tree) -> Result<Program<'a>, NoMemory>
        ensures { IfOk result (λ program. program.symbols ≡ tree.now.decls.items) }
    {
        let maker = SetMaker {
            alloc,
            hashing: tree.hashing,
        };
        let decls = &tree.decls;
        let cells = NameSet::of(maker, &cell_names(alloc, decls)?)?;
        let helpers = NameSet::of(maker, &helpers_called(alloc, decls)?)?;
        let sections = NameSet::of(maker, &sections_called(alloc, decls)?)?;
        let mut firsts = Firsts::new();
        let tables = TableMaker {
            alloc,
            hashing: tree.hashing,
        };
        let symbols = SymbolTable::new(tables, decls, &mut firsts)?;
        let classes = protecting(alloc, &symbols)?;
        Ok(Program {
            maker,
            symbols,
            cells,
            helpers,
            sections,
            has_thread: has_thread(decls),
            classes,
        })
    }
}
