//! The names that expressions have, and those that statements read, write and call.

ghost use Rattle.std.specs.Prelude.{◌≡◌, ◌++◌, ◌∷◌, [], IfOk, OnOk, if◌then◌else◌, map};
ghost use Rattle.std.specs.List.{flat_map};
ghost use Rattle.syntax.specs.Views.{element_of, expr_of, helper_call_of, ident, joined_of, links_of, path_of, place_of, stmt_of};
ghost use Rattle.explanations.specs.Names as name;
ghost use Rattle.explanations.specs.Working.Values.{AddsNames, idents, stmt_at};

use source::memory::NoMemory;
use std::alloc::Global;
use syntax::tree::{Element, Expr, HelperCall, Joined, Link, Name, Path, Place, Stmt};

fn push_all<'a>(names: &'a [Name], out: &mut Vec<&'a Name>) -> Result<(), NoMemory>
    ensures { OnOk result (AddsNames (map ident names.now) out.old out.new) }
{
    for name in names {
        out.push(name)?;
    }
    Ok(())
}

fn push_path<'a>(path: &'a Path, with_fields: bool, out: &mut Vec<&'a Name>) -> Result<(), NoMemory>
    ensures { OnOk result (AddsNames (name.names_at with_fields (path_of path.now)) out.old out.new) }
{
    out.push(&path.first)?;
    if with_fields {
        push_all(&path.fields, out)?;
    }
    Ok(())
}

#[cycle(exprs)]
fn push_element<'a>(
    element: &'a Element,
    with_fields: bool,
    out: &mut Vec<&'a Name>,
) -> Result<(), NoMemory>
    ensures { OnOk result (AddsNames (name.names_at with_fields (element_of element.now)) out.old out.new) }
{
    out.push(&element.name)?;
    push_expr(&element.index, with_fields, out)
}

/// Appends the names in `e`, as they stand in the text, with the names of fields where `with_fields` is true. The one
/// error is a refused growth, here and below.
#[cycle(exprs)]
pub fn push_expr<'a>(
    e: &'a Expr,
    with_fields: bool,
    out: &mut Vec<&'a Name>,
) -> Result<(), NoMemory>
    ensures { OnOk result (AddsNames (name.names_in with_fields (expr_of e.now)) out.old out.new) }
{
    match e {
        Expr::Int(_) | Expr::Null(_) => Ok(()),
        Expr::Name(name) => {
            out.push(name)?;
            Ok(())
        }
        Expr::Element(element) => push_element(element, with_fields, out),
        Expr::Path(path) => push_path(path, with_fields, out),
        Expr::Paren(_, inner) => push_expr(inner, with_fields, out),
        Expr::Prefix(_, _, operand) => push_expr(operand, with_fields, out),
        Expr::Joined(joined) => push_joined(joined, with_fields, out),
    }
}

#[cycle(exprs)]
fn push_joined<'a>(
    joined: &'a Joined,
    with_fields: bool,
    out: &mut Vec<&'a Name>,
) -> Result<(), NoMemory>
    ensures { OnOk result (AddsNames (name.names_in with_fields (joined_of joined.now)) out.old out.new) }
{
    match joined {
        Joined::Pair(_, left, right) => {
            push_expr(left, with_fields, out)?;
            push_expr(right, with_fields, out)
        }
        Joined::Chain(_, first, links) => {
            push_expr(first, with_fields, out)?;
            push_links(links, with_fields, out)
        }
        Joined::Compare(_, left, right) => {
            push_expr(left, with_fields, out)?;
            push_expr(right, with_fields, out)
        }
    }
}

#[cycle(exprs)]
fn push_links<'a>(
    links: &'a [Link],
    with_fields: bool,
    out: &mut Vec<&'a Name>,
) -> Result<(), NoMemory>
    ensures { OnOk result (AddsNames (name.names_behind with_fields (links_of links.now)) out.old out.new) }
{
    'links: for link in links {
        push_expr(&link.operand, with_fields, out)?;
    }
    Ok(())
}

// Appends the names that an assignment reads before its `=`.
fn push_ahead<'a>(place: &'a Place, out: &mut Vec<&'a Name>) -> Result<(), NoMemory>
    ensures { OnOk result (AddsNames (name.read_ahead (place_of place.now)) out.old out.new) }
{
    match place {
        Place::Name(_) => Ok(()),
        Place::Element(element) => push_element(element, false, out),
        Place::Path(path) => push_path(path, false, out),
    }
}

fn push_exprs<'a>(exprs: &'a [Expr], out: &mut Vec<&'a Name>) -> Result<(), NoMemory>
    ensures { OnOk result (AddsNames (flat_map name.read_in (map expr_of exprs.now)) out.old out.new) }
{
    for e in exprs {
        push_expr(e, false, out)?;
    }
    Ok(())
}

fn push_arguments<'a>(call: &'a HelperCall, out: &mut Vec<&'a Name>) -> Result<(), NoMemory>
    ensures { OnOk result (AddsNames (flat_map name.read_in (helper_call_of call.now).arguments) out.old out.new) }
{
    push_exprs(&call.arguments, out)
}

// Appends the names that a statement itself reads, without those of its blocks.
fn push_reads<'a>(stmt: &'a Stmt, out: &mut Vec<&'a Name>) -> Result<(), NoMemory>
    ensures { OnOk result (AddsNames (name.reads (stmt_of stmt.now)) out.old out.new) }
{
    match stmt {
        Stmt::Let(local) => push_expr(&local.value, false, out),
        Stmt::LetOwned(owned) => {
            push_expr(&owned.local.value, false, out)?;
            out.push(&owned.owner.local)?;
            Ok(())
        }
        Stmt::LetCall(called) => push_arguments(&called.call, out),
        Stmt::Var(local) => push_expr(&local.value, false, out),
        Stmt::Assign(place, e) => {
            push_ahead(place, out)?;
            push_expr(e, false, out)
        }
        Stmt::If(choice) => push_expr(&choice.condition, false, out),
        Stmt::While(repetition) => push_expr(&repetition.condition, false, out),
        Stmt::Print(_, e) => push_expr(e, false, out),
        Stmt::Return(_, e) => push_expr(e, false, out),
        Stmt::Call(_, call) => push_arguments(call, out),
    }
}

/// The names that the statements themselves read.
pub fn read_by<'a>(alloc: Global, all: &[&'a Stmt]) -> Result<Vec<&'a Name>, NoMemory>
    ensures { IfOk result (λ names. idents names.items ≡ flat_map name.reads (map stmt_at all.now)) }
{
    let mut out = Vec::new(alloc);
    for stmt in all {
        push_reads(stmt, &mut out)?;
    }
    Ok(out)
}

// The last of the names.
fn last_of<'a>(first: &'a Name, rest: &'a [Name]) -> &'a Name
    ensures { ident result.now ≡ name.last_of (ident first.now) (map ident rest.now) }
{
    let mut last = first;
    for next in rest {
        last = next;
    }
    last
}

/// The name that an assignment writes.
pub fn written(place: &Place) -> &Name
    ensures { ident result.now ≡ name.written (place_of place.now) }
{
    match place {
        Place::Name(name) => name,
        Place::Element(element) => &element.name,
        Place::Path(path) => last_of(&path.first, &path.fields),
    }
}

/// Appends the helper that a statement itself calls, if it calls one.
pub fn push_called<'a>(stmt: &'a Stmt, out: &mut Vec<&'a Name>) -> Result<(), NoMemory>
    ensures { OnOk result (AddsNames (name.calls (stmt_of stmt.now)) out.old out.new) }
{
    match stmt {
        Stmt::LetCall(called) => out.push(&called.call.helper)?,
        Stmt::Call(_, call) => out.push(&call.helper)?,
        Stmt::If(_) => {}
        Stmt::Let(_)
        | Stmt::LetOwned(_)
        | Stmt::Var(_)
        | Stmt::Assign(_, _)
        | Stmt::While(_)
        | Stmt::Print(_, _)
        | Stmt::Return(_, _) => {}
    }
    Ok(())
}
