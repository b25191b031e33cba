//! The classes of the locks at which annotations end.

ghost use Rattle.std.specs.Prelude.{◌≡◌, ◌++◌, ◌∷◌, [], IfOk, OnOk, Some, slice_get, map};
ghost use Rattle.syntax.specs.Views.{decl_of};
ghost use Rattle.types_symbols.specs.Working.Views.{decls_of};
ghost use Rattle.explanations.specs.Working.Found.{class_if, classes_by, classes_in_struct, protecting};
ghost use Rattle.explanations.specs.Working.Values.{AddsClasses, class_for_member, classes_for_members};

use source::memory::NoMemory;
use std::alloc::Global;
use syntax::tree::{Decl, Member};
use types_symbols::members::Structure;
use types_symbols::table::SymbolTable;
use types_symbols::{FieldAnnotations, class_of};

fn push_if(class: Option<usize>, classes: &mut Vec<usize>) -> Result<(), NoMemory>
    ensures { OnOk result (AddsClasses (class_if class) classes.old classes.new) }
{
    if let Some(class) = class {
        classes.push(class)?;
    }
    Ok(())
}

// Appends the class at which the annotation of a member ends, if it has one.
fn push_for(
    annotations: &FieldAnnotations<'_, '_>,
    member: &Member,
    classes: &mut Vec<usize>,
) -> Result<(), NoMemory>
    ensures { OnOk result (AddsClasses (class_for_member annotations.now member.now) classes.old classes.new) }
{
    let Member::Field(field) = member else {
        return Ok(());
    };
    if let Some(protection) = annotations.protection(&field.protection)? {
        classes.push(protection.class)?;
    }
    Ok(())
}

// Appends the classes at which the annotations of members end.
fn push_for_all(
    annotations: &FieldAnnotations<'_, '_>,
    members: &[Member],
    classes: &mut Vec<usize>,
) -> Result<(), NoMemory>
    ensures { OnOk result (AddsClasses (classes_for_members annotations.now members.now) classes.old classes.new) }
{
    for member in members {
        push_for(annotations, member, classes)?;
    }
    Ok(())
}

// Appends the classes at which the annotations of the struct at `place` end.
fn push_in(
    alloc: Global,
    symbols: &SymbolTable<'_>,
    place: usize,
    classes: &mut Vec<usize>,
    decl: &Decl,
) -> Result<(), NoMemory>
    requires { slice_get (decls_of symbols.now) place ≡ Some (decl_of decl.now) }
    ensures { OnOk result
        (AddsClasses (classes_in_struct (decls_of symbols.now) place (decl_of decl.now)) classes.old classes.new) }
{
    let Decl::Struct(_) = decl else {
        return Ok(());
    };
    let Some(structure) = symbols.structure(symbols.number(place, decl)) else {
        return Ok(());
    };
    let annotations = FieldAnnotations {
        alloc,
        symbols,
        place,
        structure,
    };
    push_for_all(&annotations, &structure.item().members, classes)
}

// Appends the classes at which the annotations of the declaration at `place` end.
fn push_by(
    alloc: Global,
    symbols: &SymbolTable<'_>,
    place: usize,
    classes: &mut Vec<usize>,
    decl: &Decl,
) -> Result<(), NoMemory>
    requires { slice_get (decls_of symbols.now) place ≡ Some (decl_of decl.now) }
    ensures { OnOk result
        (AddsClasses (classes_by (decls_of symbols.now) place (decl_of decl.now)) classes.old classes.new) }
{
    match decl {
        Decl::Global(variable) => push_if(class_of(symbols, &variable.protection), classes),
        Decl::Array(array) => push_if(class_of(symbols, &array.protection), classes),
        Decl::Struct(_) => push_in(alloc, symbols, place, classes, decl),
        Decl::Lock(_)
        | Decl::Pool(_)
        | Decl::Init(_)
        | Decl::Atomic(_)
        | Decl::Helper(_)
        | Decl::Thread(_) => Ok(()),
    }
}

// Appends the classes at which the annotations of declarations end, which are those of the program.
fn push_all(
    alloc: Global,
    symbols: &SymbolTable<'_>,
    decls: &[Decl],
    classes: &mut Vec<usize>,
) -> Result<(), NoMemory>
    requires { decls.now ≡ symbols.now }
    ensures { OnOk result (AddsClasses (protecting (decls_of symbols.now)) classes.old classes.new) }
{
    for (place, decl) in decls.iter().enumerate() {
        push_by(alloc, symbols, place, classes, decl)?;
    }
    Ok(())
}

/// The classes at which the program's annotations end, in order of the annotations. The one error is a refused growth.
pub fn protecting(alloc: Global, symbols: &SymbolTable<'_>) -> Result<Vec<usize>, NoMemory>
    ensures { IfOk result (λ classes. classes.items ≡ protecting (decls_of symbols.now)) }
{
    let mut classes = Vec::new(alloc);
    push_all(alloc, symbols, symbols.items(), &mut classes)?;
    Ok(classes)
}
