//! Annotations: which lock protects what.

ghost use Rattle.std.specs.Prelude.{◌≡◌, OnOk, IfOk, option_map, map, Some};
ghost use Rattle.syntax.specs.Views.{ident, protection_of as protection_view, option_of};
ghost use Rattle.resolution.specs.CoreViews.{core_protection};
ghost use Rattle.resolution.specs.Scopes.{the_member};
ghost use Rattle.resolution.specs.Annotations.{class_in, class_of, at_struct, cursor_at, stepped_on, ended};
ghost use Rattle.resolution.specs.Working.Findings.{found_in};
ghost use Rattle.resolution.specs.Working.FaultLists.{lock_faults};
ghost use Rattle.types_symbols.specs.Working.Views.{decls_of, decl_named, members_seen};
ghost use Rattle.types_symbols.specs.Working.AnnotationCursors.{cursor_of, cursor_seen, lock_name_faults, passed_at, ended_at, protection_along, faults_along, field_protection, field_protection_faults};

use crate::members::Structure;
use crate::scope::{ResolvedName, report_unfit, report_unfit_member};
use crate::table::SymbolTable;
use core_lang::typed::Protection;
use resolution::finding::{Finding, Firsts, report, report_if};
use source::fault::Code;
use source::limits::FINAL_LIMIT;
use std::alloc::{AllocError, Global};
use syntax::tree;
use syntax::tree::{Decl, Member, Name};

/// The position of a walk along an annotation: a struct with its place, and the final references on the way to it.
#[derive(Drop)]
pub(crate) struct AnnotationCursor<'a, 't> {
    /// The struct's place among the declarations.
    pub place: usize,
    /// The struct, with its tables.
    pub structure: &'a Structure<'t>,
    /// The final references, by the numbers that paths use.
    pub through: Vec<u32>,
}

/// The parts of a walk that are the same at each name.
#[derive(Clone, Copy)]
pub(crate) struct AnnotationWalk<'a, 't> {
    /// The symbol table.
    pub symbols: &'a SymbolTable<'t>,
    /// The first byte of the first name.
    pub start: usize,
}

/// The annotations of a struct's fields. Each may name a lock field of the struct itself, a lock field of a struct that
/// final references lead to, or a global lock.
#[derive(Clone, Copy)]
pub struct FieldAnnotations<'a, 't> {
    /// The allocator.
    pub alloc: Global,
    /// The symbol table.
    pub symbols: &'a SymbolTable<'t>,
    /// The struct's place among the declarations.
    pub place: usize,
    /// The struct, with its tables.
    pub structure: &'a Structure<'t>,
}

/// The class of a global lock that is the only name.
fn class_in(symbols: &SymbolTable, first: &Name, rest: &[Name]) -> Option<usize>
    ensures { result ≡ class_in (decls_of symbols.now) (decl_named symbols.now first.now) (map ident rest.now) }
{
    match symbols.find(first.text.as_str()) {
        Some((place, Decl::Lock(_))) => {
            if rest.is_empty() {
                Some(symbols.class(place, 0))
            } else {
                None
            }
        }
        _ => None,
    }
}

/// The class of the lock that protects a global or an array, which is the global lock that the annotation names. `None`
/// if it has no annotation, or one that does not name a global lock.
pub fn class_of(symbols: &SymbolTable, p: &Option<tree::Protection>) -> Option<usize>
    ensures { result ≡ class_of (decls_of symbols.now) (option_of protection_view p.now) }
{
    match p {
        Some(p) => class_in(symbols, &p.first, &p.rest),
        None => None,
    }
}

/// Notes the faults of an annotation that has to name a global lock.
fn report_global_lock(symbols: &SymbolTable, first: &Name, rest: &[Name], firsts: &mut Firsts)
    ensures { firsts.new ≡ found_in firsts.old (lock_name_faults symbols.now first.now rest.now) }
{
    let start = first.start as usize;
    match symbols.find(first.text.as_str()) {
        None => report(Code::UnknownName, start, firsts),
        Some((_, Decl::Lock(_))) => {
            if !rest.is_empty() {
                report(Code::ProtectedByNoLock, start, firsts);
            }
        }
        Some((place, d)) => {
            let meant = ResolvedName::Decl(place, d);
            let found = Finding::plain(Code::ProtectedByNoLock, start);
            report_unfit(symbols, found, meant, firsts);
        }
    }
}

/// Notes the faults of the annotation of a global or an array: it is missing, or does not name a global lock. `name` is
/// the name of the global or array.
pub fn report_lock(
    symbols: &SymbolTable,
    name: &Name,
    p: &Option<tree::Protection>,
    firsts: &mut Firsts,
)
    ensures { firsts.new ≡ found_in firsts.old
        (lock_faults (decls_of symbols.now) name.now.start (option_of protection_view p.now)) }
{
    match p {
        Some(p) => report_global_lock(symbols, &p.first, &p.rest, firsts),
        None => report(Code::NeitherFinalNorProtected, name.start as usize, firsts),
    }
}

impl<'a, 't> AnnotationWalk<'a, 't> {
    // Moves to the struct of a final reference, over which the walk goes.
    fn at_struct(
        &self,
        through: Vec<u32>,
        number: u32,
        target: &Name,
    ) -> Result<Option<AnnotationCursor<'a, 't>>, AllocError>
        ensures { IfOk result
            (λ r. cursor_seen r ≡ at_struct through.items number (decl_named self.now.symbols.now target.now)) }
    {
        let Some((place, structure)) = self.symbols.struct_of(target) else {
            drop(through);
            return Ok(None);
        };
        let mut through = through;
        let Ok(()) = through.push(number) else {
            drop(through);
            return Err(AllocError);
        };
        Ok(Some(AnnotationCursor {
            place,
            structure,
            through,
        }))
    }

    // Moves over a final reference to its struct; nothing else leads on.
    fn stepped_on(
        &self,
        cursor: Option<AnnotationCursor<'a, 't>>,
        y: &Name,
    ) -> Result<Option<AnnotationCursor<'a, 't>>, AllocError>
        ensures { IfOk result
            (λ r. cursor_seen r ≡ stepped_on (decls_of self.now.symbols.now) (cursor_seen cursor.entry) (ident y.now)) }
    {
        let Some(cursor) = cursor else {
            return Ok(None);
        };
        let Some((place, m)) = cursor.structure.find(y.text.as_str()) else {
            drop(cursor);
            return Ok(None);
        };
        match m {
            Member::Final(reference) => {
                let number = cursor.structure.step(place, m);
                self.at_struct(cursor.through, number, &reference.target)
            }
            Member::Lock(_) | Member::Field(_) => {
                drop(cursor);
                Ok(None)
            }
        }
    }

    // The protection at the walk's end, which has to be a lock field.
    fn ended(&self, cursor: Option<AnnotationCursor>, y: &Name) -> Option<Protection>
        ensures { option_map core_protection result
            ≡ ended (decls_of self.now.symbols.now) (cursor_seen cursor.entry) (ident y.now) }
    {
        let cursor = cursor?;
        let Some((place, m)) = cursor.structure.find(y.text.as_str()) else {
            drop(cursor);
            return None;
        };
        match m {
            Member::Lock(_) => {
                let number = cursor.structure.number(place, m);
                Some(Protection {
                    through: cursor.through,
                    class: self.symbols.class(cursor.place, number),
                })
            }
            Member::Final(_) | Member::Field(_) => {
                drop(cursor);
                None
            }
        }
    }

    // The protection along names, the last of which is the lock's.
    fn along(
        &self,
        cursor: Option<AnnotationCursor<'a, 't>>,
        first: &Name,
        rest: &[Name],
    ) -> Result<Option<Protection>, AllocError>
        ensures { IfOk result
            (λ r. option_map core_protection r ≡ protection_along self.now cursor.entry first.now rest.now) }
    {
        let mut cursor = cursor;
        let mut y = first;
        for z in rest {
            cursor = self.stepped_on(cursor, y)?;
            y = z;
        }
        Ok(self.ended(cursor, y))
    }

    // Notes the fault of a name that others follow.
    fn report_passed(&self, cursor: &Option<AnnotationCursor>, y: &Name, firsts: &mut Firsts)
        ensures { firsts.new ≡ found_in firsts.old (passed_at self.now cursor.now y.now) }
    {
        let Some(cursor) = cursor else {
            return;
        };
        match cursor.structure.find(y.text.as_str()) {
            None => report(Code::UnknownName, y.start as usize, firsts),
            Some((_, Member::Final(_))) => {
                let is_over = FINAL_LIMIT <= cursor.through.len();
                report_if(is_over, Code::LimitExceeded, self.start, firsts);
            }
            Some((_, m)) => {
                let found = Finding::plain(Code::ProtectedByPassesNonFinal, y.start as usize);
                report_unfit_member(self.symbols, found, m, firsts);
            }
        }
    }

    // Notes the fault of the last name.
    fn report_last(&self, cursor: &Option<AnnotationCursor>, y: &Name, firsts: &mut Firsts)
        ensures { firsts.new ≡ found_in firsts.old (ended_at self.now cursor.now y.now) }
    {
        let Some(cursor) = cursor else {
            return;
        };
        match cursor.structure.find(y.text.as_str()) {
            None => report(Code::UnknownName, y.start as usize, firsts),
            Some((_, Member::Lock(_))) => {}
            Some((_, m)) => {
                let found = Finding::plain(Code::ProtectedByNoLock, self.start);
                report_unfit_member(self.symbols, found, m, firsts);
            }
        }
    }

    // Notes the faults along names.
    fn report_along(
        &self,
        cursor: Option<AnnotationCursor<'a, 't>>,
        first: &Name,
        rest: &[Name],
        firsts: &mut Firsts,
    ) -> Result<(), AllocError>
        ensures { OnOk result
            (firsts.new ≡ found_in firsts.old (faults_along self.now cursor.entry first.now rest.now)) }
    {
        let mut cursor = cursor;
        let mut y = first;
        for z in rest {
            self.report_passed(&cursor, y, firsts);
            cursor = self.stepped_on(cursor, y)?;
            y = z;
        }
        self.report_last(&cursor, y, firsts);
        drop(cursor);
        Ok(())
    }
}

impl<'a, 't> FieldAnnotations<'a, 't> {
    // A walk at the struct itself.
    fn own(&self) -> AnnotationCursor<'a, 't>
        ensures { cursor_of result ≡ cursor_at self.now.place (members_seen self.now.structure.now) }
    {
        AnnotationCursor {
            place: self.place,
            structure: self.structure,
            through: Vec::new(self.alloc),
        }
    }

    /// The protection of a field with this annotation. `None` without an annotation, or if it does not name a lock. The
    /// only error is a failed allocation.
    pub fn protection(&self, p: &Option<tree::Protection>) -> Result<Option<Protection>, AllocError>
        ensures { IfOk result (λ r. option_map core_protection r ≡ field_protection self.now p.now) }
    {
        let Some(p) = p else {
            return Ok(None);
        };
        if self.structure.find(p.first.text.as_str()).is_some() {
            let walk = AnnotationWalk {
                symbols: self.symbols,
                start: p.first.start as usize,
            };
            return walk.along(Some(self.own()), &p.first, &p.rest);
        }
        match class_in(self.symbols, &p.first, &p.rest) {
            Some(class) => Ok(Some(Protection {
                through: Vec::new(self.alloc),
                class,
            })),
            None => Ok(None),
        }
    }

    /// Notes the faults of a field's annotation: it is missing, it does not name a lock, or it leads over a member that
    /// is not a final reference or over too many of them. `name` is the field's name. The only error is a failed
    /// allocation.
    pub fn report(
        &self,
        name: &Name,
        p: &Option<tree::Protection>,
        firsts: &mut Firsts,
    ) -> Result<(), AllocError>
        ensures { OnOk result (firsts.new ≡ found_in firsts.old (field_protection_faults self.now name.now p.now)) }
    {
        let Some(p) = p else {
            report(Code::NeitherFinalNorProtected, name.start as usize, firsts);
            return Ok(());
        };
        if self.structure.find(p.first.text.as_str()).is_some() {
            let walk = AnnotationWalk {
                symbols: self.symbols,
                start: p.first.start as usize,
            };
            return walk.report_along(Some(self.own()), &p.first, &p.rest, firsts);
        }
        report_global_lock(self.symbols, &p.first, &p.rest, firsts);
        Ok(())
    }
}
