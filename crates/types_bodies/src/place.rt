//! The values and types of names, elements and paths.

ghost use Rattle.std.specs.Prelude.{◌≡◌, OnOk, IfOk, option_map, map};
ghost use Rattle.syntax.specs.Views.{ident};
ghost use Rattle.resolution.specs.CoreViews.{core_expr, core_path};
ghost use Rattle.resolution.specs.Scopes.{the_struct};
ghost use Rattle.resolution.specs.Expressions.{local_path, over_step, stepped, walked, walk_from};
ghost use Rattle.resolution.specs.Working.TypedExpressions.{named_value, path_value};
ghost use Rattle.resolution.specs.Working.Findings.{found_in};
ghost use Rattle.resolution.specs.Working.FaultLists.{no_value, no_elements, no_field, step_faults, end_faults};
ghost use Rattle.types_symbols.specs.{meaning_of};
ghost use Rattle.types_bodies.specs.Working.Checkers.{scope};
ghost use Rattle.types_bodies.specs.Working.Indexing.{indexed_by, element_by};
ghost use Rattle.types_bodies.specs.Working.Walks.{walk_of, over_field, fields_faults, way_faults};
ghost use Rattle.types_bodies.specs.Working.ResolvedExprs.{resolved_expr_of};

use crate::checked::{Checked, faulty};
use crate::checker::Checker;
use crate::resolved_expr::{ResolvedExpr, value_of};
use core_lang::tree::{Expr, FieldStep, Path};
use core_lang::value::ValueType;
use resolution::finding::{Finding, Firsts, report, report_found};
use resolution::wanted::Sort;
use resolution::why::{Role, Why};
use source::fault::Code;
use std::alloc::{AllocError, Global};
use syntax::tree::{Decl, Member, Name};
use types_symbols::scope::{ResolvedName, misnamed};

/// An array or a pool: its number among those of its kind, and the type of its elements or members.
#[derive(Clone, Copy)]
pub enum Indexed {
    Array(usize, ValueType),
    Pool(usize, ValueType),
}

/// Where fields lead.
#[derive(Drop)]
pub enum Walk {
    /// To a value of this type, over these steps.
    Reached(Vec<FieldStep>, ValueType),
    /// To a lock.
    AtLock,
    /// Nowhere.
    Lost,
}

/// A local and the fields that follow it.
pub fn local_path(start: usize, local: usize, fields: Vec<FieldStep>) -> Path
    ensures { core_path result ≡ local_path start local fields.items }
{
    Path {
        start,
        local,
        fields,
        in_parentheses: false,
    }
}

/// The value at an index.
pub fn element_value(
    alloc: Global,
    start: usize,
    indexed: Option<Indexed>,
    index: Option<Expr>,
) -> Checked<ResolvedExpr>
    ensures { IfOk result (λ r. option_map resolved_expr_of r ≡ element_by start indexed (option_map core_expr index)) }
{
    let Some((indexed, index)) = indexed.zip(index) else {
        return Ok(None);
    };
    let index = Box::new(alloc, index)?;
    match indexed {
        Indexed::Array(array, t) => Ok(value_of(
            Expr::Element {
                start,
                array,
                index,
            },
            Some(t),
        )),
        Indexed::Pool(pool, t) => Ok(value_of(Expr::Member { pool, index }, Some(t))),
    }
}

/// Moves over a step that leads to a value, if its type has no fault.
fn with_step(
    steps: Vec<FieldStep>,
    step: FieldStep,
    t: Option<ValueType>,
) -> Result<Walk, AllocError>
    ensures { IfOk result (λ r. walk_of r ≡ over_step steps.items step t) }
{
    let Some(t) = t else {
        return Ok(Walk::Lost);
    };
    let mut steps = steps;
    steps.push(step)?;
    Ok(Walk::Reached(steps, t))
}

// Notes a path's end at a lock.
fn report_end(start: usize, w: &Walk, firsts: &mut Firsts)
    ensures { firsts.new ≡ found_in firsts.old (end_faults start (walk_of w.now)) }
{
    match w {
        Walk::AtLock => report(Code::LockAsValue, start, firsts),
        Walk::Reached(_, _) | Walk::Lost => {}
    }
}

/// A path as a value.
pub fn path_value(start: usize, m: ResolvedName, w: Walk) -> Option<ResolvedExpr>
    ensures { option_map resolved_expr_of result ≡ path_value start (meaning_of m.entry) (walk_of w) }
{
    let Walk::Reached(steps, t) = w else {
        return None;
    };
    let ResolvedName::Local(i, _) = m else {
        drop(steps);
        return None;
    };
    let place = Expr::Place(local_path(start, i, steps));
    Some(ResolvedExpr::Value(place, Sort::Of(t)))
}

impl<'a> Checker<'a> {
    /// A name as a value, by what it refers to.
    pub fn named(&self, start: usize, m: ResolvedName, firsts: &mut Firsts) -> Option<ResolvedExpr>
        ensures value { option_map resolved_expr_of result
            ≡ named_value (scope self.now).decls start (meaning_of m.entry) }
        ensures faults { firsts.new ≡ found_in firsts.old (no_value (scope self.now).decls start (meaning_of m.entry)) }
    {
        match m {
            ResolvedName::Local(i, local) => {
                let path = local_path(start, i, Vec::new(self.alloc()));
                value_of(Expr::Place(path), local.value_type)
            }
            ResolvedName::Decl(place, Decl::Global(v)) => {
                let cell = self.cell(place);
                value_of(
                    Expr::Global { start, cell },
                    self.type_outside(&v.value_type),
                )
            }
            ResolvedName::Decl(_, Decl::Lock(_)) => faulty(Code::LockAsValue, start, firsts),
            _ => self.misplaced(misnamed(Code::WrongType, Role::Value, start, m), m, firsts),
        }
    }

    /// The array or pool that a name refers to.
    pub fn indexed(&self, start: usize, m: ResolvedName, firsts: &mut Firsts) -> Option<Indexed>
        ensures value { result ≡ indexed_by (scope self.now).decls (meaning_of m.entry) }
        ensures faults { firsts.new ≡ found_in firsts.old
            (no_elements (scope self.now).decls start (meaning_of m.entry)) }
    {
        match m {
            ResolvedName::Decl(place, d) => match d {
                Decl::Array(a) => {
                    let t = self.type_outside(&a.value_type)?;
                    Some(Indexed::Array(self.number_of(place, d), t))
                }
                Decl::Pool(p) => {
                    let t = self.reference_to(&p.target)?;
                    Some(Indexed::Pool(self.number_of(place, d), t))
                }
                _ => self.misplaced(
                    misnamed(Code::WrongType, Role::Elements, start, m),
                    m,
                    firsts,
                ),
            },
            _ => self.misplaced(
                misnamed(Code::WrongType, Role::Elements, start, m),
                m,
                firsts,
            ),
        }
    }

    // Moves over a field of an object of the struct with this number.
    fn over(
        &self,
        steps: Vec<FieldStep>,
        structure: usize,
        f: &Name,
        firsts: &mut Firsts,
    ) -> Result<Walk, AllocError>
        ensures value { IfOk result
            (λ r. walk_of r ≡ over_field (scope self.now).decls steps.items structure (ident f.now)) }
        ensures faults { OnOk result
            (firsts.new ≡ found_in firsts.old (no_field (the_struct (scope self.now).decls structure) (ident f.now))) }
    {
        let Some(members) = self.structure(structure) else {
            return Ok(Walk::Lost);
        };
        let Some((place, m)) = members.find(f.text.as_str()) else {
            report(Code::UnknownName, f.start as usize, firsts);
            return Ok(Walk::Lost);
        };
        let number = members.step(place, m);
        match m {
            Member::Lock(_) => Ok(Walk::AtLock),
            Member::Final(reference) => {
                let t = self.reference_to(&reference.target);
                with_step(steps, FieldStep::Final { structure, number }, t)
            }
            Member::Field(field) => {
                let t = self.type_outside(&field.value_type);
                with_step(steps, FieldStep::Field { structure, number }, t)
            }
        }
    }

    // Moves over one field of a path that starts at `start`.
    fn stepped(
        &self,
        start: usize,
        w: Walk,
        f: &Name,
        firsts: &mut Firsts,
    ) -> Result<Walk, AllocError>
        ensures value { IfOk result (λ r. walk_of r ≡ stepped (scope self.now).decls (walk_of w) (ident f.now)) }
        ensures faults { OnOk result
            (firsts.new ≡ found_in firsts.old (step_faults (scope self.now).decls start (walk_of w) (ident f.now))) }
    {
        match w {
            Walk::Reached(steps, t) => match t {
                ValueType::Reference(number) => self.over(steps, number, f, firsts),
                ValueType::Integer => {
                    drop(steps);
                    report_found(
                        Finding::new(Code::WrongType, start, Why::FieldOfInt),
                        firsts,
                    );
                    Ok(Walk::Lost)
                }
            },
            Walk::AtLock => {
                report_found(
                    Finding::new(Code::WrongType, start, Why::FieldOfLock),
                    firsts,
                );
                Ok(Walk::Lost)
            }
            Walk::Lost => Ok(Walk::Lost),
        }
    }

    // Moves over fields, one after another, of a path that starts at `start`.
    #[tactic(auto, using(resolution::specs::Theory::Leasts::found_append))]
    fn walked(
        &self,
        start: usize,
        w: Walk,
        fields: &[Name],
        firsts: &mut Firsts,
    ) -> Result<Walk, AllocError>
        ensures value { IfOk result
            (λ r. walk_of r ≡ walked (scope self.now).decls (walk_of w) (map ident fields.now)) }
        ensures faults { OnOk result
            (firsts.new ≡ found_in firsts.old (fields_faults (scope self.now).decls start (walk_of w) fields.now)) }
    {
        let mut reached = w;
        for f in fields {
            reached = self.stepped(start, reached, f, firsts)?;
        }
        report_end(start, &reached, firsts);
        Ok(reached)
    }

    /// Where a name and the fields that follow it lead.
    pub fn walk(
        &self,
        start: usize,
        m: ResolvedName,
        fields: &[Name],
        firsts: &mut Firsts,
    ) -> Result<Walk, AllocError>
        ensures value { IfOk result
            (λ r. walk_of r ≡ walk_from (scope self.now).decls (meaning_of m.entry) (map ident fields.now)) }
        ensures faults { OnOk result (firsts.new ≡ found_in firsts.old
            (way_faults (scope self.now).decls start (meaning_of m.entry) fields.now)) }
    {
        match m {
            ResolvedName::Local(_, local) => {
                let w = match local.value_type {
                    Some(t) => Walk::Reached(Vec::new(self.alloc()), t),
                    None => Walk::Lost,
                };
                self.walked(start, w, fields, firsts)
            }
            _ => {
                let found = misnamed(Code::WrongType, Role::Local, start, m);
                let _: Option<usize> = self.misplaced(found, m, firsts);
                Ok(Walk::Lost)
            }
        }
    }
}
