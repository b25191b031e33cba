//! The left sides of assignments.

ghost use Rattle.std.specs.Prelude.{◌≡◌, OnOk, IfOk, option_map, Some};
ghost use Rattle.syntax.specs.Views.{ident, element_of, path_of, place_of};
ghost use Rattle.resolution.specs.CoreViews.{core_expr};
ghost use Rattle.resolution.specs.Statements.{first_name};
ghost use Rattle.resolution.specs.Working.TypedStatements.{assignee, assignee_at, assignee_along, target_of, wanted_by};
ghost use Rattle.resolution.specs.Working.Findings.{found_in};
ghost use Rattle.resolution.specs.Working.FaultLists.{no_target, final_faults, target_faults};
ghost use Rattle.types_symbols.specs.{meaning_of};
ghost use Rattle.types_bodies.specs.Working.Checkers.{scope};
ghost use Rattle.types_bodies.specs.Working.Indexing.{indexed_by};
ghost use Rattle.types_bodies.specs.Working.Walks.{walk_of};
ghost use Rattle.types_bodies.specs.Working.Targets.{target_seen, assignee_of, assigned_at, element_faults};

use crate::checked::{Checked, faulty, faulty_for};
use crate::checker::Checker;
use crate::place::{Indexed, Walk, local_path};
use core_lang::tree::{Expr, FieldStep, LocalKind, Path};
use core_lang::value::ValueType;
use resolution::finding::{Finding, Firsts, report_found};
use resolution::wanted::Want;
use resolution::why::{Role, Why};
use source::fault::Code;
use syntax::tree;
use syntax::tree::{Decl, Element, Name, Place};
use types_symbols::scope::{ResolvedName, misnamed};

/// The target of an assignment.
#[derive(Drop)]
pub enum Target {
    /// A `var`, by its number.
    Local(usize),
    /// A global, by its cell.
    Global(u32),
    /// An element of an array, by the array's number and the index.
    Element(usize, Expr),
    /// A field: the path to the object, the object's struct and the field's number there.
    Field(Path, usize, u32),
}

/// The target of an assignment, and its type.
#[derive(Drop)]
pub struct Assignee {
    /// The target.
    pub target: Target,
    /// The values that it takes.
    pub value_type: ValueType,
}

/// The first name of a place.
pub fn first_name(p: &Place) -> &Name
    ensures { ident result.now ≡ first_name (place_of p.now) }
{
    match p {
        Place::Name(name) => name,
        Place::Element(element) => &element.name,
        Place::Path(path) => &path.first,
    }
}

/// The target of an assignment, if its type has no fault.
fn assignee_of_type(target: Target, t: Option<ValueType>) -> Option<Assignee>
    ensures { option_map assignee_of result ≡ assignee (Some (target_seen target)) t }
{
    match t {
        Some(value_type) => Some(Assignee { target, value_type }),
        None => {
            drop(target);
            None
        }
    }
}

/// An element on the left.
fn assigned_at(indexed: Option<Indexed>, index: Option<Expr>) -> Option<Assignee>
    ensures { option_map assignee_of result ≡ assigned_at indexed (option_map core_expr index) }
{
    match (indexed, index) {
        (Some(Indexed::Array(number, t)), Some(index)) => {
            assignee_of_type(Target::Element(number, index), Some(t))
        }
        (_, index) => {
            drop(index);
            None
        }
    }
}

/// A local and fields on the left. The last field must not be a final reference.
fn assignee_along(start: usize, m: ResolvedName, w: Walk, firsts: &mut Firsts) -> Option<Assignee>
    ensures value { option_map assignee_of result ≡ assignee_along start (meaning_of m.entry) (walk_of w) }
    ensures faults { firsts.new ≡ found_in firsts.old (final_faults start (walk_of w)) }
{
    let Walk::Reached(mut steps, t) = w else {
        return None;
    };
    match steps.pop() {
        Some(FieldStep::Field { structure, number }) => match m {
            ResolvedName::Local(i, _) => {
                let base = local_path(start, i, steps);
                assignee_of_type(Target::Field(base, structure, number), Some(t))
            }
            _ => None,
        },
        Some(FieldStep::Final { structure, number }) => {
            faulty_for(
                Finding::new(Code::NotAssignable, start, Why::FinalTarget),
                firsts,
            )
        }
        None => faulty_for(
            Finding::new(Code::NotAssignable, start, Why::FinalTarget),
            firsts,
        ),
    }
}

/// What is expected of the assigned value.
pub fn wanted_by(a: &Option<Assignee>) -> Want
    ensures { result ≡ wanted_by (option_map assignee_of a.now) }
{
    match a {
        Some(a) => Want::Value(a.value_type),
        None => Want::Anything,
    }
}

/// A name on the left.
fn assignee_at(
    checker: &Checker,
    start: usize,
    m: ResolvedName,
    firsts: &mut Firsts,
) -> Option<Assignee>
    ensures value { option_map assignee_of result ≡ assignee_at (scope checker.now).decls (meaning_of m.entry) }
    ensures faults { firsts.new ≡ found_in firsts.old (no_target (scope checker.now).decls start (meaning_of m.entry)) }
{
    match m {
        ResolvedName::Local(i, local) => match local.kind {
            LocalKind::Var => assignee_of_type(Target::Local(i), local.value_type),
            LocalKind::Let | LocalKind::Parameter => {
                let found = misnamed(Code::NotAssignable, Role::Target, start, m);
                checker.misplaced(found, m, firsts)
            }
        },
        ResolvedName::Decl(place, Decl::Global(v)) => assignee_of_type(
            Target::Global(checker.cell(place)),
            checker.type_outside(&v.value_type),
        ),
        ResolvedName::Decl(_, Decl::Lock(_)) => faulty(Code::LockAsValue, start, firsts),
        _ => checker.misplaced(
            misnamed(Code::NotAssignable, Role::Target, start, m),
            m,
            firsts,
        ),
    }
}

/// The array or pool on the left; a member of a pool can't be assigned to.
#[tactic(auto, using(resolution::specs::Theory::Leasts::found_append))]
fn array_at(
    checker: &Checker,
    start: usize,
    m: ResolvedName,
    firsts: &mut Firsts,
) -> Option<Indexed>
    ensures value { result ≡ indexed_by (scope checker.now).decls (meaning_of m.entry) }
    ensures faults { firsts.new ≡ found_in firsts.old
        (element_faults (scope checker.now).decls start (meaning_of m.entry)) }
{
    let indexed = checker.indexed(start, m, firsts);
    if let Some(Indexed::Pool(_, _)) = indexed {
        report_found(
            misnamed(Code::NotAssignable, Role::Target, start, m),
            firsts,
        );
    }
    indexed
}

/// An element on the left, with the faults of its index.
fn element_target(checker: &Checker, element: &Element, firsts: &mut Firsts) -> Checked<Assignee>
    ensures value { IfOk result
        (λ r. option_map assignee_of r ≡ target_of (scope checker.now) (element_of element.now)) }
    ensures faults { OnOk result
        (firsts.new ≡ found_in firsts.old (target_faults (scope checker.now) (element_of element.now))) }
{
    let start = element.name.start as usize;
    let array = array_at(checker, start, checker.meaning(&element.name), firsts);
    let index = checker.number(&element.index, firsts)?;
    Ok(assigned_at(array, index))
}

/// A path on the left.
fn path_target(checker: &Checker, path: &tree::Path, firsts: &mut Firsts) -> Checked<Assignee>
    ensures value { IfOk result (λ r. option_map assignee_of r ≡ target_of (scope checker.now) (path_of path.now)) }
    ensures faults { OnOk result
        (firsts.new ≡ found_in firsts.old (target_faults (scope checker.now) (path_of path.now))) }
{
    let start = path.first.start as usize;
    let m = checker.meaning(&path.first);
    let w = checker.walk(start, m, &path.fields, firsts)?;
    Ok(assignee_along(start, m, w, firsts))
}

/// Checks the left side of an assignment. Returns its target, if it can be assigned to.
pub fn check_target(checker: &Checker, p: &Place, firsts: &mut Firsts) -> Checked<Assignee>
    ensures value { IfOk result (λ r. option_map assignee_of r ≡ target_of (scope checker.now) (place_of p.now)) }
    ensures faults { OnOk result
        (firsts.new ≡ found_in firsts.old (target_faults (scope checker.now) (place_of p.now))) }
{
    match p {
        Place::Name(name) => {
            Ok(assignee_at(checker, name.start as usize, checker.meaning(name), firsts))
        }
        Place::Element(element) => element_target(checker, element, firsts),
        Place::Path(path) => path_target(checker, path, firsts),
    }
}
