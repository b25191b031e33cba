//! Visits the accesses of a section.

ghost use Rattle.std.specs.Prelude.{◌≡◌, [], ◌∷◌, map, Some, IfOk, OnOk};
ghost use Rattle.std.specs.Option.{option_copied, option_map};
ghost use Rattle.locks.specs.Locks.{protection_of};
ghost use Rattle.locks.specs.LockPaths.{is_listed};
ghost use Rattle.lockpaths.specs.declared.found.Start.TheVariants.{Form};
ghost use Rattle.flow.specs.Working.PointList.{point_at};
ghost use Rattle.flow.specs.Points.{statement};
ghost use Rattle.locks.specs.Accesses.{access, global, element, field, in_path, in_expr, in_exprs, in_condition, in_action};
ghost use Rattle.lockpaths.specs.Working.Told.{seen};
ghost use Rattle.lockpaths.specs.Working.Finding.{IsLockOf, IsTold, in_all, over, over_point, over_points, over_owner, over_owners};

use crate::forms::is_fixed_local;
use crate::found::{Destination, PathCollector, Start};
use core_lang::tree::{Action, Condition, Expr, FieldStep, Path, Section, Stmt};
use core_lang::typed::{CellOwner, LockClass, Protection, Typed};
use flow::points::PointRef;
use source::memory::NoMemory;

/// The base of an access to a field: a local followed by fields.
#[derive(Clone, Copy)]
struct Base<'a> {
    // The first byte of the access.
    start: usize,
    local: usize,
    fields: &'a [FieldStep],
    // Whether one of these fields is known not to be final.
    is_behind: bool,
}

/// Visits the accesses of a section of a program.
#[derive(Clone, Copy)]
pub struct Finder<'a> {
    /// The program.
    pub program: &'a Typed,
    /// The section.
    pub section: &'a Section,
}

// The lock path of a lock field of this class at the end of a normal form, if there is a normal form.
fn under(node: Option<usize>, class: usize) -> Option<Destination>
    ensures { result ≡ option_map (λ n. record { start = Form n; class = class }) node }
{
    match node {
        Some(node) => Some(Destination {
            start: Start::Form(node),
            class,
        }),
        None => None,
    }
}

// Whether the section lists the class in its head.
fn is_listed(section: &Section, class: usize) -> bool
    ensures { result ≡ is_listed section.now class }
{
    section.listed.contains(&class)
}

impl<'a> Finder<'a> {
    fn global(&self, start: usize, cell: u32, found: &mut PathCollector) -> Result<(), NoMemory>
        ensures { OnOk result (seen found.new ≡ over self.now (seen found.old) (access start (global cell) ∷ [])) }
    {
        let class = match self.program.cells.get(cell as usize) {
            Some(cell) => match cell.owner {
                CellOwner::Global(number) => match self.program.globals.get(number) {
                    Some(global) => Some(global.class),
                    None => None,
                },
                CellOwner::Element { .. } | CellOwner::Field { .. } => None,
            },
            None => None,
        };
        found.meet_global(start, class)
    }

    fn element(&self, start: usize, array: usize, found: &mut PathCollector) -> Result<(), NoMemory>
        ensures { OnOk result (seen found.new ≡ over self.now (seen found.old) (access start (element array) ∷ [])) }
    {
        let class = match self.program.shape.arrays.get(array) {
            Some(array) => Some(array.class),
            None => None,
        };
        found.meet_global(start, class)
    }

    // The protection of a struct's field.
    fn protection(&self, structure: usize, field: u32) -> Option<&'a Protection>
        ensures { option_copied result ≡ protection_of self.now.program.now structure field }
    {
        let structure = self.program.structs.get(structure)?;
        let field = structure.fields.get(field as usize)?;
        Some(&field.protection)
    }

    // The lock path of a field of a base, if it has one. A global lock needs no normal form, and neither does a class
    // that is taken whole.
    fn lock(
        &self,
        structure: usize,
        number: u32,
        base: Base<'_>,
        found: &mut PathCollector,
    ) -> Result<Option<Destination>, NoMemory>
        ensures told { seen found.new ≡ seen found.old }
        ensures place { IfOk result (IsLockOf self.now (seen found.old) structure number base.entry found.new) }
    {
        let Some(protection) = self.protection(structure, number) else {
            return Ok(None);
        };
        let class = protection.class;
        match self.program.classes.get(class) {
            Some(LockClass::Global(_)) => Ok(Some(Destination {
                start: Start::GlobalLock,
                class,
            })),
            Some(LockClass::Field { structure, .. }) => {
                if is_listed(self.section, class) {
                    return Ok(Some(Destination {
                        start: Start::WholeClass(*structure),
                        class,
                    }));
                }
                if base.is_behind {
                    return Ok(None);
                }
                let node = found.normal_form(
                    self.section,
                    base.local,
                    base.fields,
                    &protection.through,
                )?;
                Ok(under(node, class))
            }
            None => Ok(None),
        }
    }

    // Visits an access to a field of a base.
    fn field(
        &self,
        structure: usize,
        number: u32,
        base: Base<'_>,
        found: &mut PathCollector,
    ) -> Result<(), NoMemory>
        requires { IsTold base }
        ensures { OnOk result (seen found.new ≡ over self.now (seen found.old)
            (access base.entry.start (field base.entry.local base.entry.fields.now structure number) ∷ [])) }
    {
        let place = self.lock(structure, number, base, found)?;
        found.meet(base.start, place)
    }

    // Visits the fields of a path that are not final. After the first of them no base is a stable path.
    fn along(&self, path: &Path, found: &mut PathCollector) -> Result<(), NoMemory>
        ensures { OnOk result (seen found.new ≡ over self.now (seen found.old) (in_path path.now)) }
    {
        let mut is_behind = false;
        for k in 0..path.fields.len() {
            match path.fields[k] {
                FieldStep::Final { .. } => {}
                FieldStep::Field { structure, number } => {
                    let base = Base {
                        start: path.start,
                        local: path.local,
                        fields: &path.fields[..k],
                        is_behind,
                    };
                    is_behind = true;
                    self.field(structure, number, base, found)?;
                }
            }
        }
        Ok(())
    }

    fn expr(&self, e: &Expr, found: &mut PathCollector) -> Result<(), NoMemory>
        ensures { OnOk result (seen found.new ≡ over self.now (seen found.old) (in_expr e.now)) }
    {
        match e {
            Expr::Number(_) | Expr::Null => Ok(()),
            Expr::Place(path) => self.along(path, found),
            Expr::Global { start, cell } => self.global(*start, *cell, found),
            Expr::Element {
                start,
                array,
                index,
            } => {
                self.element(*start, *array, found)?;
                self.expr(index, found)?;
                Ok(())
            }
            Expr::Member { index, .. } => self.expr(index, found),
            Expr::Negate(e) => self.expr(e, found),
            Expr::Owned { value, .. } => self.expr(value, found),
            Expr::Chain { first, rest } => {
                self.expr(first, found)?;
                for operation in rest {
                    self.expr(&operation.operand, found)?;
                }
                Ok(())
            }
        }
    }

    // Visits the accesses of expressions, one after another.
    fn exprs(&self, list: &[Expr], found: &mut PathCollector) -> Result<(), NoMemory>
        ensures { OnOk result (seen found.new ≡ over self.now (seen found.old) (in_exprs list.now)) }
    {
        for e in list {
            self.expr(e, found)?;
        }
        Ok(())
    }

    #[cycle(conditions)]
    fn condition(&self, condition: &Condition, found: &mut PathCollector) -> Result<(), NoMemory>
        ensures { OnOk result (seen found.new ≡ over self.now (seen found.old) (in_condition condition.now)) }
    {
        match condition {
            Condition::Compare(_, a, b) => {
                self.expr(a, found)?;
                self.expr(b, found)?;
                Ok(())
            }
            Condition::Not(condition) => self.condition(condition, found),
            Condition::And(before, last) | Condition::Or(before, last) => {
                self.conditions(before, found)?;
                self.condition(last, found)?;
                Ok(())
            }
        }
    }

    #[cycle(conditions)]
    fn conditions(
        &self,
        conditions: &[Condition],
        found: &mut PathCollector,
    ) -> Result<(), NoMemory>
        ensures { OnOk result (seen found.new ≡ over self.now (seen found.old) (in_all conditions.now)) }
    {
        for condition in conditions {
            self.condition(condition, found)?;
        }
        Ok(())
    }

    // Visits the accesses of a statement's point.
    fn action(
        &self,
        start: usize,
        action: &Action,
        found: &mut PathCollector,
    ) -> Result<(), NoMemory>
        ensures { OnOk result (seen found.new ≡ over self.now (seen found.old) (in_action start action.now)) }
    {
        match action {
            Action::Bind { value, .. } | Action::SetLocal { value, .. } | Action::Print(value) => {
                self.expr(value, found)
            }
            Action::SetGlobal { cell, value } => {
                self.global(start, *cell, found)?;
                self.expr(value, found)?;
                Ok(())
            }
            Action::SetElement {
                array,
                index,
                value,
            } => {
                self.element(start, *array, found)?;
                self.expr(index, found)?;
                self.expr(value, found)?;
                Ok(())
            }
            Action::SetField {
                base,
                structure,
                field,
                value,
            } => {
                self.along(base, found)?;
                let whole = Base {
                    start: base.start,
                    local: base.local,
                    fields: &base.fields,
                    is_behind: false,
                };
                self.field(*structure, *field, whole, found)?;
                self.expr(value, found)?;
                Ok(())
            }
            Action::Call { arguments, .. } => self.exprs(arguments, found),
            Action::If { condition, .. }
            | Action::IfElse { condition, .. }
            | Action::While { condition, .. } => self.condition(condition, found),
        }
    }

    /// Visits the accesses of a point.
    pub fn point(&self, point: PointRef<'a>, found: &mut PathCollector) -> Result<(), NoMemory>
        ensures { OnOk result (seen found.new ≡ over_point self.now (seen found.old) (point_at point.entry)) }
    {
        match point {
            PointRef::Statement(statement) => {
                self.action(statement.start, &statement.action, found)?
            }
            PointRef::Result(result) => self.expr(&result.value, found)?,
        }
        found.end_point()
    }

    /// Visits the accesses of points.
    pub fn points(&self, points: &[PointRef<'a>], found: &mut PathCollector) -> Result<(), NoMemory>
        ensures { OnOk result (seen found.new ≡ over_points self.now (seen found.old) (map point_at points.now)) }
    {
        for point in points {
            self.point(*point, found)?;
        }
        Ok(())
    }

    // Visits the `where` of a statement, if it names a `var`.
    fn owner(&self, action: &Action, found: &mut PathCollector) -> Result<(), NoMemory>
        ensures { OnOk result (seen found.new ≡ over_owner self.now (seen found.old) (statement 0 action.now)) }
    {
        if let Action::Bind { value, .. } = action {
            if let Expr::Owned { start, owner, .. } = value {
                if !is_fixed_local(self.section, *owner as usize) {
                    found.meet_global(*start, None)?;
                }
            }
        }
        Ok(())
    }

    /// Visits the `where`s of points.
    pub fn owners(&self, points: &[PointRef<'a>], found: &mut PathCollector) -> Result<(), NoMemory>
        ensures { OnOk result (seen found.new ≡ over_owners self.now (seen found.old) (map point_at points.now)) }
    {
        for point in points {
            if let PointRef::Statement(statement) = *point {
                self.owner(&statement.action, found)?;
            }
        }
        Ok(())
    }
}
