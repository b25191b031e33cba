//! Where the lock paths of a section are in scope, and where their roots are bound.

ghost use Rattle.std.specs.Prelude.{◌≡◌, ◌≤◌, ℕ, length, map, IfOk, OnOk};
ghost use Rattle.core_lang.specs.Scopes.{numbers_from};
ghost use Rattle.flow.specs.Points.{scopes};
ghost use Rattle.flow.specs.Working.PointList.{point_at};
ghost use Rattle.locks.specs.Sets.{has};
ghost use Rattle.points.specs.Working.Dataflow.{column};
ghost use Rattle.points.specs.Working.Scoping.{AreThose, AreScopes, IsAfter, is_at, is_among, in_scope, binds, of_block, of_inner, behind_block, behind_action};

use core_lang::tree::{Action, Section, Stmt};
use flow::points::PointRef;
use locks::path::{LockPath, Root};
use locks::path_set::PathSet;
use source::memory::NoMemory;
use std::alloc::Global;

/// The lock paths of a section, by their roots.
#[derive(Drop)]
pub struct Roots<'a> {
    /// The lock paths.
    pub paths: &'a [LockPath],
    /// All paths fit into a set.
    pub ghost few: { length paths.now ≤ 64 },
}

impl<'a> Roots<'a> {
    /// For each point, the paths whose root it binds.
    pub fn bound(&self, alloc: Global, points: &[PointRef<'a>]) -> Result<Vec<PathSet>, NoMemory>
        ensures { IfOk result
            (λ sets. (i : ℕ) → column i sets.items ≡ map (binds self.now.paths.now i) (map point_at points.now)) }
    {
        let mut sets = Vec::with_capacity(alloc, points.len())?;
        for point in points {
            sets.push(self.bound_at(*point))?;
        }
        Ok(sets)
    }

    /// For each point, the paths in scope before it.
    pub fn in_scope(&self, alloc: Global, section: &Section) -> Result<Vec<PathSet>, NoMemory>
        ensures { IfOk result
            (λ sets. (i : ℕ) → column i sets.items ≡ map (in_scope self.now.paths.now i) (scopes section.now)) }
    {
        let mut sets = Vec::new(alloc);
        let opening = self.among_parameters(section.parameters);
        let scope = self.push_block(&section.body, opening, &mut sets)?;
        match section.result {
            Some(_) => {
                sets.push(scope)?;
                Ok(sets)
            }
            None => Ok(sets),
        }
    }

    // The paths whose root is this local.
    fn at(&self, local: usize) -> PathSet
        ensures { AreThose self.now.paths.now (is_at local) result }
    {
        let mut set = PathSet::new();
        for i in 0..self.paths.len() {
            if Roots::is_local(self.paths[i].root, local) {
                set = set.with(i);
            }
        }
        set
    }

    // The paths in scope where only the parameters are in scope.
    fn among_parameters(&self, parameters: usize) -> PathSet
        ensures { AreThose self.now.paths.now (is_among (numbers_from 0 parameters)) result }
    {
        let mut set = PathSet::new();
        for i in 0..self.paths.len() {
            if Roots::is_among_parameters(self.paths[i].root, parameters) {
                set = set.with(i);
            }
        }
        set
    }

    fn bound_at(&self, point: PointRef<'a>) -> PathSet
        ensures { (i : ℕ) → has result i ≡ binds self.now.paths.now i (point_at point.entry) }
    {
        match point {
            PointRef::Statement(statement) => match &statement.action {
                Action::Bind { local, .. } => self.at(*local),
                Action::Call {
                    result: Some(local),
                    ..
                } => self.at(*local),
                _ => PathSet::new(),
            },
            PointRef::Result(_) => PathSet::new(),
        }
    }

    // The paths in scope after a statement, if `scope` is in scope before it.
    fn behind(&self, action: &Action, scope: PathSet) -> PathSet
        ensures { IsAfter self.now.paths.now scope (behind_action action.now) result }
    {
        match action {
            Action::Bind { local, .. } => scope.union(self.at(*local)),
            Action::Call {
                result: Some(local),
                ..
            } => scope.union(self.at(*local)),
            _ => scope,
        }
    }

    // Adds the paths in scope before each point of a block. Returns those after the last.
    #[cycle(scopes)]
    fn push_block(
        &self,
        statements: &[Stmt],
        scope: PathSet,
        sets: &mut Vec<PathSet>,
    ) -> Result<PathSet, NoMemory>
        ensures sets { OnOk result (AreScopes self.now.paths.now scope (of_block statements.now) sets.old sets.new) }
        ensures behind { IfOk result (IsAfter self.now.paths.now scope (behind_block statements.now)) }
    {
        let mut now = scope;
        for statement in statements {
            sets.push(now)?;
            self.push_inner(&statement.action, now, sets)?;
            now = self.behind(&statement.action, now);
        }
        Ok(now)
    }

    // Adds the paths in scope before each point of a statement's blocks.
    #[cycle(scopes)]
    fn push_inner(
        &self,
        action: &Action,
        scope: PathSet,
        sets: &mut Vec<PathSet>,
    ) -> Result<(), NoMemory>
        ensures { OnOk result (AreScopes self.now.paths.now scope (of_inner action.now) sets.old sets.new) }
    {
        match action {
            Action::If { block, .. } => {
                self.push_block(block, scope, sets)?;
                Ok(())
            }
            Action::IfElse {
                block,
                otherwise,
                ..
            } => {
                self.push_block(block, scope, sets)?;
                self.push_block(otherwise, scope, sets)?;
                Ok(())
            }
            Action::While { body, .. } => {
                self.push_block(body, scope, sets)?;
                Ok(())
            }
            _ => Ok(()),
        }
    }

    fn is_local(root: Root, local: usize) -> bool
        ensures { result ≡ is_at local root }
    {
        match root {
            Root::GlobalLock | Root::WholeClass(_) => false,
            Root::Local(other) => local == other,
        }
    }

    fn is_among_parameters(root: Root, parameters: usize) -> bool
        ensures { result ≡ is_among (numbers_from 0 parameters) root }
    {
        match root {
            Root::GlobalLock | Root::WholeClass(_) => true,
            Root::Local(local) => local < parameters,
        }
    }
}
