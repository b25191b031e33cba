//! The locals in scope, and expressions and conditions of them.

ghost use Rattle.std.specs.Prelude.{◌≡◌, ◌+◌, ◌<◌, ◌^◌, length, IfOk, OnOk};
ghost use Rattle.std.specs.List.{Contains};
ghost use Rattle.core_lang.specs.Expansion.{pair, RenamesPath, Renames, RenamesTest, RenamesResult, entered};
ghost use Rattle.core_lang_helpers.specs.Working.Scopes.{pairs_of, at_of, RenamesOperations, RenamesConditions, HasLets};

use crate::not_written_out::NotWrittenOut;
use core_lang::tree::{Action, Condition, Expr, Operation, Path, Return, Stmt};
use std::alloc::Global;

/// A local of the tree, and the local that replaces it in the expansion.
#[derive(Clone, Copy, PartialEq, Eq, Debug)]
pub struct Pair {
    /// The number in the tree.
    pub own: usize,
    /// The new number.
    pub written: usize,
}

/// The locals of a section or a helper that are in scope.
#[derive(Drop)]
pub struct WrittenScope {
    /// The allocator.
    pub alloc: Global,
    /// The locals with their new numbers, in the order in which they are bound.
    pub pairs: Vec<Pair>,
    /// The next local that the tree binds.
    pub own: usize,
}

impl WrittenScope {
    /// The scope at the begin of a body: its parameters, numbered from `first` on.
    pub fn entered(
        alloc: Global,
        parameters: usize,
        first: usize,
    ) -> Result<WrittenScope, NotWrittenOut>
        requires { first + parameters < 2 ^ 64 }
        ensures { IfOk result (λ scope. at_of scope (first + parameters) ≡ entered parameters first) }
    {
        let mut pairs = Vec::new(alloc);
        for k in 0..parameters {
            pairs.push(Pair {
                own: k,
                written: first + k,
            })?;
        }
        Ok(WrittenScope {
            alloc,
            pairs,
            own: parameters,
        })
    }

    /// The new number of the local `own`. At most 64 locals are in scope.
    pub fn find(&self, own: usize) -> Result<usize, NotWrittenOut>
        ensures { IfOk result (λ written. Contains (pairs_of self.now) (pair own written)) }
    {
        for pair in &self.pairs {
            if pair.own == own {
                return Ok(pair.written);
            }
        }
        Err(NotWrittenOut::Astray)
    }

    // The new number of a local that is an owner.
    fn owner(&self, own: u32) -> Result<u32, NotWrittenOut>
        ensures { IfOk result (λ written. Contains (pairs_of self.now) (pair own written)) }
    {
        match u32::try_from(self.find(own as usize)?) {
            Ok(written) => Ok(written),
            Err(_) => Err(NotWrittenOut::Astray),
        }
    }

    /// The same path, with its local renamed.
    pub fn path(&self, path: &Path) -> Result<Path, NotWrittenOut>
        ensures { IfOk result (RenamesPath (pairs_of self.now) path.now) }
    {
        Ok(Path {
            start: path.start,
            local: self.find(path.local)?,
            fields: path.fields.clone()?,
            in_parentheses: path.in_parentheses,
        })
    }

    /// The same expression, with its locals renamed.
    #[cycle(expr)]
    pub fn expr(&self, e: &Expr) -> Result<Expr, NotWrittenOut>
        ensures { IfOk result (Renames (pairs_of self.now) e.now) }
    {
        match e {
            Expr::Number(n) => Ok(Expr::Number(*n)),
            Expr::Null => Ok(Expr::Null),
            Expr::Place(path) => Ok(Expr::Place(self.path(path)?)),
            Expr::Global { start, cell } => Ok(Expr::Global {
                start: *start,
                cell: *cell,
            }),
            Expr::Element {
                start,
                array,
                index,
            } => Ok(Expr::Element {
                start: *start,
                array: *array,
                index: self.boxed(index)?,
            }),
            Expr::Member { pool, index } => Ok(Expr::Member {
                pool: *pool,
                index: self.boxed(index)?,
            }),
            Expr::Negate(e) => Ok(Expr::Negate(self.boxed(e)?)),
            Expr::Owned {
                value,
                structure,
                number,
                start,
                owner,
            } => Ok(Expr::Owned {
                value: self.boxed(value)?,
                structure: *structure,
                number: *number,
                start: *start,
                owner: self.owner(*owner)?,
            }),
            Expr::Chain { first, rest } => {
                let first = self.boxed(first)?;
                let rest = self.operations(rest)?;
                Ok(Expr::Chain { first, rest })
            }
        }
    }

    #[cycle(expr)]
    fn boxed(&self, e: &Expr) -> Result<Box<Expr>, NotWrittenOut>
        ensures { IfOk result (λ made. Renames (pairs_of self.now) e.now made.value) }
    {
        Ok(Box::new(self.alloc, self.expr(e)?)?)
    }

    #[cycle(expr)]
    fn operations(&self, operations: &[Operation]) -> Result<Vec<Operation>, NotWrittenOut>
        ensures { IfOk result (λ made. RenamesOperations (pairs_of self.now) operations.now made.items) }
    {
        let mut made = Vec::with_capacity(self.alloc, operations.len())?;
        for operation in operations {
            let operand = self.expr(&operation.operand)?;
            made.push(Operation {
                operator: operation.operator,
                operand,
            })?;
        }
        Ok(made)
    }

    /// The same condition, with its locals renamed.
    #[cycle(condition)]
    pub fn condition(&self, condition: &Condition) -> Result<Condition, NotWrittenOut>
        ensures { IfOk result (RenamesTest (pairs_of self.now) condition.now) }
    {
        match condition {
            Condition::Compare(comparison, a, b) => {
                let a = self.expr(a)?;
                let b = self.expr(b)?;
                Ok(Condition::Compare(*comparison, a, b))
            }
            Condition::Not(condition) => Ok(Condition::Not(self.boxed_condition(condition)?)),
            Condition::And(before, last) => {
                let before = self.conditions(before)?;
                let last = self.boxed_condition(last)?;
                Ok(Condition::And(before, last))
            }
            Condition::Or(before, last) => {
                let before = self.conditions(before)?;
                let last = self.boxed_condition(last)?;
                Ok(Condition::Or(before, last))
            }
        }
    }

    #[cycle(condition)]
    fn boxed_condition(&self, condition: &Condition) -> Result<Box<Condition>, NotWrittenOut>
        ensures { IfOk result (λ made. RenamesTest (pairs_of self.now) condition.now made.value) }
    {
        Ok(Box::new(self.alloc, self.condition(condition)?)?)
    }

    #[cycle(condition)]
    fn conditions(&self, conditions: &[Condition]) -> Result<Vec<Condition>, NotWrittenOut>
        ensures { IfOk result (λ made. RenamesConditions (pairs_of self.now) conditions.now made.items) }
    {
        let mut made = Vec::with_capacity(self.alloc, conditions.len())?;
        for condition in conditions {
            made.push(self.condition(condition)?)?;
        }
        Ok(made)
    }

    /// The same result, with its locals renamed, or none.
    pub fn returned(&self, returned: &Option<Return>) -> Result<Option<Return>, NotWrittenOut>
        ensures { IfOk result (RenamesResult (pairs_of self.now) returned.now) }
    {
        match returned {
            Some(returned) => Ok(Some(Return {
                start: returned.start,
                value: self.expr(&returned.value)?,
            })),
            None => Ok(None),
        }
    }

    /// Appends a `let` for each argument of a call that starts at `start`, from left to right. The first binds the
    /// local `first`.
    pub fn lets(
        &self,
        start: usize,
        arguments: &[Expr],
        first: usize,
        written: &mut Vec<Stmt>,
    ) -> Result<(), NotWrittenOut>
        requires { first + length arguments.now < 2 ^ 64 }
        ensures { OnOk result
            (HasLets start (pairs_of self.now) arguments.now first written.old.items written.new.items) }
    {
        let mut local = first;
        for argument in arguments {
            let action = Action::Bind {
                local,
                value: self.expr(argument)?,
            };
            written.push(Stmt { start, action })?;
            local += 1;
        }
        Ok(())
    }
}
