//! Statements, with the locals in scope.

ghost use Rattle.std.specs.Prelude.{◌≡◌, ◌+◌, ◌++◌, [], ◌∷◌, OnOk, map};
ghost use Rattle.syntax.specs.Theory.Rows.{while_of};
ghost use Rattle.syntax.specs.Views.{ident, decl_of, stmt_of, if_of, stmts_of, local_of, called_local_of, helper_call_of, else_of, param_of, type_of as type_seen};
ghost use Rattle.core_lang.specs.declared.tree.LocalKind.TheVariants.{Let, Parameter};
ghost use Rattle.resolution.specs.Scopes.{bound, entered, meaning, type_of};
ghost use Rattle.resolution.specs.Statements.{after, after_else, after_all};
ghost use Rattle.resolution.specs.CallGraphs.{call_sites, stmt_calls, else_calls, stmts_calls, stmt_points, else_points, stmts_points};
ghost use Rattle.types_symbols.specs.{decls_of};
ghost use Rattle.types.specs.Working.Walks.{scope_at, number_meant, behind_block, Leads, AddsCalls};

use core_lang::tree::LocalKind;
use core_lang_helpers::graph::CallSite;
use std::alloc::{AllocError, Global};
use syntax::tree;
use syntax::tree::{Block, Decl, HelperCall, If, Name, Param, Stmt};
use types_symbols::scope::{Locals, ResolvedName, meaning_at, type_at, type_outside};
use types_symbols::table::SymbolTable;

/// The state of a walk over statements.
#[derive(Drop)]
pub struct Walk {
    /// The locals so far.
    pub locals: Locals,
    /// The calls of helpers so far.
    pub calls: Vec<CallSite>,
    /// The number of statements so far that are points by themselves.
    pub points: usize,
}

impl Walk {
    // Counts one more point. A text with more than a `usize` counts does not fit into memory.
    fn point(&mut self) -> Result<(), AllocError>
        ensures locals { self.new.locals ≡ self.old.locals }
        ensures calls { self.new.calls ≡ self.old.calls }
        ensures points { OnOk result (self.new.points ≡ self.old.points + 1) }
    {
        let Some(points) = self.points.checked_add(1) else {
            return Err(AllocError);
        };
        self.points = points;
        Ok(())
    }
}

/// Reads the calls of a section or a helper off its tree.
#[derive(Clone, Copy)]
pub struct Reader<'a> {
    /// The allocator.
    pub alloc: Global,
    /// The symbol table.
    pub symbols: &'a SymbolTable<'a>,
}

impl Reader<'_> {
    // The number of the helper that a name refers to, if it refers to one.
    fn number(&self, locals: &Locals, name: &Name) -> Option<usize>
        ensures { result ≡ number_meant (decls_of self.now.symbols.now)
            (meaning (scope_at self.now locals.now) (ident name.now).text) }
    {
        match meaning_at(self.symbols, locals, name) {
            ResolvedName::Decl(place, d) => match d {
                Decl::Helper(_) => Some(self.symbols.number(place, d)),
                _ => None,
            },
            ResolvedName::Local(_, _) | ResolvedName::Nothing => None,
        }
    }

    // Notes a call, if it is one of a helper.
    fn call(&self, call: &HelperCall, is_bound: bool, walk: &mut Walk) -> Result<(), AllocError>
        ensures locals { walk.new.locals ≡ walk.old.locals }
        ensures calls { OnOk result
            (AddsCalls self.now walk.old walk.new (λ sc. call_sites sc is_bound (helper_call_of call.now))) }
        ensures points { walk.new.points ≡ walk.old.points }
    {
        if let Some(helper) = self.number(&walk.locals, &call.helper) {
            walk.calls.push(CallSite {
                helper,
                start: call.helper.start as usize,
                is_bound,
            })?;
        }
        Ok(())
    }

    // Binds a local, which is in scope from here on.
    fn bind(
        &self,
        name: &Name,
        kind: LocalKind,
        value_type: &tree::ValueType,
        locals: &mut Locals,
    ) -> Result<(), AllocError>
        ensures { OnOk result (Leads self.now locals.old locals.new
            (λ sc. bound sc kind (ident name.now) (type_of sc (type_seen value_type.now)))) }
    {
        let value_type = type_at(self.symbols, locals, value_type);
        locals.bind(self.alloc, name, kind, value_type)
    }

    /// Binds the parameters of a section or a helper.
    pub fn params(&self, params: &[Param], locals: &mut Locals) -> Result<(), AllocError>
        ensures { OnOk result (Leads self.now locals.old locals.new (λ sc. entered sc (map param_of params.now))) }
    {
        for param in params {
            let value_type = type_outside(self.symbols, &param.value_type);
            locals.bind(self.alloc, &param.name, LocalKind::Parameter, value_type)?;
        }
        Ok(())
    }

    // Visits a `let` or `var` with its value.
    fn local(&self, kind: LocalKind, local: &tree::Local, walk: &mut Walk) -> Result<(), AllocError>
        ensures scope { OnOk result (Leads self.now walk.old.locals walk.new.locals
            (λ sc. bound sc kind (local_of local.now).name (type_of sc (local_of local.now).value_type))) }
        ensures calls { OnOk result (walk.new.calls ≡ walk.old.calls) }
        ensures points { OnOk result (walk.new.points ≡ walk.old.points + 1) }
    {
        walk.point()?;
        self.bind(&local.name, kind, &local.value_type, &mut walk.locals)
    }

    // Visits a statement.
    #[cycle(stmts)]
    fn stmt(&self, s: &Stmt, walk: &mut Walk) -> Result<(), AllocError>
        ensures scope { OnOk result (Leads self.now walk.old.locals walk.new.locals (λ sc. after sc (stmt_of s.now))) }
        ensures calls { OnOk result (AddsCalls self.now walk.old walk.new (λ sc. stmt_calls sc (stmt_of s.now))) }
        ensures points { OnOk result (walk.new.points ≡ walk.old.points + stmt_points (stmt_of s.now)) }
    {
        match s {
            Stmt::Let(local) => self.local(LocalKind::Let, local, walk),
            Stmt::LetOwned(owned) => self.local(LocalKind::Let, &owned.local, walk),
            Stmt::LetCall(local) => {
                self.call(&local.call, true, walk)?;
                self.bind(
                    &local.name,
                    LocalKind::Let,
                    &local.value_type,
                    &mut walk.locals,
                )
            }
            Stmt::Var(local) => self.local(LocalKind::Var, local, walk),
            Stmt::If(choice) => self.choice(choice, walk),
            Stmt::While(repetition) => self.repetition(repetition, walk),
            Stmt::Assign(_, _) | Stmt::Print(_, _) => walk.point(),
            Stmt::Return(_, _) => Ok(()),
            Stmt::Call(_, call) => self.call(call, false, walk),
        }
    }

    // Visits a loop.
    #[cycle(stmts)]
    fn repetition(&self, repetition: &tree::While, walk: &mut Walk) -> Result<(), AllocError>
        ensures scope { OnOk result
            (Leads self.now walk.old.locals walk.new.locals (λ sc. after sc (while_of repetition.now))) }
        ensures calls { OnOk result
            (AddsCalls self.now walk.old walk.new (λ sc. stmt_calls sc (while_of repetition.now))) }
        ensures points { OnOk result (walk.new.points ≡ walk.old.points + stmt_points (while_of repetition.now)) }
    {
        walk.point()?;
        self.block(&repetition.block, walk)
    }

    // Visits a choice.
    #[cycle(stmts)]
    fn choice(&self, choice: &If, walk: &mut Walk) -> Result<(), AllocError>
        ensures scope { OnOk result
            (Leads self.now walk.old.locals walk.new.locals (λ sc. after sc (if_of choice.now))) }
        ensures calls { OnOk result (AddsCalls self.now walk.old walk.new (λ sc. stmt_calls sc (if_of choice.now))) }
        ensures points { OnOk result (walk.new.points ≡ walk.old.points + stmt_points (if_of choice.now)) }
    {
        walk.point()?;
        self.block(&choice.block, walk)?;
        self.otherwise(&choice.otherwise, walk)
    }

    // Visits what follows `else`.
    #[cycle(stmts)]
    fn otherwise(&self, other: &Option<Block>, walk: &mut Walk) -> Result<(), AllocError>
        ensures scope { OnOk result
            (Leads self.now walk.old.locals walk.new.locals (λ sc. after_else sc (else_of other.now))) }
        ensures calls { OnOk result (AddsCalls self.now walk.old walk.new (λ sc. else_calls sc (else_of other.now))) }
        ensures points { OnOk result (walk.new.points ≡ walk.old.points + else_points (else_of other.now)) }
    {
        match other {
            Some(block) => self.block(block, walk),
            None => Ok(()),
        }
    }

    // Visits a block. Its locals are out of scope after it.
    #[cycle(stmts)]
    fn block(&self, block: &Block, walk: &mut Walk) -> Result<(), AllocError>
        ensures scope { OnOk result
            (Leads self.now walk.old.locals walk.new.locals (λ sc. behind_block sc (stmts_of block.now.stmts.items))) }
        ensures calls { OnOk result
            (AddsCalls self.now walk.old walk.new (λ sc. stmts_calls sc (stmts_of block.now.stmts.items))) }
        ensures points { OnOk result
            (walk.new.points ≡ walk.old.points + stmts_points (stmts_of block.now.stmts.items)) }
    {
        let ahead = walk.locals.len();
        self.stmts(&block.stmts, walk)?;
        walk.locals.hide_from(ahead);
        Ok(())
    }

    /// Visits statements, one after another.
    #[cycle(stmts)]
    pub fn stmts(&self, stmts: &[Stmt], walk: &mut Walk) -> Result<(), AllocError>
        ensures scope { OnOk result
            (Leads self.now walk.old.locals walk.new.locals (λ sc. after_all sc (stmts_of stmts.now))) }
        ensures calls { OnOk result (AddsCalls self.now walk.old walk.new (λ sc. stmts_calls sc (stmts_of stmts.now))) }
        ensures points { OnOk result (walk.new.points ≡ walk.old.points + stmts_points (stmts_of stmts.now)) }
    {
        for s in stmts {
            self.stmt(s, walk)?;
        }
        Ok(())
    }
}
