//! The searches in statements and in those of their blocks, with the locals in scope at each.

ghost use Rattle.std.specs.Option.{option_map};
ghost use Rattle.std.specs.Prelude.{◌≡◌, map};
ghost use Rattle.syntax.specs.Views.{else_of, param_of, stmt_of, stmts_of};
ghost use Rattle.explanation_names.specs.Locals.{declared_by, param_in_scope};
ghost use Rattle.explanation_names.specs.Working.UsesFound.{all_declared, uses_in_blocks, uses_in_else, uses_in_stmts};
ghost use Rattle.explanation_names.specs.Working.Values.{Binds, Grows, Keeps, Says, option_list, typed_of, typed_seen};

use crate::found::FoundNames;
use crate::search::{LocalInScope, NameSearch};
use syntax::tree::{Block, Param, Stmt};

/// The local that a statement declares, if it declares one.
fn declared_by(s: &Stmt) -> Option<LocalInScope<'_>>
    ensures { option_list (option_map typed_of result) ≡ declared_by (stmt_of s.now) }
{
    match s {
        Stmt::Let(local) => Some(LocalInScope {
            name: &local.name,
            value_type: &local.value_type,
        }),
        Stmt::LetOwned(owned) => Some(LocalInScope {
            name: &owned.local.name,
            value_type: &owned.local.value_type,
        }),
        Stmt::LetCall(called) => Some(LocalInScope {
            name: &called.name,
            value_type: &called.value_type,
        }),
        Stmt::Var(local) => Some(LocalInScope {
            name: &local.name,
            value_type: &local.value_type,
        }),
        Stmt::If(_) => None,
        Stmt::Assign(_, _)
        | Stmt::While(_)
        | Stmt::Print(_, _)
        | Stmt::Return(_, _)
        | Stmt::Call(_, _) => None,
    }
}

/// Adds one more local to the scope, if there is one.
fn bind<'t>(
    local: Option<LocalInScope<'t>>,
    scope: &mut Vec<LocalInScope<'t>>,
    found: &mut FoundNames<'t>,
)
    ensures { Binds scope.old scope.new found.old found.new (option_list (option_map typed_of local.entry)) }
{
    if let Some(local) = local {
        if scope.push(local).is_err() {
            found.is_refused = true;
        }
    }
}

/// Adds parameters to the scope.
pub fn push_params<'t>(
    params: &'t [Param],
    scope: &mut Vec<LocalInScope<'t>>,
    found: &mut FoundNames<'t>,
)
    ensures { Binds scope.old scope.new found.old found.new (map param_in_scope (map param_of params.now)) }
{
    for param in params {
        let local = LocalInScope {
            name: &param.name,
            value_type: &param.value_type,
        };
        bind(Some(local), scope, found);
    }
}

impl<'s, 't> NameSearch<'s, 't> {
    /// Searches statements, with the locals that are in scope before them. Their own are in scope afterwards.
    #[cycle(stmts)]
    pub fn in_stmts(
        &self,
        stmts: &'t [Stmt],
        scope: &mut Vec<LocalInScope<'t>>,
        found: &mut FoundNames<'t>,
    )
        ensures found { Says self.now found.old found.new
            (uses_in_stmts (typed_seen scope.old.items) (stmts_of stmts.now)) }
        ensures scope { Grows found.new scope.old scope.new (all_declared (stmts_of stmts.now)) }
    {
        for s in stmts {
            let here = NameSearch {
                alloc: self.alloc,
                symbols: self.symbols,
                at: self.at,
                locals: scope.as_slice(),
            };
            here.in_own(s, found);
            self.in_blocks(s, scope, found);
            bind(declared_by(s), scope, found);
        }
    }

    #[cycle(stmts)]
    fn in_blocks(&self, s: &'t Stmt, scope: &mut Vec<LocalInScope<'t>>, found: &mut FoundNames<'t>)
        ensures found { Says self.now found.old found.new
            (uses_in_blocks (typed_seen scope.old.items) (stmt_of s.now)) }
        ensures scope { Keeps found.new scope.old scope.new }
    {
        match s {
            Stmt::If(choice) => {
                self.in_block(&choice.block, scope, found);
                self.in_else(&choice.otherwise, scope, found);
            }
            Stmt::While(repetition) => self.in_block(&repetition.block, scope, found),
            Stmt::Let(_)
            | Stmt::LetOwned(_)
            | Stmt::LetCall(_)
            | Stmt::Var(_)
            | Stmt::Assign(_, _)
            | Stmt::Print(_, _)
            | Stmt::Return(_, _)
            | Stmt::Call(_, _) => {}
        }
    }

    // Removes the locals of a block from the scope after it.
    #[cycle(stmts)]
    fn in_block(
        &self,
        block: &'t Block,
        scope: &mut Vec<LocalInScope<'t>>,
        found: &mut FoundNames<'t>,
    )
        ensures found { Says self.now found.old found.new
            (uses_in_stmts (typed_seen scope.old.items) (stmts_of block.now.stmts.items)) }
        ensures scope { Keeps found.new scope.old scope.new }
    {
        let ahead = scope.len();
        self.in_stmts(&block.stmts, scope, found);
        scope.truncate(ahead);
    }

    #[cycle(stmts)]
    fn in_else(
        &self,
        other: &'t Option<Block>,
        scope: &mut Vec<LocalInScope<'t>>,
        found: &mut FoundNames<'t>,
    )
        ensures found { Says self.now found.old found.new
            (uses_in_else (typed_seen scope.old.items) (else_of other.now)) }
        ensures scope { Keeps found.new scope.old scope.new }
    {
        if let Some(block) = other {
            self.in_block(block, scope, found);
        }
    }
}
