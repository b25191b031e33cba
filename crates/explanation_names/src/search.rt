//! The search for what may be meant by a name that begins at a byte.

ghost use Rattle.std.specs.List.{filter_map};
ghost use Rattle.std.specs.Prelude.{◌≡◌, ◌∷◌, [], map};
ghost use Rattle.syntax.specs.Views.{ident};
ghost use Rattle.explanation_names.specs.Working.Found.{begins, declared_as, names_of};
ghost use Rattle.explanation_names.specs.Locals.{LocalInScope as LocalSeen};
ghost use Rattle.explanation_names.specs.Sought.{of_kind};
ghost use Rattle.explanation_names.specs.Working.Values.{Adds, Says, decls_at, locals_at};

use crate::found::FoundNames;
use crate::sought::NameKind;
use std::alloc::Global;
use syntax::tree::{Name, ValueType};
use types_symbols::table::SymbolTable;

/// A local with its type.
#[derive(Clone, Copy)]
pub struct LocalInScope<'t> {
    /// Its name.
    pub name: &'t Name,
    /// Its type, as written.
    pub value_type: &'t ValueType,
}

/// The state of a search.
#[derive(Clone, Copy)]
pub struct NameSearch<'s, 't> {
    /// The allocator.
    pub alloc: Global,
    /// The symbol table.
    pub symbols: &'s SymbolTable<'t>,
    /// The byte at which the unknown name begins.
    pub at: usize,
    /// The locals in scope.
    pub locals: &'s [LocalInScope<'t>],
}

/// Whether the name begins at the byte `at`.
pub fn begins(at: usize, name: &Name) -> bool
    ensures { result ≡ begins at (ident name.now) }
{
    name.start as usize == at
}

impl<'s, 't> NameSearch<'s, 't> {
    fn push_declared(&self, sought: NameKind, found: &mut FoundNames<'t>)
        ensures { Adds found.old found.new (filter_map (declared_as sought) (decls_at self.now)) }
    {
        for decl in self.symbols.items() {
            found.push_some(sought.declared_as(decl));
        }
    }

    fn push_locals(&self, found: &mut FoundNames<'t>)
        ensures { Adds found.old found.new (map (λ (l : LocalSeen). l.name) (locals_at self.now)) }
    {
        for local in self.locals {
            found.push(local.name);
        }
    }

    fn push_names(&self, sought: NameKind, found: &mut FoundNames<'t>)
        ensures { Adds found.old found.new (names_of (decls_at self.now) sought (locals_at self.now)) }
    {
        if !sought.can_be_local() {
            self.push_declared(sought, found);
            return;
        }
        self.push_locals(found);
        self.push_declared(sought, found);
    }

    /// Adds the names of the kind `sought`, if `name` begins at the byte.
    pub fn of_kind(&self, sought: NameKind, name: &Name, found: &mut FoundNames<'t>)
        ensures { Says self.now found.old found.new (of_kind sought (locals_at self.now) (ident name.now) ∷ []) }
    {
        if begins(self.at, name) {
            self.push_names(sought, found);
        }
    }
}
