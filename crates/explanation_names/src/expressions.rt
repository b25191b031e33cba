//! The searches for unknown names in expressions and in statements, but not in their blocks.

ghost use Rattle.std.specs.List.{flat_map};
ghost use Rattle.std.specs.Prelude.{◌≡◌, map};
ghost use Rattle.syntax.specs.Views.{element_of, expr_of, helper_call_of, joined_of, links_of, local_of, owned_local_of, path_of, place_of, stmt_of, type_of};
ghost use Rattle.explanation_names.specs.Working.UsesFound.{uses_at, uses_behind, uses_by, uses_in, uses_of_call, uses_of_local, uses_of_type};
ghost use Rattle.explanation_names.specs.Working.Values.{Says, locals_at};

use crate::found::FoundNames;
use crate::search::NameSearch;
use crate::sought::NameKind;
use syntax::tree::{
    Element, Expr, HelperCall, Joined, Link, Local, OwnedLocal, Path, Place, Stmt, ValueType,
};

impl<'s, 't> NameSearch<'s, 't> {
    fn in_path(&self, path: &Path, found: &mut FoundNames<'t>)
        ensures { Says self.now found.old found.new (uses_at (locals_at self.now) (path_of path.now)) }
    {
        self.of_kind(NameKind::Local, &path.first, found);
        self.by_dots(path, found);
    }

    #[cycle(exprs)]
    fn in_element(&self, element: &Element, found: &mut FoundNames<'t>)
        ensures { Says self.now found.old found.new (uses_at (locals_at self.now) (element_of element.now)) }
    {
        self.of_kind(NameKind::Indexed, &element.name, found);
        self.in_expr(&element.index, found);
    }

    #[cycle(exprs)]
    fn in_expr(&self, e: &Expr, found: &mut FoundNames<'t>)
        ensures { Says self.now found.old found.new (uses_in (locals_at self.now) (expr_of e.now)) }
    {
        match e {
            Expr::Int(_) | Expr::Null(_) => {}
            Expr::Name(name) => self.of_kind(NameKind::Value, name, found),
            Expr::Element(element) => self.in_element(element, found),
            Expr::Path(path) => self.in_path(path, found),
            Expr::Paren(_, inner) => self.in_expr(inner, found),
            Expr::Prefix(_, _, operand) => self.in_expr(operand, found),
            Expr::Joined(joined) => self.in_joined(joined, found),
        }
    }

    #[cycle(exprs)]
    fn in_joined(&self, joined: &Joined, found: &mut FoundNames<'t>)
        ensures { Says self.now found.old found.new (uses_in (locals_at self.now) (joined_of joined.now)) }
    {
        match joined {
            Joined::Pair(_, left, right) => {
                self.in_expr(left, found);
                self.in_expr(right, found);
            }
            Joined::Chain(_, first, links) => {
                self.in_expr(first, found);
                self.in_links(links, found);
            }
            Joined::Compare(_, left, right) => {
                self.in_expr(left, found);
                self.in_expr(right, found);
            }
        }
    }

    #[cycle(exprs)]
    fn in_links(&self, links: &[Link], found: &mut FoundNames<'t>)
        ensures { Says self.now found.old found.new (uses_behind (locals_at self.now) (links_of links.now)) }
    {
        'links: for link in links {
            self.in_expr(&link.operand, found);
        }
    }

    fn in_place(&self, place: &Place, found: &mut FoundNames<'t>)
        ensures { Says self.now found.old found.new (uses_at (locals_at self.now) (place_of place.now)) }
    {
        match place {
            Place::Name(name) => self.of_kind(NameKind::Value, name, found),
            Place::Element(element) => self.in_element(element, found),
            Place::Path(path) => self.in_path(path, found),
        }
    }

    fn in_exprs(&self, exprs: &[Expr], found: &mut FoundNames<'t>)
        ensures { Says self.now found.old found.new (flat_map (uses_in (locals_at self.now)) (map expr_of exprs.now)) }
    {
        for e in exprs {
            self.in_expr(e, found);
        }
    }

    /// Searches a type as it is written.
    pub fn in_type(&self, t: &ValueType, found: &mut FoundNames<'t>)
        ensures { Says self.now found.old found.new (uses_of_type (locals_at self.now) (type_of t.now)) }
    {
        match t {
            ValueType::Int => {}
            ValueType::Ref(target) => self.of_kind(NameKind::Struct, target, found),
        }
    }

    fn in_call(&self, call: &HelperCall, found: &mut FoundNames<'t>)
        ensures { Says self.now found.old found.new (uses_of_call (locals_at self.now) (helper_call_of call.now)) }
    {
        self.of_kind(NameKind::Helper, &call.helper, found);
        self.in_exprs(&call.arguments, found);
    }

    fn in_local(&self, local: &Local, found: &mut FoundNames<'t>)
        ensures { Says self.now found.old found.new (uses_of_local (locals_at self.now) (local_of local.now)) }
    {
        self.in_type(&local.value_type, found);
        self.in_expr(&local.value, found);
    }

    fn in_owned(&self, owned: &OwnedLocal, found: &mut FoundNames<'t>)
        ensures { Says self.now found.old found.new (uses_by (locals_at self.now) (owned_local_of owned.now)) }
    {
        self.in_local(&owned.local, found);
        self.by_owner(&owned.local.value_type, &owned.owner.field, found);
        self.of_kind(NameKind::Local, &owned.owner.local, found);
    }

    /// Searches a statement, but not its blocks.
    pub fn in_own(&self, s: &Stmt, found: &mut FoundNames<'t>)
        ensures { Says self.now found.old found.new (uses_by (locals_at self.now) (stmt_of s.now)) }
    {
        match s {
            Stmt::Let(local) => self.in_local(local, found),
            Stmt::LetOwned(owned) => self.in_owned(owned, found),
            Stmt::LetCall(called) => {
                self.in_type(&called.value_type, found);
                self.in_call(&called.call, found);
            }
            Stmt::Var(local) => self.in_local(local, found),
            Stmt::Assign(place, e) => {
                self.in_place(place, found);
                self.in_expr(e, found);
            }
            Stmt::If(choice) => self.in_expr(&choice.condition, found),
            Stmt::While(repetition) => self.in_expr(&repetition.condition, found),
            Stmt::Print(_, e) => self.in_expr(e, found),
            Stmt::Return(_, e) => self.in_expr(e, found),
            Stmt::Call(_, call) => self.in_call(call, found),
        }
    }
}
