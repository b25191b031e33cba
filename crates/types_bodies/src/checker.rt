//! The checker of a section or a helper: the symbol table, and the locals so far.

ghost use Rattle.std.specs.Prelude.{◌≡◌, OnOk, None, length, map, option_map};
ghost use Rattle.syntax.specs.Trees.{ref_type};
ghost use Rattle.syntax.specs.Views.{ident, decl_of, struct_of, class_name_of, type_of as type_seen};
ghost use Rattle.resolution.specs.Scopes.{meaning, outside, bound, hidden_from, number_at, the_struct, type_of};
ghost use Rattle.resolution.specs.Expressions.{cell_of};
ghost use Rattle.resolution.specs.Working.TypedSections.{class_named};
ghost use Rattle.resolution.specs.Working.Findings.{found_in};
ghost use Rattle.resolution.specs.Working.FaultLists.{local_faults, type_faults};
ghost use Rattle.types_symbols.specs.{decls_of, meaning_of, local_seen};
ghost use Rattle.types_bodies.specs.Working.Checkers.{scope};
ghost use Rattle.types_bodies.specs.Working.Misplaced.{misplaced, taken_name_faults};

use core_lang::tree::LocalKind;
use core_lang::value::ValueType;
use resolution::body_limits::BodyLimits;
use resolution::finding::{Finding, Firsts, report, report_if};
use source::fault::Code;
use std::alloc::{AllocError, Global};
use std::marker::Model;
use syntax::tree;
use syntax::tree::{ClassName, Decl, Name};
use types_symbols::class_named;
use types_symbols::members::Structure;
use types_symbols::scope::{
    Local, Locals, ResolvedName, meaning_at, report_local_type, report_type, report_unfit,
    struct_named, type_at, type_outside,
};
use types_symbols::table::SymbolTable;

/// The checker of a section or a helper: the symbol table, and the locals up to the current place.
#[derive(Drop)]
pub struct Checker<'a> {
    alloc: Global,
    symbols: &'a SymbolTable<'a>,
    locals: Locals,
}

impl<'a> Model for Checker<'a> {
    ghost use Rattle.types_bodies.specs.Working.Checkers.{Known};
    ghost use Rattle.std.specs.Coded.{codes};
    ghost use Rattle.syntax.specs.contracts.tree.Decl as the_decl;

    ghost Value = { Known };

    ghost coded = { Prim.hlevel (codes, the_decl.the_row.coded) };

    ghost view = { λ c. record { decls = c.symbols.now; locals = c.locals.locals; result = c.locals.result; limits = c.locals.limits } };
}

impl<'a> Checker<'a> {
    /// A checker at the start of a section or a helper with this result type and these limits.
    pub fn new(
        alloc: Global,
        symbols: &'a SymbolTable<'a>,
        given: Option<ValueType>,
        most: BodyLimits,
    ) -> Checker<'a>
        ensures { scope result ≡ record (outside (decls_of symbols.now)) { result = given; limits = most } }
    {
        Checker {
            alloc,
            symbols,
            locals: Locals::new(symbols.maker(), given, most),
        }
    }

    /// The allocator.
    pub fn alloc(&self) -> Global {
        self.alloc
    }

    // ---- what names refer to

    /// The lock class of this name. `None` if it does not name a lock field of a struct.
    pub fn class_named(&self, class: &ClassName) -> Option<usize>
        ensures { result ≡ class_named (scope self.now).decls (class_name_of class.now) }
    {
        class_named(self.symbols, class)
    }

    /// What a name refers to here.
    pub fn meaning(&self, name: &Name) -> ResolvedName<'_>
        ensures { meaning_of result ≡ meaning (scope self.now) (ident name.now).text }
    {
        meaning_at(self.symbols, &self.locals, name)
    }

    /// Notes a name that can't stand here: an unknown one, or one whose declaration has a type without a fault.
    pub fn misplaced<T>(&self, found: Finding, m: ResolvedName, firsts: &mut Firsts) -> Option<T>
        ensures none { result ≡ None }
        ensures faults { firsts.new ≡ found_in firsts.old
            (misplaced (scope self.now).decls found (meaning_of m.entry)) }
    {
        match m {
            ResolvedName::Nothing => report(Code::UnknownName, found.start, firsts),
            _ => report_unfit(self.symbols, found, m, firsts),
        }
        None
    }

    /// The type that is written in a declaration, if it has no fault.
    pub fn type_outside(&self, t: &tree::ValueType) -> Option<ValueType>
        ensures { result ≡ type_of (outside (scope self.now).decls) (type_seen t.now) }
    {
        type_outside(self.symbols, t)
    }

    /// A reference to the struct of this name, if it is known outside of sections.
    pub fn reference_to(&self, name: &Name) -> Option<ValueType>
        ensures { result ≡ type_of (outside (scope self.now).decls) (ref_type (ident name.now)) }
    {
        match struct_named(self.symbols, name) {
            Some(number) => Some(ValueType::Reference(number)),
            None => None,
        }
    }

    /// The number of a declaration among those of its kind, by its place.
    pub fn number_of(&self, place: usize, d: &Decl) -> usize
        ensures { result ≡ number_at (scope self.now).decls place (decl_of d.now) }
    {
        self.symbols.number(place, d)
    }

    /// The cell of the global at a place.
    pub fn cell(&self, place: usize) -> u32
        ensures { result ≡ cell_of (scope self.now).decls place }
    {
        self.symbols.cell(place)
    }

    /// The struct of a number.
    pub fn structure(&self, number: usize) -> Option<&Structure<'a>>
        ensures { option_map (λ s. struct_of s.now) result ≡ the_struct (scope self.now).decls number }
    {
        self.symbols.structure(number)
    }

    // ---- locals

    /// The limits of parameters and locals.
    pub fn limits(&self) -> BodyLimits
        ensures { result ≡ (scope self.now).limits }
    {
        self.locals.limits()
    }

    /// The result type.
    pub fn result(&self) -> Option<ValueType>
        ensures { result ≡ (scope self.now).result }
    {
        self.locals.result()
    }

    /// The number of the next local.
    pub fn next(&self) -> usize
        ensures { result ≡ length (scope self.now).locals }
    {
        self.locals.len()
    }

    fn report_taken(&self, name: &Name, firsts: &mut Firsts)
        ensures { firsts.new ≡ found_in firsts.old (taken_name_faults (scope self.now) (ident name.now)) }
    {
        let text = name.text.as_str();
        let is_taken = self.locals.find(text).is_some() || self.symbols.find(text).is_some();
        report_if(is_taken, Code::DeclaredTwice, name.start as usize, firsts);
    }

    /// Notes the faults of the next local's name.
    #[tactic(auto, using(resolution::specs::Theory::Leasts::found_append))]
    pub fn report_name(&self, name: &Name, firsts: &mut Firsts)
        ensures { firsts.new ≡ found_in firsts.old (local_faults (scope self.now) (ident name.now)) }
    {
        self.report_taken(name, firsts);
        let is_one_more = self.next() >= self.limits().locals;
        report_if(
            is_one_more,
            Code::LimitExceeded,
            name.start as usize,
            firsts,
        );
    }

    /// The type that is written at a local, if it has no fault.
    pub fn local_type(&self, t: &tree::ValueType, firsts: &mut Firsts) -> Option<ValueType>
        ensures value { result ≡ type_of (scope self.now) (type_seen t.now) }
        ensures faults { firsts.new ≡ found_in firsts.old (type_faults (scope self.now) (type_seen t.now)) }
    {
        report_local_type(self.symbols, &self.locals, t, firsts);
        type_at(self.symbols, &self.locals, t)
    }

    /// The type that is written at a parameter, if it has no fault.
    pub fn declared_type(&self, t: &tree::ValueType, firsts: &mut Firsts) -> Option<ValueType>
        ensures value { result ≡ type_of (outside (scope self.now).decls) (type_seen t.now) }
        ensures faults { firsts.new ≡ found_in firsts.old
            (type_faults (outside (scope self.now).decls) (type_seen t.now)) }
    {
        report_type(self.symbols, t, firsts);
        type_outside(self.symbols, t)
    }

    /// Adds a local, which is in scope from here on.
    pub fn bind(
        &mut self,
        name: &Name,
        kind: LocalKind,
        value_type: Option<ValueType>,
    ) -> Result<(), AllocError>
        ensures { OnOk result (scope self.new ≡ bound (scope self.old) kind (ident name.now) value_type) }
    {
        self.locals.bind(self.alloc, name, kind, value_type)
    }

    /// Leaves a block: the locals from `place` on are no longer in scope.
    pub fn hide_from(&mut self, number: usize)
        ensures { scope self.new ≡ record (scope self.old) { locals = hidden_from number (scope self.old).locals } }
    {
        self.locals.hide_from(number);
    }

    /// All locals so far.
    pub fn locals(&self) -> &[Local]
        ensures { map local_seen result.now ≡ (scope self.now).locals }
    {
        self.locals.items()
    }
}
