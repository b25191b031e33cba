//! What names refer to, and types as they are written.

ghost use Rattle.std.specs.Prelude.{◌≡◌, ◌∷◌, ◌++◌, [], OnOk, length, option_map};
ghost use Rattle.std.specs.Rc.{rc_str_bytes};
ghost use Rattle.syntax.specs.Views.{decl_of, ident, member_of, type_of as type_seen};
ghost use Rattle.syntax.specs.Trees.{ref_type};
ghost use Rattle.resolution.specs.Scopes.{meaning, outside, hidden_from, struct_meant, struct_named, type_of, has_type, member_has_type, the_local};
ghost use Rattle.resolution.specs.Working.Findings.{found_in, told};
ghost use Rattle.resolution.specs.Reasons.{referent_of, stands_for};
ghost use Rattle.resolution.specs.declared.why.Why.TheVariants.{Misnamed};
ghost use Rattle.resolution.specs.Working.FaultLists.{no_struct, type_faults, unfit, unfit_member};
ghost use Rattle.types_symbols.specs.Working.Found.{IsTableWithName};
ghost use Rattle.types_symbols.specs.Working.Views.{decls_of};
ghost use Rattle.types_symbols.specs.Working.Scoped.{locals_seen, local_seen, scope_of, IsBound, meaning_of};

use crate::names::{Names, TableMaker};
use crate::table::SymbolTable;
use core_lang::tree::LocalKind;
use core_lang::value::ValueType;
use resolution::body_limits::BodyLimits;
use resolution::finding::{Finding, Firsts, report, report_found, report_found_if};
use resolution::why::{Referent, Role, Why};
use source::fault::Code;
use std::alloc::{AllocError, Global};
use std::marker::Model;
use std::rc::RcStr;
use syntax::tree;
use syntax::tree::{Decl, Member, Name};

/// A local: its type, unless this is faulty, and whether it is in scope.
#[derive(Drop)]
pub struct Local {
    /// Its name.
    pub name: String,
    /// Whether it is a parameter, a `let` or a `var`.
    pub kind: LocalKind,
    /// Its type. `None` if that does not name a struct.
    pub value_type: Option<ValueType>,
    /// Whether the current place is in its scope: after it, in its block.
    pub is_visible: bool,
}

/// The locals of a section or a helper so far, by number, the result type, and the limits.
#[derive(Drop)]
pub struct Locals {
    /// The number of the first local of each name.
    names: Names,
    /// The locals, by number: parameters first, then the others in the order of the text.
    items: Vec<Local>,
    /// The result type. `None` without a result, or if its type does not name a struct.
    result: Option<ValueType>,
    /// The limits of parameters and locals.
    limits: BodyLimits,
}

// The model is the locals, the type and the limits; an invariant says that the table is that of the locals.
impl Model for Locals {
    ghost use Rattle.resolution.specs.Scopes.{local_bears};
    ghost use Rattle.types_symbols.specs.Working.Found.{IsTableOf};
    ghost use Rattle.types_symbols.specs.Working.Scoped.{KnownLocals, locals_seen};

    ghost Value = { KnownLocals };

    ghost view = { λ ls. record { locals = locals_seen ls.items.items; result = ls.result; limits = ls.limits } };

    ghost invariant = { λ ls. IsTableOf local_bears (locals_seen ls.items.items) ls.names };
}

/// What a name refers to.
#[derive(Clone, Copy)]
pub enum ResolvedName<'a> {
    /// A local, with its number.
    Local(usize, &'a Local),
    /// A declaration, with its place.
    Decl(usize, &'a Decl),
    /// Nothing: the name is unknown here.
    Nothing,
}

/// Appends a local, and adds its name to the table.
fn push_local(
    alloc: Global,
    names: &mut Names,
    items: &mut Vec<Local>,
    name: &RcStr,
    local: Local,
) -> Result<(), AllocError>
    ensures items { OnOk result (items.new.items ≡ items.old.items ++ local ∷ []) }
    ensures names { OnOk result (IsTableWithName (rc_str_bytes name.now) (length items.old.items) names.old names.new) }
{
    let place = items.len();
    items.push(local)?;
    names.add(alloc, name, place)
}

impl Locals {
    /// No locals, with this result type and these limits.
    pub fn new(maker: TableMaker, result_type: Option<ValueType>, limits: BodyLimits) -> Locals
        ensures none { result.locals ≡ [] }
        ensures result_type { result.result ≡ result_type }
        ensures limits { result.limits ≡ limits }
    {
        Locals {
            names: Names::new(maker),
            items: Vec::new(maker.alloc),
            result: result_type,
            limits,
        }
    }

    /// The limits of parameters and locals.
    pub fn limits(&self) -> BodyLimits
        ensures { result ≡ self.now.limits }
    {
        self.limits
    }

    /// The result type. `None` without a result, or if its type does not name a struct.
    pub fn result(&self) -> Option<ValueType>
        ensures { result ≡ self.now.result }
    {
        self.result
    }

    /// The locals, by number: parameters first, then the others in the order of the text.
    pub fn items(&self) -> &[Local]
        ensures { locals_seen result.now ≡ self.now.locals }
    {
        &self.items
    }

    /// The number of locals, those that are no longer in scope included.
    pub fn len(&self) -> usize
        ensures { result ≡ length self.now.locals }
    {
        self.items.len()
    }

    /// The first local named `name`, with its number.
    pub fn find(&self, name: &str) -> Option<(usize, &Local)>
        ensures { option_map (λ f. (f.0, local_seen f.1.now)) result ≡ the_local self.now.locals name.now }
    {
        let place = self.names.find(name)?;
        let local = self.items.get(place)?;
        Some((place, local))
    }

    /// Appends a local, which is in scope from here on. The only error is a failed allocation, after which no locals
    /// are kept.
    pub fn bind(
        &mut self,
        alloc: Global,
        name: &Name,
        kind: LocalKind,
        value_type: Option<ValueType>,
    ) -> Result<(), AllocError>
        ensures { OnOk result (IsBound self.old self.new kind (ident name.now) value_type) }
    {
        let local = Local {
            name: String::from_str(alloc, name.text.as_str())?,
            kind,
            value_type,
            is_visible: true,
        };
        let Ok(()) = push_local(alloc, &mut self.names, &mut self.items, &name.text, local) else {
            // The table may lack a local here, so none is kept.
            let hashing = self.names.hashing();
            *self = Locals::new(TableMaker { alloc, hashing }, None, self.limits);
            return Err(AllocError);
        };
        Ok(())
    }

    /// Leaves a block: the locals from `place` on are no longer in scope.
    pub fn hide_from(&mut self, place: usize)
        ensures hidden { self.new.locals ≡ hidden_from place self.old.locals }
        ensures result_type { self.new.result ≡ self.old.result }
        ensures limits { self.new.limits ≡ self.old.limits }
    {
        for i in place..self.items.len() {
            self.items[i].is_visible = false;
        }
    }
}

/// What a name refers to outside of sections and helpers.
fn meaning_outside<'a>(symbols: &'a SymbolTable, name: &Name) -> ResolvedName<'a>
    ensures { meaning_of result ≡ meaning (outside (decls_of symbols.now)) (ident name.now).text }
{
    match symbols.find(name.text.as_str()) {
        Some((place, decl)) => ResolvedName::Decl(place, decl),
        None => ResolvedName::Nothing,
    }
}

/// What a name refers to in a section or a helper: the first local of the name if that is in scope, else what it refers
/// to outside.
pub fn meaning_at<'a>(symbols: &'a SymbolTable, locals: &'a Locals, name: &Name) -> ResolvedName<'a>
    ensures { meaning_of result ≡ meaning (scope_of (decls_of symbols.now) locals.now) (ident name.now).text }
{
    if let Some((place, local)) = locals.find(name.text.as_str()) {
        if local.is_visible {
            return ResolvedName::Local(place, local);
        }
    }
    meaning_outside(symbols, name)
}

/// The number of the struct that a name refers to.
fn struct_meant(symbols: &SymbolTable, m: ResolvedName) -> Option<usize>
    ensures { result ≡ struct_meant (decls_of symbols.now) (meaning_of m.entry) }
{
    match m {
        ResolvedName::Decl(place, d) => match d {
            Decl::Struct(_) => Some(symbols.number(place, d)),
            _ => None,
        },
        ResolvedName::Local(_, _) | ResolvedName::Nothing => None,
    }
}

/// The number of the struct that `name` refers to in a declaration. `None` if it does not refer to a struct.
pub fn struct_named(symbols: &SymbolTable, name: &Name) -> Option<usize>
    ensures { result ≡ struct_named (decls_of symbols.now) (ident name.now) }
{
    struct_meant(symbols, meaning_outside(symbols, name))
}

/// The type that is written in a declaration. `None` if it does not name a struct.
pub fn type_outside(symbols: &SymbolTable, t: &tree::ValueType) -> Option<ValueType>
    ensures { result ≡ type_of (outside (decls_of symbols.now)) (type_seen t.now) }
{
    match t {
        tree::ValueType::Int => Some(ValueType::Integer),
        tree::ValueType::Ref(name) => match struct_named(symbols, name) {
            Some(number) => Some(ValueType::Reference(number)),
            None => None,
        },
    }
}

/// The type that is written at a local. `None` if it does not name a struct: a local in scope can hide a struct's name.
pub fn type_at(symbols: &SymbolTable, locals: &Locals, t: &tree::ValueType) -> Option<ValueType>
    ensures { result ≡ type_of (scope_of (decls_of symbols.now) locals.now) (type_seen t.now) }
{
    match t {
        tree::ValueType::Int => Some(ValueType::Integer),
        tree::ValueType::Ref(name) => {
            let meant = meaning_at(symbols, locals, name);
            match struct_meant(symbols, meant) {
                Some(number) => Some(ValueType::Reference(number)),
                None => None,
            }
        }
    }
}

/// Whether the declaration that a name refers to has no fault in its type.
fn has_type(symbols: &SymbolTable, m: ResolvedName) -> bool
    ensures { result ≡ has_type (decls_of symbols.now) (meaning_of m.entry) }
{
    match m {
        ResolvedName::Local(_, local) => local.value_type.is_some(),
        ResolvedName::Decl(_, Decl::Global(v)) => type_outside(symbols, &v.value_type).is_some(),
        ResolvedName::Decl(_, Decl::Array(a)) => type_outside(symbols, &a.value_type).is_some(),
        ResolvedName::Decl(_, Decl::Pool(p)) => struct_named(symbols, &p.target).is_some(),
        ResolvedName::Decl(_, _) | ResolvedName::Nothing => true,
    }
}

/// Notes the fault of a name that can't stand here, unless the type of its declaration has a fault.
pub fn report_unfit(symbols: &SymbolTable, found: Finding, m: ResolvedName, firsts: &mut Firsts)
    ensures { firsts.new ≡ found_in firsts.old (unfit (decls_of symbols.now) found (meaning_of m.entry)) }
{
    report_found_if(has_type(symbols, m), found, firsts);
}

/// Whether a member has no fault in its type.
fn member_has_type(symbols: &SymbolTable, m: &Member) -> bool
    ensures { result ≡ member_has_type (decls_of symbols.now) (member_of m.now) }
{
    match m {
        Member::Lock(_) => true,
        Member::Final(f) => struct_named(symbols, &f.target).is_some(),
        Member::Field(f) => type_outside(symbols, &f.value_type).is_some(),
    }
}

/// Notes the fault of a member that can't stand here, unless its type has a fault.
pub fn report_unfit_member(symbols: &SymbolTable, found: Finding, m: &Member, firsts: &mut Firsts)
    ensures { firsts.new ≡ found_in firsts.old (unfit_member (decls_of symbols.now) found (member_of m.now)) }
{
    report_found_if(member_has_type(symbols, m), found, firsts);
}

/// What the name of a declaration refers to.
fn declared_referent(d: &Decl) -> Referent
    ensures { result ≡ referent_of (decl_of d.now) }
{
    match d {
        Decl::Lock(_) => Referent::Lock,
        Decl::Struct(_) => Referent::Struct,
        Decl::Global(_) => Referent::Global,
        Decl::Array(_) => Referent::Array,
        Decl::Pool(_) => Referent::Pool,
        Decl::Init(_) => Referent::Nothing,
        Decl::Atomic(_) => Referent::Section,
        Decl::Helper(_) => Referent::Helper,
        Decl::Thread(_) => Referent::Thread,
    }
}

/// What a name refers to.
fn referent(m: ResolvedName) -> Referent
    ensures { result ≡ stands_for (meaning_of m.entry) }
{
    match m {
        ResolvedName::Local(_, local) => Referent::Local(local.kind),
        ResolvedName::Decl(_, d) => declared_referent(d),
        ResolvedName::Nothing => Referent::Nothing,
    }
}

/// The fault of a name that refers to something other than expected.
pub fn misnamed(code: Code, role: Role, start: usize, m: ResolvedName) -> Finding
    ensures { result ≡ told code start (Misnamed role (stands_for (meaning_of m.entry))) }
{
    Finding::new(code, start, Why::Misnamed(role, referent(m)))
}

/// Notes the name of a type that does not refer to a struct.
fn report_no_struct(start: usize, m: ResolvedName, firsts: &mut Firsts)
    ensures { firsts.new ≡ found_in firsts.old (no_struct start (meaning_of m.entry)) }
{
    match m {
        ResolvedName::Decl(_, Decl::Struct(_)) => {}
        ResolvedName::Nothing => report(Code::UnknownName, start, firsts),
        _ => report_found(misnamed(Code::WrongType, Role::Struct, start, m), firsts),
    }
}

/// Notes the fault of a struct's name in a declaration: it is unknown, or not that of a struct.
pub fn report_target(symbols: &SymbolTable, name: &Name, firsts: &mut Firsts)
    ensures { firsts.new ≡ found_in firsts.old
        (type_faults (outside (decls_of symbols.now)) (ref_type (ident name.now))) }
{
    report_no_struct(name.start as usize, meaning_outside(symbols, name), firsts);
}

/// Notes the fault of a declaration's type: its struct is unknown, or not a struct.
pub fn report_type(symbols: &SymbolTable, t: &tree::ValueType, firsts: &mut Firsts)
    ensures { firsts.new ≡ found_in firsts.old (type_faults (outside (decls_of symbols.now)) (type_seen t.now)) }
{
    match t {
        tree::ValueType::Int => {}
        tree::ValueType::Ref(name) => report_target(symbols, name, firsts),
    }
}

/// Notes the fault of a local's type: its struct is unknown here, or not a struct.
pub fn report_local_type(
    symbols: &SymbolTable,
    locals: &Locals,
    t: &tree::ValueType,
    firsts: &mut Firsts,
)
    ensures { firsts.new ≡ found_in firsts.old
        (type_faults (scope_of (decls_of symbols.now) locals.now) (type_seen t.now)) }
{
    match t {
        tree::ValueType::Int => {}
        tree::ValueType::Ref(name) => {
            let meant = meaning_at(symbols, locals, name);
            report_no_struct(name.start as usize, meant, firsts);
        }
    }
}
