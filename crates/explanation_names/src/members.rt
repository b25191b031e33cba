//! The members of a struct that are searched for a name.

ghost use Rattle.std.specs.List.{filter_map};
ghost use Rattle.std.specs.Option.{option_map};
ghost use Rattle.std.specs.Prelude.{◌≡◌, ◌∷◌, [], map};
ghost use Rattle.resolution.specs.Constants.{members_of};
ghost use Rattle.types_symbols.specs.{decls_of};
ghost use Rattle.syntax.specs.Views.{ident, init_of, member_of, protection_of, type_of};
ghost use Rattle.explanation_names.specs.Working.Found.{names_if, some_begin};
ghost use Rattle.explanation_names.specs.Members.{members_behind, name_as};
ghost use Rattle.explanation_names.specs.Sought.{by_annotation, by_class, by_init, by_owner};
ghost use Rattle.explanation_names.specs.Working.Values.{Adds, Says, along_from, behind_one, dots_at, ident_at, members_at, members_in_pool, next_from};

use crate::found::FoundNames;
use crate::search::{LocalInScope, NameSearch, begins};
use syntax::tree::{ClassName, Decl, Init, Member, Name, Path, Protection, ValueType};
use types_symbols::members::Structure;
use types_symbols::table::SymbolTable;

/// The role that a member of a struct is looked up for.
#[derive(Clone, Copy)]
pub enum Role {
    /// A value that is read, written or given: a field, or a final reference.
    Value,
    /// What an annotation names: a lock, or a final reference on the way to one.
    Lock,
    /// After `where`: a final reference.
    Owner,
    /// In a list of lock classes: a lock.
    Class,
}

/// The struct of this name.
fn struct_named<'a, 't>(symbols: &'a SymbolTable<'t>, name: &Name) -> Option<&'a Structure<'t>>
    ensures { option_map members_at result ≡ members_of (decls_of symbols.now) (ident name.now) }
{
    let (_, structure) = symbols.struct_of(name)?;
    Some(structure)
}

/// The struct that a type refers to.
fn struct_behind<'a, 't>(symbols: &'a SymbolTable<'t>, t: &ValueType) -> Option<&'a Structure<'t>>
    ensures { option_map members_at result ≡ members_behind (decls_of symbols.now) (type_of t.now) }
{
    match t {
        ValueType::Int => None,
        ValueType::Ref(target) => struct_named(symbols, target),
    }
}

/// The struct that the member of this name refers to.
fn next<'a, 't>(
    symbols: &'a SymbolTable<'t>,
    structure: Option<&'a Structure<'t>>,
    name: &Name,
) -> Option<&'a Structure<'t>>
    ensures { option_map members_at result ≡ next_from symbols.now structure.entry name.now }
{
    let (_, member) = structure?.find(name.text.as_str())?;
    match member {
        Member::Lock(_) => None,
        Member::Final(reference) => struct_named(symbols, &reference.target),
        Member::Field(field) => struct_behind(symbols, &field.value_type),
    }
}

/// The struct of a pool's members.
fn struct_in_pool<'a, 't>(symbols: &'a SymbolTable<'t>, name: &Name) -> Option<&'a Structure<'t>>
    ensures { option_map members_at result ≡ members_in_pool symbols.now name.now }
{
    match symbols.find(name.text.as_str()) {
        Some((_, Decl::Pool(pool))) => struct_named(symbols, &pool.target),
        _ => None,
    }
}

fn name_as(role: Role, member: &Member) -> Option<&Name>
    ensures { option_map ident_at result ≡ name_as role (member_of member.now) }
{
    match role {
        Role::Value => match member {
            Member::Lock(_) => None,
            Member::Final(reference) => Some(&reference.name),
            Member::Field(field) => Some(&field.name),
        },
        Role::Lock => match member {
            Member::Lock(name) => Some(name),
            Member::Final(reference) => Some(&reference.name),
            Member::Field(_) => None,
        },
        Role::Owner => match member {
            Member::Final(reference) => Some(&reference.name),
            Member::Lock(_) | Member::Field(_) => None,
        },
        Role::Class => match member {
            Member::Lock(name) => Some(name),
            Member::Final(_) | Member::Field(_) => None,
        },
    }
}

/// Adds the names of members that can have this role.
fn push_members<'t>(role: Role, members: &'t [Member], found: &mut FoundNames<'t>)
    ensures { Adds found.old found.new (filter_map (name_as role) (map member_of members.now)) }
{
    for member in members {
        found.push_some(name_as(role, member));
    }
}

/// Adds the names of a struct's members that can have this role, if the struct is the one that is searched.
fn push_if<'a, 't>(
    role: Role,
    is_sought: bool,
    structure: Option<&'a Structure<'t>>,
    found: &mut FoundNames<'t>,
)
    ensures { Adds found.old found.new (names_if role is_sought (option_map members_at structure.entry)) }
{
    if !is_sought {
        return;
    }
    if let Some(structure) = structure {
        push_members(role, &structure.item().members, found);
    }
}

/// Whether one of the names begins at this byte.
fn some_begin(at: usize, names: &[Name]) -> bool
    ensures { result ≡ some_begin at (map ident names.now) }
{
    for name in names {
        if begins(at, name) {
            return true;
        }
    }
    false
}

impl<'s, 't> NameSearch<'s, 't> {
    // Searches along names, from a struct on, if there is one.
    fn along<'a>(
        &self,
        role: Role,
        structure: Option<&'a Structure<'t>>,
        names: &[Name],
        found: &mut FoundNames<'t>,
    )
    where
        's: 'a,
        ensures { Adds found.old found.new (along_from self.now role structure.entry names.now) }
    {
        let mut structure = structure;
        for name in names {
            push_if(role, begins(self.at, name), structure, found);
            structure = next(self.symbols, structure, name);
        }
    }

    // Searches after a local, if it is the one that is named.
    fn behind_one(&self, path: &Path, local: LocalInScope<'t>, found: &mut FoundNames<'t>)
        ensures { Adds found.old found.new (behind_one self.now path.now local.entry) }
    {
        if local.name.text.as_str() != path.first.text.as_str() {
            return;
        }
        let structure = struct_behind(self.symbols, local.value_type);
        self.along(Role::Value, structure, &path.fields, found);
    }

    /// Searches members by names after dots.
    pub fn by_dots(&self, path: &Path, found: &mut FoundNames<'t>)
        ensures { Says self.now found.old found.new (dots_at self.now path.now) }
    {
        if !some_begin(self.at, &path.fields) {
            return;
        }
        for local in self.locals {
            self.behind_one(path, *local, found);
        }
    }

    /// Searches a member by the field of an `init`.
    pub fn by_init(&self, init: &Init, found: &mut FoundNames<'t>)
        ensures { Says self.now found.old found.new (by_init (init_of init.now).pool (init_of init.now).field ∷ []) }
    {
        let structure = struct_in_pool(self.symbols, &init.pool);
        push_if(Role::Value, begins(self.at, &init.field), structure, found);
    }

    /// Searches members by an annotation in the struct of this name.
    pub fn by_annotation(
        &self,
        structure: &Name,
        protection: &Protection,
        found: &mut FoundNames<'t>,
    )
        ensures { Says self.now found.old found.new
            (by_annotation (ident structure.now) (protection_of protection.now) ∷ []) }
    {
        let first = &protection.first;
        let here = struct_named(self.symbols, structure);
        push_if(Role::Lock, begins(self.at, first), here, found);
        let behind = next(self.symbols, here, first);
        self.along(Role::Lock, behind, &protection.rest, found);
    }

    /// Searches a final reference after `where`, for a local of this type.
    pub fn by_owner(&self, t: &ValueType, field: &Name, found: &mut FoundNames<'t>)
        ensures { Says self.now found.old found.new (by_owner (type_of t.now) (ident field.now) ∷ []) }
    {
        let structure = struct_behind(self.symbols, t);
        push_if(Role::Owner, begins(self.at, field), structure, found);
    }

    /// Searches a lock by the name of a listed lock class.
    pub fn by_class(&self, class: &ClassName, found: &mut FoundNames<'t>)
        ensures { Says self.now found.old found.new (by_class (ident class.now.structure) (ident class.now.lock) ∷ []) }
    {
        let structure = struct_named(self.symbols, &class.structure);
        push_if(Role::Class, begins(self.at, &class.lock), structure, found);
    }
}
