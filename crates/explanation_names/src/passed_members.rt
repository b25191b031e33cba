//! The member that an annotation passes although it is not a final reference, or is one too many.

ghost use Rattle.std.specs.Prelude.{◌≡◌, Some, slice_get};
ghost use Rattle.std.specs.Option.{option_map};
ghost use Rattle.types_symbols.specs.{decls_of, members_seen};
ghost use Rattle.syntax.specs.Views.{decl_of, ident, member_of};
ghost use Rattle.explanation_names.specs.Working.PassedFound.{met, met_at, met_for, met_of};
ghost use Rattle.explanation_names.specs.PassedMembers.{next_members};
ghost use Rattle.explanation_names.specs.Working.Viewed.{member_at, member_found, members_behind, met_from, met_inside};

use source::limits::FINAL_LIMIT;
use syntax::tree::{Decl, Member, Name, Protection, Struct};
use types_symbols::members::Structure;
use types_symbols::table::SymbolTable;

/// What is looked up along annotations.
#[derive(Clone, Copy)]
pub enum Sought {
    /// A member that is not a final reference, and whose name in the annotation starts at this byte.
    NonFinal(usize),
    /// A final reference past the limit, of an annotation that begins at this byte.
    FinalTooMany(usize),
}

impl Sought {
    // The member of a name after the given number of others, if it is what is looked up.
    fn met<'t>(
        self,
        first: &Name,
        passed: usize,
        name: &Name,
        found: Option<(usize, &'t Member)>,
    ) -> Option<&'t Member>
        ensures { option_map member_at result ≡ met self (ident first.now) passed (ident name.now)
            (option_map member_found found.entry) }
    {
        let (_, member) = found?;
        match self {
            Sought::NonFinal(at) => match member {
                Member::Final(_) => None,
                Member::Lock(_) | Member::Field(_) => {
                    if name.start as usize == at {
                        Some(member)
                    } else {
                        None
                    }
                }
            },
            Sought::FinalTooMany(at) => match member {
                Member::Final(_) => {
                    if FINAL_LIMIT <= passed && first.start as usize == at {
                        Some(member)
                    } else {
                        None
                    }
                }
                Member::Lock(_) | Member::Field(_) => None,
            },
        }
    }
}

/// The struct that a final reference leads to.
fn next_structure<'a, 't>(
    symbols: &'a SymbolTable<'t>,
    found: Option<(usize, &'t Member)>,
) -> Option<&'a Structure<'t>>
    ensures { option_map members_behind result ≡ next_members (decls_of symbols.now)
        (option_map member_found found.entry) }
{
    match found {
        Some((_, Member::Final(reference))) => {
            let (_, structure) = symbols.struct_of(&reference.target)?;
            Some(structure)
        }
        _ => None,
    }
}

/// The first such member along names, from a struct on, if there is one. The last name is not passed.
fn passed_along<'a, 't>(
    symbols: &'a SymbolTable<'t>,
    sought: Sought,
    structure: Option<&'a Structure<'t>>,
    protection: &Protection,
) -> Option<&'t Member>
    ensures { option_map member_at result ≡ met_from symbols.now sought structure.entry protection.now }
{
    let mut structure = structure;
    let mut name = &protection.first;
    for (passed, next) in protection.rest.iter().enumerate() {
        let Some(here) = structure else {
            return None;
        };
        let found = here.find(name.text.as_str());
        if let Some(member) = sought.met(&protection.first, passed, name, found) {
            return Some(member);
        }
        structure = next_structure(symbols, found);
        name = next;
    }
    None
}

/// The first such member of the annotation of a struct's member, if it has one.
fn passed_for<'a, 't>(
    symbols: &'a SymbolTable<'t>,
    sought: Sought,
    structure: &'a Structure<'t>,
    member: &Member,
) -> Option<&'t Member>
    ensures { option_map member_at result ≡ met_for sought (decls_of symbols.now) (members_seen structure.now)
        (member_of member.now) }
{
    let Member::Field(field) = member else {
        return None;
    };
    match &field.protection {
        Some(protection) => passed_along(symbols, sought, Some(structure), protection),
        None => None,
    }
}

/// The first such member of the annotations of the struct.
fn passed_in<'a, 't>(
    symbols: &'a SymbolTable<'t>,
    sought: Sought,
    structure: &'a Structure<'t>,
) -> Option<&'t Member>
    ensures { option_map member_at result ≡ met_inside symbols.now sought structure.now }
{
    let members = &structure.item().members;
    for member in members {
        if let Some(passed) = passed_for(symbols, sought, structure, member) {
            return Some(passed);
        }
    }
    None
}

/// The first such member of the declaration at a place, if it is a struct.
fn passed_of<'t>(
    symbols: &SymbolTable<'t>,
    sought: Sought,
    place: usize,
    decl: &Decl,
) -> Option<&'t Member>
    requires { slice_get (decls_of symbols.now) place ≡ Some (decl_of decl.now) }
    ensures { option_map member_at result ≡ met_of sought (decls_of symbols.now) (decl_of decl.now) }
{
    let Decl::Struct(_) = decl else {
        return None;
    };
    match symbols.structure(symbols.number(place, decl)) {
        Some(structure) => passed_in(symbols, sought, structure),
        None => None,
    }
}

/// The first such member of the program.
pub fn passed_member<'t>(symbols: &SymbolTable<'t>, sought: Sought) -> Option<&'t Member>
    ensures { option_map member_at result ≡ met_at sought (decls_of symbols.now) }
{
    let decls = symbols.items();
    for (place, decl) in decls.iter().enumerate() {
        if let Some(member) = passed_of(symbols, sought, place, decl) {
            return Some(member);
        }
    }
    None
}
