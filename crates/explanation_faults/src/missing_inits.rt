//! The final reference that no `init` sets in an object.

ghost use Rattle.std.specs.Prelude.{◌≡◌};
ghost use Rattle.std.specs.Option.{option_map};
ghost use Rattle.types_symbols.specs.{decls_of, members_seen};
ghost use Rattle.syntax.specs.Views.{const_of, decl_of, member_of, pool_of};
ghost use Rattle.explanation_faults.specs.Working.NullsFound.{final_in, is_null_at, null_given, null_given_in};
ghost use Rattle.explanation_faults.specs.Working.Values.{FoundFirst, FoundGap, FoundGapOf, FoundMissing, due_final, final_at};
ghost use Rattle.explanation_names.specs.Working.Viewed.{member_found};

use resolution::init_target::InitTarget;
use syntax::tree::{Const, Decl, Final, Member, Pool};
use types_symbols::first_inits::initialised;
use types_symbols::members::Structure;
use types_symbols::table::SymbolTable;

/// A member of a pool whose final reference is not set.
#[derive(Drop)]
pub struct MissingInit<'t> {
    /// The pool.
    pub pool: &'t Pool,
    /// The index of the member, from 0.
    pub index: u64,
    /// The final reference.
    pub reference: &'t Final,
}

/// The index of the first of `length` pool members without an `init` for this struct member.
fn first_without(symbols: &SymbolTable, pool: usize, member: usize, length: u64) -> Option<u64>
    ensures { FoundFirst (decls_of symbols.now) pool member length result }
{
    for index in 0..length {
        let target = InitTarget {
            pool,
            index,
            member,
        };
        let Some(_) = symbols.given(target) else {
            return Some(index);
        };
    }
    None
}

/// The struct member at `place`, if it is a final reference and the first of its name.
fn due_final<'t>(structure: &Structure<'t>, place: usize, member: &'t Member) -> Option<&'t Final>
    ensures { option_map final_at result ≡ due_final (members_seen structure.now) place (member_of member.now) }
{
    let Member::Final(reference) = member else {
        return None;
    };
    if structure.place_of(reference.name.text.as_str())? == place {
        Some(reference)
    } else {
        None
    }
}

/// The first final reference that is not set in all members of the pool at `pool`, with the index of the first such
/// member.
fn missing_final<'t>(
    symbols: &SymbolTable<'t>,
    structure: &Structure<'t>,
    pool: usize,
    length: u64,
) -> Option<(u64, &'t Final)>
    ensures { FoundMissing (decls_of symbols.now) pool (members_seen structure.now) length result }
{
    let members = &structure.item().members;
    for (place, member) in members.iter().enumerate() {
        if let Some(reference) = due_final(structure, place, member) {
            if let Some(index) = first_without(symbols, pool, place, length) {
                return Some((index, reference));
            }
        }
    }
    None
}

/// The first final reference that is not set in all members of the pool at `place`, if the pool's name starts at byte
/// `at`.
fn gap_of<'t>(
    symbols: &SymbolTable<'t>,
    place: usize,
    pool: &Pool,
    at: usize,
) -> Option<(u64, &'t Final)>
    ensures { FoundGapOf (decls_of symbols.now) place (pool_of pool.now) at result }
{
    if pool.name.start as usize != at {
        return None;
    }
    let (_, structure) = symbols.struct_of(&pool.target)?;
    missing_final(symbols, structure, place, pool.length.value)
}

/// The first final reference that is not set in all members of a pool, for the first such pool whose name starts at
/// byte `at`.
pub fn gap_at<'t>(symbols: &SymbolTable<'t>, at: usize) -> Option<MissingInit<'t>>
    ensures { FoundGap (decls_of symbols.now) at result }
{
    let decls = symbols.items();
    for (place, decl) in decls.iter().enumerate() {
        if let Decl::Pool(pool) = decl {
            if let Some((index, reference)) = gap_of(symbols, place, pool, at) {
                return Some(MissingInit {
                    pool,
                    index,
                    reference,
                });
            }
        }
    }
    None
}

/// Whether `value` is a null at byte `at`.
fn is_null_at(at: usize, value: &Const) -> bool
    ensures { result ≡ is_null_at at (const_of value.now) }
{
    match value {
        Const::Null(span) => span.start as usize == at,
        Const::Int(_) | Const::Negative(_, _) | Const::Member(_, _) => false,
    }
}

/// The member that was found, if it is a final reference.
fn final_in<'t>(found: Option<(usize, &'t Member)>) -> Option<&'t Final>
    ensures { option_map final_at result ≡ final_in (option_map member_found found.entry) }
{
    match found {
        Some((_, Member::Final(reference))) => Some(reference),
        _ => None,
    }
}

/// The final reference that `decl` sets to a null at byte `at`.
fn null_given_in<'t>(symbols: &SymbolTable<'t>, at: usize, decl: &Decl) -> Option<&'t Final>
    ensures { option_map final_at result ≡ null_given_in (decls_of symbols.now) at (decl_of decl.now) }
{
    match decl {
        Decl::Init(init) if is_null_at(at, &init.value) => {
            final_in(initialised(symbols.decls(), init))
        }
        Decl::Init(_)
        | Decl::Lock(_)
        | Decl::Struct(_)
        | Decl::Global(_)
        | Decl::Array(_)
        | Decl::Pool(_)
        | Decl::Atomic(_)
        | Decl::Helper(_)
        | Decl::Thread(_) => None,
    }
}

/// The final reference of the first `init` that sets one to a null at byte `at`.
pub fn null_given<'t>(symbols: &SymbolTable<'t>, at: usize) -> Option<&'t Final>
    ensures { option_map final_at result ≡ null_given (decls_of symbols.now) at }
{
    let decls = symbols.items();
    for decl in decls {
        if let Some(reference) = null_given_in(symbols, at, decl) {
            return Some(reference);
        }
    }
    None
}
