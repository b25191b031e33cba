//! The values that `init`s give to the members of pools.

ghost use Rattle.std.specs.Prelude.{◌≡◌, [], OnOk, IfOk, option_map, None};
ghost use Rattle.syntax.specs.Views.{decl_of, init_of, pool_of, member_of, struct_of};
ghost use Rattle.resolution.specs.declared.init_target.InitTarget as the_init_target;
ghost use Rattle.resolution.specs.Constants.{init_target_of, gives, same_init_target, initialised, pool_members};
ghost use Rattle.resolution.specs.Working.Findings.{found_in};
ghost use Rattle.resolution.specs.Working.FaultLists.{repeated_faults};
ghost use Rattle.types_symbols.specs.Working.Given.{init_target_found, IsInitTargetTable, IsInitTargetTableWith, again_given, repeated_in, pool_named, struct_of_pool};
ghost use Rattle.types_symbols.specs.Working.Views.{decls_of, decl_named, members_seen};

use crate::declarations::Declarations;
use crate::members::Structure;
use indexmap::IndexMap;
use resolution::finding::{Firsts, report};
use resolution::init_target::InitTarget;
use source::fault::Code;
use std::alloc::{AllocError, Global};
use syntax::tree::{Decl, Init, Member, Pool};

/// For each target of an `init`, the place of the first `init` that gives it a value.
#[derive(Drop)]
pub struct FirstInits {
    /// The places, among the declarations.
    pub places: IndexMap<InitTarget, usize>,
}

impl FirstInits {
    /// An empty table.
    fn new(alloc: Global) -> FirstInits
        ensures { (g : the_init_target.InitTarget) → init_target_found result g ≡ None }
    {
        FirstInits {
            places: IndexMap::new(alloc),
        }
    }

    /// The place of the first `init` for this target, if it has one.
    pub(crate) fn find(&self, init_target: InitTarget) -> Option<usize>
        ensures { result ≡ init_target_found self.now init_target }
    {
        match self.places.get(&init_target) {
            Some(place) => Some(*place),
            None => None,
        }
    }

    /// Adds the target of an `init` with the place of that `init`, unless the table has it.
    fn add(&mut self, init_target: InitTarget, place: usize) -> Result<(), AllocError>
        ensures { OnOk result (IsInitTargetTableWith (same_init_target init_target) place self.old self.new) }
    {
        if self.find(init_target).is_none() {
            self.places.insert(init_target, place)?;
        }
        Ok(())
    }
}

/// The pool that an `init` names, with its place.
fn pool_at<'a, 't>(decls: &'a Declarations<'t>, i: &Init) -> Option<(usize, &'t Pool)>
    ensures { option_map (λ f. (f.0, pool_of f.1.now)) result ≡ pool_named decls.now i.now.pool }
{
    match decls.find(i.pool.text.as_str()) {
        Some((place, Decl::Pool(pool))) => Some((place, pool)),
        _ => None,
    }
}

/// The struct of the members of the pool that an `init` names, with its tables. `None` if it does not name a pool, or
/// the pool's struct is unknown.
pub fn structure_given<'a, 't>(decls: &'a Declarations<'t>, i: &Init) -> Option<&'a Structure<'t>>
    ensures structure { option_map (λ s. struct_of s.now) result
        ≡ struct_of_pool (decls_of decls.now) (pool_named decls.now i.now.pool) }
    ensures members { option_map (λ s. members_seen s.now) result
        ≡ pool_members (decls_of decls.now) (decl_named decls.now i.now.pool) }
{
    let (_, pool) = pool_at(decls, i)?;
    let (_, structure) = decls.struct_of(&pool.target)?;
    Some(structure)
}

/// The member of the pool's struct that an `init` names, which may be a lock field, with its place in the struct.
/// `None` if the pool, its struct or the member is unknown.
pub fn initialised<'t>(decls: &Declarations<'t>, i: &Init) -> Option<(usize, &'t Member)>
    ensures { option_map (λ f. (f.0, member_of f.1.now)) result ≡ initialised (decls_of decls.now) (init_of i.now) }
{
    structure_given(decls, i)?.find(i.field.text.as_str())
}

/// The target of an `init`. `None` if it does not name a field that can have a value.
fn init_target_of(decls: &Declarations, i: &Init) -> Option<InitTarget>
    ensures { result ≡ init_target_of (decls_of decls.now) (init_of i.now) }
{
    let (place, pool) = pool_at(decls, i)?;
    if i.index.value >= pool.length.value {
        return None;
    }
    let (_, structure) = decls.struct_of(&pool.target)?;
    let (member, m) = structure.find(i.field.text.as_str())?;
    match m {
        Member::Lock(_) => None,
        Member::Final(_) | Member::Field(_) => Some(InitTarget {
            pool: place,
            index: i.index.value,
            member,
        }),
    }
}

/// Notes an `init` whose target has a value.
fn report_again(
    first_inits: &FirstInits,
    init_target: Option<InitTarget>,
    start: usize,
    firsts: &mut Firsts,
)
    ensures { firsts.new ≡ found_in firsts.old (again_given first_inits.now start init_target) }
{
    if let Some(init_target) = init_target {
        if first_inits.find(init_target).is_some() {
            report(Code::InitOutOfRangeOrRepeated, start, firsts);
        }
    }
}

/// Adds the target of a declaration that is an `init`, or notes that it has a value.
fn check_decl(
    decls: &Declarations,
    first_inits: &mut FirstInits,
    place: usize,
    d: &Decl,
    firsts: &mut Firsts,
) -> Result<(), AllocError>
    ensures first_inits { OnOk result
        (IsInitTargetTableWith (gives (decls_of decls.now) (decl_of d.now)) place first_inits.old first_inits.new) }
    ensures faults { OnOk result
        (firsts.new ≡ found_in firsts.old (repeated_in first_inits.old (decls_of decls.now) (decl_of d.now))) }
{
    if let Decl::Init(i) = d {
        let init_target = init_target_of(decls, i);
        report_again(first_inits, init_target, i.start.start as usize, firsts);
        if let Some(init_target) = init_target {
            first_inits.add(init_target, place)?;
        }
    }
    Ok(())
}

/// The targets of all `init`s. Notes repeated ones. The only error is a failed allocation.
pub(crate) fn check_first_inits(
    alloc: Global,
    decls: &Declarations,
    firsts: &mut Firsts,
) -> Result<FirstInits, AllocError>
    ensures first_inits { IfOk result (λ t. IsInitTargetTable (decls_of decls.now) (decls_of decls.now) t) }
    ensures faults { OnOk result
        (firsts.new ≡ found_in firsts.old (repeated_faults (decls_of decls.now) [] (decls_of decls.now))) }
{
    let mut first_inits = FirstInits::new(alloc);
    let items = decls.items();
    for (place, d) in items.iter().enumerate() {
        let Ok(()) = check_decl(decls, &mut first_inits, place, d, firsts) else {
            drop(first_inits);
            return Err(AllocError);
        };
    }
    Ok(first_inits)
}
