//! What follows the `where` of a `let`.

ghost use Rattle.std.specs.Prelude.{◌≡◌, OnOk, IfOk, Some, option_map};
ghost use Rattle.syntax.specs.Views.{ident, owner_of};
ghost use Rattle.core_lang.specs.declared.value.ValueType.TheVariants.{Reference};
ghost use Rattle.resolution.specs.CoreViews.{core_expr};
ghost use Rattle.resolution.specs.Limits.{up_to};
ghost use Rattle.resolution.specs.Scopes.{meaning};
ghost use Rattle.resolution.specs.Working.TypedOwners.{owner_field, owner_local};
ghost use Rattle.resolution.specs.Working.Findings.{found_in};
ghost use Rattle.resolution.specs.Working.FaultLists.{owner_field_faults};
ghost use Rattle.types_bodies.specs.Working.Checkers.{scope};
ghost use Rattle.types_bodies.specs.Working.Targets.{tested_if, final_faults_in, owner_name_faults, owned_opening, opening_faults};

use crate::checked::{Checked, faulty, faulty_for};
use crate::checker::Checker;
use crate::wanted::fits_type;
use core_lang::tree::Expr;
use core_lang::value::ValueType;
use resolution::finding::{Finding, Firsts, report_found_if};
use resolution::owner_field::OwnerField;
use resolution::wanted::{Sort, Want};
use resolution::why::{Kind, Role, Why};
use source::fault::Code;
use source::limits;
use std::alloc::AllocError;
use syntax::tree::{Member, Name, OwnerClause};
use types_symbols::scope::{ResolvedName, misnamed};

/// The most structs of a program.
const STRUCT_LIMIT: u32 = limits::STRUCT_LIMIT as u32;

/// The most bytes of a source. None has as many locals.
const SOURCE_LIMIT: u32 = limits::SOURCE_LIMIT as u32;

/// The first value of a local.
#[derive(Drop)]
pub struct Opening {
    /// The local's type, if that has no fault.
    pub value_type: Option<ValueType>,
    /// The value, if that has no fault.
    pub value: Option<Expr>,
}

/// The final reference of a struct that the name refers to. Notes a fault of any other member.
fn final_named(
    checker: &Checker,
    structure: usize,
    f: &Name,
    firsts: &mut Firsts,
) -> Option<OwnerField>
    ensures value { result ≡ owner_field (scope checker.now).decls (Some (Reference structure)) (ident f.now) }
    ensures faults { firsts.new ≡ found_in firsts.old (final_faults_in (scope checker.now) structure (ident f.now)) }
{
    let members = checker.structure(structure)?;
    let start = f.start as usize;
    let Some((place, m)) = members.find(f.text.as_str()) else {
        return faulty(Code::UnknownName, start, firsts);
    };
    match m {
        Member::Lock(_) => faulty(Code::LockAsValue, start, firsts),
        Member::Final(reference) => Some(OwnerField {
            structure,
            number: members.step(place, m),
            value_type: checker.reference_to(&reference.target)?,
        }),
        Member::Field(field) => {
            let has_type = checker.type_outside(&field.value_type).is_some();
            report_found_if(
                has_type,
                Finding::new(Code::WrongType, start, Why::OwnerField),
                firsts,
            );
            None
        }
    }
}

/// The final reference that the name refers to, for a value of this type.
fn owner_field(
    checker: &Checker,
    t: Option<ValueType>,
    f: &Name,
    firsts: &mut Firsts,
) -> Option<OwnerField>
    ensures value { result ≡ owner_field (scope checker.now).decls t (ident f.now) }
    ensures faults { firsts.new ≡ found_in firsts.old (owner_field_faults (scope checker.now).decls t (ident f.now)) }
{
    match t? {
        ValueType::Integer => {
            let why = Why::OwnedInt;
            faulty_for(Finding::new(Code::WrongType, f.start as usize, why), firsts)
        }
        ValueType::Reference(structure) => final_named(checker, structure, f, firsts),
    }
}

/// The local that the name refers to, if it has the type of the final reference.
fn owner_local(
    checker: &Checker,
    field: Option<OwnerField>,
    name: &Name,
    firsts: &mut Firsts,
) -> Option<usize>
    ensures value { result ≡ owner_local field (meaning (scope checker.now) (ident name.now).text) }
    ensures faults { firsts.new ≡ found_in firsts.old (owner_name_faults (scope checker.now) field (ident name.now)) }
{
    let start = name.start as usize;
    let m = checker.meaning(name);
    let ResolvedName::Local(number, local) = m else {
        return checker.misplaced(misnamed(Code::WrongType, Role::Local, start, m), m, firsts);
    };
    let (field, t) = field.zip(local.value_type)?;
    if !fits_type(field.value_type, Sort::Of(t)) {
        let why = Why::Unwanted(Want::Value(field.value_type), Kind::Value(Sort::Of(t)));
        return faulty_for(Finding::new(Code::WrongType, start, why), firsts);
    }
    Some(number)
}

/// The number in 32 bits, if it is at most the limit.
fn up_to(limit: u32, n: usize) -> Option<u32>
    ensures { result ≡ up_to limit n }
{
    if n <= limit as usize {
        Some(n as u32)
    } else {
        None
    }
}

/// A value that is tested by a final reference and a local, if neither is missing.
fn tested_by(
    checker: &Checker,
    value: Option<Expr>,
    test: Option<(OwnerField, usize)>,
    start: usize,
) -> Checked<Expr>
    ensures { IfOk result (λ r. option_map core_expr r ≡ tested_if start (option_map core_expr value) test) }
{
    let Some((value, (field, local))) = value.zip(test) else {
        return Ok(None);
    };
    let structure = up_to(STRUCT_LIMIT, field.structure);
    let Some((structure, owner)) = structure.zip(up_to(SOURCE_LIMIT, local)) else {
        drop(value);
        return Ok(None);
    };
    Ok(Some(Expr::Owned {
        value: Box::new(checker.alloc(), value)?,
        structure,
        number: field.number,
        start,
        owner,
    }))
}

/// A local's value with its `where`: the final reference has to equal the local. The names are checked in any case. A
/// value whose struct exceeds the limit is left out, since another fault reports that.
#[tactic(auto, using(resolution::specs::Theory::Leasts::found_append))]
pub fn owned_by(
    checker: &Checker,
    opening: Opening,
    owner: &OwnerClause,
    firsts: &mut Firsts,
) -> Result<Opening, AllocError>
    ensures value_type { IfOk result (λ r. r.value_type ≡ opening.value_type) }
    ensures value { IfOk result
        (λ r. option_map core_expr r.value ≡ owned_opening (scope checker.now) opening (owner_of owner.now)) }
    ensures faults { OnOk result
        (firsts.new ≡ found_in firsts.old (opening_faults (scope checker.now) opening (owner_of owner.now))) }
{
    let Opening { value_type, value } = opening;
    let field = owner_field(checker, value_type, &owner.field, firsts);
    let local = owner_local(checker, field, &owner.local, firsts);
    let test = field.zip(local);
    let value = tested_by(checker, value, test, owner.local.start as usize)?;
    Ok(Opening { value_type, value })
}
