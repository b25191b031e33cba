//! The initial values that `init`s give.

ghost use Rattle.std.specs.Prelude.{◌≡◌};
ghost use Rattle.syntax.specs.Views.{init_of, const_of};
ghost use Rattle.resolution.specs.Constants.{member_want};
ghost use Rattle.resolution.specs.Working.Findings.{found_in};
ghost use Rattle.resolution.specs.Working.FaultLists.{init_field_faults, null_faults, init_faults};
ghost use Rattle.types_symbols.specs.{decls_of};
ghost use Rattle.types.specs.Working.ConstantValues.{member_found};

use crate::constant::{report_const, report_index};
use core_lang::value::ValueType;
use resolution::finding::{Firsts, report, report_if};
use resolution::wanted::Want;
use source::fault::Code;
use syntax::tree::{Const, Init, Member};
use types_bodies::wanted::want;
use types_symbols::first_inits::{initialised, structure_given};
use types_symbols::scope::{struct_named, type_outside};
use types_symbols::table::SymbolTable;

/// Notes a member that no `init` can give a value.
fn report_field(symbols: &SymbolTable, i: &Init, firsts: &mut Firsts)
    ensures { firsts.new ≡ found_in firsts.old (init_field_faults (decls_of symbols.now) (init_of i.now)) }
{
    let Some(structure) = structure_given(symbols.decls(), i) else {
        return;
    };
    match structure.find(i.field.text.as_str()) {
        None => report(Code::UnknownName, i.field.start as usize, firsts),
        Some((_, Member::Lock(_))) => report(Code::LockAsValue, i.field.start as usize, firsts),
        Some((_, Member::Final(_))) | Some((_, Member::Field(_))) => {}
    }
}

/// What is expected of the constant of an `init`.
fn member_want(symbols: &SymbolTable, m: Option<(usize, &Member)>) -> Want
    ensures { result ≡ member_want (decls_of symbols.now) (member_found m.entry) }
{
    match m {
        Some((_, Member::Final(f))) => match struct_named(symbols, &f.target) {
            Some(number) => Want::Value(ValueType::Reference(number)),
            None => Want::Anything,
        },
        Some((_, Member::Field(f))) => want(type_outside(symbols, &f.value_type)),
        Some((_, Member::Lock(_))) | None => Want::Anything,
    }
}

/// Notes null for a final reference.
fn report_null(symbols: &SymbolTable, m: Option<(usize, &Member)>, c: &Const, firsts: &mut Firsts)
    ensures { firsts.new ≡ found_in firsts.old
        (null_faults (decls_of symbols.now) (member_found m.entry) (const_of c.now)) }
{
    if let (Some((_, Member::Final(f))), Const::Null(at)) = (m, c) {
        let is_known = struct_named(symbols, &f.target).is_some();
        report_if(
            is_known,
            Code::FinalWithoutOpeningValue,
            at.start as usize,
            firsts,
        );
    }
}

/// Notes the faults of an `init`.
#[tactic(auto, using(resolution::specs::Theory::Leasts::found_append))]
pub fn report_init(symbols: &SymbolTable, i: &Init, firsts: &mut Firsts)
    ensures { firsts.new ≡ found_in firsts.old (init_faults (decls_of symbols.now) (init_of i.now)) }
{
    report_index(symbols, &i.pool, i.index, firsts);
    report_field(symbols, i, firsts);
    let m = initialised(symbols.decls(), i);
    report_const(symbols, member_want(symbols, m), &i.value, firsts);
    report_null(symbols, m, &i.value, firsts);
}
