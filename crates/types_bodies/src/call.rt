//! Calls of helpers.

ghost use Rattle.std.specs.Prelude.{◌≡◌, OnOk, IfOk, Some, option_map, length};
ghost use Rattle.syntax.specs.Views.{ident, section_of, param_of, helper_call_of};
ghost use Rattle.resolution.specs.CoreViews.{core_expr, core_action};
ghost use Rattle.resolution.specs.Constants.{want_of};
ghost use Rattle.resolution.specs.Working.TypedStatements.{call_resolved};
ghost use Rattle.resolution.specs.Working.Findings.{found_in};
ghost use Rattle.resolution.specs.Working.FaultLists.{helper_call_faults};
ghost use Rattle.types_bodies.specs.Working.Checkers.{scope};
ghost use Rattle.types_bodies.specs.Working.Parts.{pushed};
ghost use Rattle.types_bodies.specs.Working.Calls.{helper_named, numbered, section_seen, values_seen, values_of, values_blamed, each_blamed, passed_seen, passed_blamed, name_blamed, called_with, takes_result, taking_blamed};

use crate::checked::Checked;
use crate::checker::Checker;
use crate::wanted::{fits_type, want};
use core_lang::tree::{Action, Expr};
use core_lang::value::ValueType;
use resolution::finding::{Finding, Firsts, report_found, report_found_if};
use resolution::wanted::{Sort, Want};
use resolution::why::{Kind, Role, Why};
use source::fault::Code;
use std::alloc::AllocError;
use syntax::tree;
use syntax::tree::{Decl, HelperCall, Param, Section};
use types_symbols::scope::{ResolvedName, misnamed};

/// What a parameter expects of its argument.
fn want_of(checker: &Checker, p: &Param) -> Want
    ensures { result ≡ want_of (scope checker.now).decls (param_of p.now) }
{
    want(checker.type_outside(&p.value_type))
}

/// The values and one more, if none is missing.
fn with_value(values: Option<Vec<Expr>>, value: Option<Expr>) -> Checked<Vec<Expr>>
    ensures { IfOk result (λ r. values_seen r ≡ pushed (values_seen values) (option_map core_expr value)) }
{
    let Some((mut values, value)) = values.zip(value) else {
        return Ok(None);
    };
    if let Err(e) = values.push(value) {
        drop(values);
        return Err(e.into());
    }
    Ok(Some(values))
}

/// The values of arguments, from left to right, each for its parameter. `None` if one of them has a fault.
#[tactic(auto, using(resolution::specs::Theory::Leasts::found_append))]
fn values_for(
    checker: &Checker,
    params: &[Param],
    arguments: &[tree::Expr],
    firsts: &mut Firsts,
) -> Checked<Vec<Expr>>
    requires { length params.now ≡ length arguments.now }
    ensures value { IfOk result (λ r. values_seen r ≡ values_of (scope checker.now) params.now arguments.now) }
    ensures faults { OnOk result
        (firsts.new ≡ found_in firsts.old (values_blamed (scope checker.now) params.now arguments.now)) }
{
    let mut values = Some(Vec::new(checker.alloc()));
    for i in 0..params.len() {
        let wanted = want_of(checker, &params[i]);
        let Ok(value) = checker.value(wanted, &arguments[i], firsts) else {
            drop(values);
            return Err(AllocError);
        };
        values = with_value(values, value)?;
    }
    Ok(values)
}

/// Notes the faults of arguments, each by itself.
#[tactic(auto, using(resolution::specs::Theory::Leasts::found_append))]
fn report_each(
    checker: &Checker,
    arguments: &[tree::Expr],
    firsts: &mut Firsts,
) -> Result<(), AllocError>
    ensures { OnOk result (firsts.new ≡ found_in firsts.old (each_blamed (scope checker.now) arguments.now)) }
{
    for e in arguments {
        let value = checker.value(Want::Anything, e, firsts)?;
        drop(value);
    }
    Ok(())
}

/// The helper that a call names, with its number.
fn helper_named<'a>(checker: &'a Checker, c: &HelperCall) -> Option<(usize, &'a Section)>
    ensures { section_seen result
        ≡ numbered (scope checker.now) (helper_named (scope checker.now) (helper_call_of c.now)) }
{
    let ResolvedName::Decl(place, d) = checker.meaning(&c.helper) else {
        return None;
    };
    match d {
        Decl::Helper(helper) => Some((checker.number_of(place, d), helper)),
        _ => None,
    }
}

/// Notes a name that is not that of a helper, or of one with another number of parameters.
fn report_name(checker: &Checker, c: &HelperCall, firsts: &mut Firsts)
    ensures { firsts.new ≡ found_in firsts.old (name_blamed (scope checker.now) (helper_call_of c.now)) }
{
    let start = c.helper.start as usize;
    match checker.meaning(&c.helper) {
        ResolvedName::Decl(_, Decl::Helper(helper)) => {
            let is_other = c.arguments.len() != helper.params.len();
            let why = Why::Counted(helper.params.len(), c.arguments.len());
            report_found_if(
                is_other,
                Finding::new(Code::WrongArgumentCount, start, why),
                firsts,
            );
        }
        m => {
            let found = misnamed(Code::WrongType, Role::Helper, start, m);
            let _none: Option<()> = checker.misplaced(found, m, firsts);
        }
    }
}

/// The arguments of a call, for the helper that it names. Without a helper, they are checked by themselves; with a
/// wrong number of them, they are not checked.
fn passed(checker: &Checker, c: &HelperCall, firsts: &mut Firsts) -> Checked<Vec<Expr>>
    ensures value { IfOk result (λ r. values_seen r ≡ passed_seen (scope checker.now) (helper_call_of c.now)) }
    ensures faults { OnOk result
        (firsts.new ≡ found_in firsts.old (passed_blamed (scope checker.now) (helper_call_of c.now))) }
{
    let Some((_, helper)) = helper_named(checker, c) else {
        report_each(checker, &c.arguments, firsts)?;
        return Ok(None);
    };
    if helper.params.len() != c.arguments.len() {
        return Ok(None);
    }
    values_for(checker, &helper.params, &c.arguments, firsts)
}

/// A call of a helper with these arguments, if nothing is missing.
fn called_with(
    helper: Option<(usize, &Section)>,
    values: Option<Vec<Expr>>,
    local: Option<usize>,
) -> Option<Action>
    ensures { option_map core_action result ≡ called_with (section_seen helper.entry) (values_seen values) local }
{
    let Some(((helper, _), arguments)) = helper.zip(values) else {
        return None;
    };
    Some(Action::Call {
        helper,
        arguments,
        result: local,
    })
}

/// Checks a call of a helper. Returns its resolved form, if its name and its arguments have no fault. The local takes
/// the helper's result.
#[tactic(auto, using(resolution::specs::Theory::Leasts::found_append))]
pub fn check_call(
    checker: &Checker,
    c: &HelperCall,
    local: Option<usize>,
    firsts: &mut Firsts,
) -> Checked<Action>
    ensures value { IfOk result
        (λ r. option_map core_action r ≡ call_resolved (scope checker.now) (helper_call_of c.now) local) }
    ensures faults { OnOk result
        (firsts.new ≡ found_in firsts.old (helper_call_faults (scope checker.now) (helper_call_of c.now))) }
{
    report_name(checker, c, firsts);
    let values = passed(checker, c, firsts)?;
    Ok(called_with(helper_named(checker, c), values, local))
}

/// Whether a local of this type can take the result of the called helper. If not, and the types of both have no fault,
/// it notes a fault.
pub fn takes_result(
    checker: &Checker,
    t: Option<ValueType>,
    c: &HelperCall,
    firsts: &mut Firsts,
) -> bool
    ensures value { result ≡ takes_result (scope checker.now) t (helper_call_of c.now) }
    ensures faults { firsts.new ≡ found_in firsts.old (taking_blamed (scope checker.now) t (helper_call_of c.now)) }
{
    let Some((t, (_, helper))) = t.zip(helper_named(checker, c)) else {
        return false;
    };
    let start = c.helper.start as usize;
    let Some(result) = &helper.result else {
        report_found(
            Finding::new(Code::WrongType, start, Why::NoResult(t)),
            firsts,
        );
        return false;
    };
    let Some(given) = checker.type_outside(result) else {
        return false;
    };
    let fits = fits_type(t, Sort::Of(given));
    let why = Why::Unwanted(Want::Value(t), Kind::Value(Sort::Of(given)));
    report_found_if(!fits, Finding::new(Code::WrongType, start, why), firsts);
    fits
}
