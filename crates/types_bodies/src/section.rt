//! Sections and helpers.

ghost use Rattle.std.specs.Prelude.{◌≡◌, OnOk, IfOk, option_map, map};
ghost use Rattle.syntax.specs.Views.{param_of, class_name_of, section_of as section_view};
ghost use Rattle.resolution.specs.CoreViews as core;
ghost use Rattle.resolution.specs.CoreViews.{core_section};
ghost use Rattle.resolution.specs.Limits.{section_limits, helper_limits};
ghost use Rattle.resolution.specs.Scopes.{entered, result_of};
ghost use Rattle.resolution.specs.Working.TypedSections.{core_locals, core_local, classes_named, section_in, typed_section};
ghost use Rattle.resolution.specs.Working.Findings.{found_in};
ghost use Rattle.resolution.specs.Working.FaultLists.{param_faults, result_faults, section_faults};
ghost use Rattle.types_symbols.specs.{decls_of, local_seen};
ghost use Rattle.types_bodies.specs.Working.Checkers.{scope};
ghost use Rattle.types_bodies.specs.Working.Parts.{items_of, pushed};
ghost use Rattle.types_bodies.specs.Working.Whole.{locals_of, section_from, section_if, blamed_in};

use crate::checked::Checked;
use crate::checker::Checker;
use crate::stmt::{BlockChecker, check_body};
use core_lang::tree;
use core_lang::tree::{LocalKind, Section};
use core_lang::value::ValueType;
use resolution::body_limits::{HELPER_LIMITS, SECTION_LIMITS};
use resolution::finding::{Firsts, report_if};
use source::fault::Code;
use std::alloc::{AllocError, Global};
use syntax::tree as written;
use syntax::tree::{ClassName, Param};
use types_symbols::report_listed;
use types_symbols::scope::{Local, report_type, type_outside};
use types_symbols::table::SymbolTable;

/// A local, if its type has no fault.
fn core_local(l: &Local) -> Checked<tree::Local>
    ensures { IfOk result (λ r. option_map core.core_local r ≡ core_local (local_seen l.now)) }
{
    match l.value_type {
        Some(value_type) => Ok(Some(tree::Local {
            name: l.name.clone()?,
            kind: l.kind,
            value_type,
        })),
        None => Ok(None),
    }
}

/// The locals with one more, if none is missing.
fn with_local(
    locals: Option<Vec<tree::Local>>,
    local: Option<tree::Local>,
) -> Checked<Vec<tree::Local>>
    ensures { IfOk result (λ r. locals_of r ≡ pushed (locals_of locals) (option_map core.core_local local)) }
{
    let Some((mut locals, local)) = locals.zip(local) else {
        return Ok(None);
    };
    if let Err(e) = locals.push(local) {
        drop(locals);
        return Err(e.into());
    }
    Ok(Some(locals))
}

/// The locals, if the types of all have no fault.
fn core_locals(alloc: Global, locals: &[Local]) -> Checked<Vec<tree::Local>>
    ensures { IfOk result (λ r. locals_of r ≡ core_locals (map local_seen locals.now)) }
{
    let mut made = Some(Vec::new(alloc));
    for local in locals {
        let Ok(next) = core_local(local) else {
            drop(made);
            return Err(AllocError);
        };
        made = with_local(made, next)?;
    }
    Ok(made)
}

/// The result type of a section or a helper, if it has one without a fault.
fn result_type(
    symbols: &SymbolTable,
    s: &written::Section,
    firsts: &mut Firsts,
) -> Option<ValueType>
    ensures value { result ≡ result_of (decls_of symbols.now) (section_view s.now) }
    ensures faults { firsts.new ≡ found_in firsts.old
        (result_faults (decls_of symbols.now) (section_view s.now).result) }
{
    match &s.result {
        Some(t) => {
            report_type(symbols, t, firsts);
            type_outside(symbols, t)
        }
        None => None,
    }
}

/// Declares the parameters of a section or a helper, and notes their faults.
#[tactic(auto, using(resolution::specs::Theory::Leasts::found_append))]
fn check_params(
    checker: &mut Checker,
    params: &[Param],
    firsts: &mut Firsts,
) -> Result<(), AllocError>
    ensures faults { OnOk result
        (firsts.new ≡ found_in firsts.old (param_faults (scope checker.old) 0 (map param_of params.now))) }
    ensures scope { OnOk result (scope checker.new ≡ entered (scope checker.old) (map param_of params.now)) }
{
    for (place, param) in params.iter().enumerate() {
        checker.report_name(&param.name, firsts);
        report_if(
            checker.limits().parameters <= place,
            Code::LimitExceeded,
            param.name.start as usize,
            firsts,
        );
        let t = checker.declared_type(&param.value_type, firsts);
        checker.bind(&param.name, LocalKind::Parameter, t)?;
    }
    Ok(())
}

/// The classes with one more, if none is missing.
fn with_class(classes: Option<Vec<usize>>, class: Option<usize>) -> Checked<Vec<usize>>
    ensures { IfOk result (λ r. items_of r ≡ pushed (items_of classes) class) }
{
    let Some((mut classes, class)) = classes.zip(class) else {
        return Ok(None);
    };
    if let Err(e) = classes.push(class) {
        drop(classes);
        return Err(e.into());
    }
    Ok(Some(classes))
}

impl<'a> Checker<'a> {
    // The lock classes of these names, if each names one.
    fn classes_named(&self, listed: &[ClassName]) -> Checked<Vec<usize>>
        ensures { IfOk result (λ r. items_of r ≡ classes_named (scope self.now).decls (map class_name_of listed.now)) }
    {
        let mut made = Some(Vec::new(self.alloc()));
        for class in listed {
            let next = self.class_named(class);
            made = with_class(made, next)?;
        }
        Ok(made)
    }

    // A section or a helper made from its parts, if its result type and its `return` agree.
    fn section_with(
        &self,
        s: &written::Section,
        locals: Vec<tree::Local>,
        listed: Vec<usize>,
        body: BlockChecker,
    ) -> Checked<Section>
        ensures { IfOk result (λ r. option_map core_section r ≡ section_from (scope self.now).decls (section_view s.now)
            locals listed body) }
    {
        let result_type = match (&s.result, &body.result) {
            (None, None) => None,
            (Some(t), Some(_)) => match self.type_outside(t) {
                Some(t) => Some(t),
                None => {
                    drop(locals);
                    drop(body);
                    return Ok(None);
                }
            },
            _ => {
                drop(locals);
                drop(body);
                return Ok(None);
            }
        };
        let Ok(name) = String::from_str(self.alloc(), s.name.text.as_str()) else {
            drop(locals);
            drop(body);
            return Err(AllocError);
        };
        Ok(Some(Section {
            name,
            parameters: s.params.len(),
            locals,
            result_type,
            listed,
            body: body.stmts,
            result: body.result,
        }))
    }

    // A section or a helper made from its parts, if none is missing.
    fn section_of(
        &self,
        s: &written::Section,
        locals: Option<Vec<tree::Local>>,
        body: Option<BlockChecker>,
    ) -> Checked<Section>
        ensures { IfOk result
            (λ r. option_map core_section r ≡ section_if (scope self.now).decls (section_view s.now) locals body) }
    {
        let Some((locals, body)) = locals.zip(body) else {
            return Ok(None);
        };
        let Ok(listed) = self.classes_named(&s.listed) else {
            drop(locals);
            drop(body);
            return Err(AllocError);
        };
        let Some(listed) = listed else {
            drop(locals);
            drop(body);
            return Ok(None);
        };
        self.section_with(s, locals, listed, body)
    }
}

/// Checks a section or a helper by a checker at its start, and notes the faults of its parameters and statements.
/// Returns its resolved form, if it has one.
#[tactic(auto, using(resolution::specs::Theory::Leasts::found_append))]
fn check_in(checker: &mut Checker, s: &written::Section, firsts: &mut Firsts) -> Checked<Section>
    ensures value { IfOk result (λ r. option_map core_section r ≡ section_in (scope checker.old) (section_view s.now)) }
    ensures faults { OnOk result
        (firsts.new ≡ found_in firsts.old (blamed_in (scope checker.old) (section_view s.now))) }
{
    check_params(checker, &s.params, firsts)?;
    let body = check_body(checker, &s.body.stmts, firsts)?;
    let Ok(locals) = core_locals(checker.alloc(), checker.locals()) else {
        drop(body);
        return Err(AllocError);
    };
    checker.section_of(s, locals, body)
}

/// The resolved section that a tree stands for: each name replaced by the number of what it refers to, every expression
/// typed. `None` if something in it has no type, or its result type and its `return` do not agree. Its faults are
/// noted. The only error is a failed allocation.
#[tactic(auto, using(resolution::specs::Theory::Leasts::found_append))]
pub fn check_section(
    alloc: Global,
    symbols: &SymbolTable,
    s: &written::Section,
    firsts: &mut Firsts,
) -> Result<Option<Section>, AllocError>
    ensures value { IfOk result
        (λ r. option_map core_section r ≡ typed_section (decls_of symbols.now) section_limits (section_view s.now)) }
    ensures faults { OnOk result
        (firsts.new ≡ found_in firsts.old (section_faults (decls_of symbols.now) section_limits (section_view s.now))) }
{
    let result = result_type(symbols, s, firsts);
    let mut checker = Checker::new(alloc, symbols, result, SECTION_LIMITS);
    let section = check_in(&mut checker, s, firsts);
    drop(checker);
    let section = section?;
    report_listed(symbols, &s.listed, firsts)?;
    Ok(section)
}

/// The resolved helper that a tree stands for, like [`check_section`]. It has no limits of its own.
#[tactic(auto, using(resolution::specs::Theory::Leasts::found_append))]
pub fn check_helper(
    alloc: Global,
    symbols: &SymbolTable,
    s: &written::Section,
    firsts: &mut Firsts,
) -> Result<Option<Section>, AllocError>
    ensures value { IfOk result
        (λ r. option_map core_section r ≡ typed_section (decls_of symbols.now) helper_limits (section_view s.now)) }
    ensures faults { OnOk result
        (firsts.new ≡ found_in firsts.old (section_faults (decls_of symbols.now) helper_limits (section_view s.now))) }
{
    let given = result_type(symbols, s, firsts);
    let mut checker = Checker::new(alloc, symbols, given, HELPER_LIMITS);
    let helper = check_in(&mut checker, s, firsts);
    drop(checker);
    let helper = helper?;
    report_listed(symbols, &s.listed, firsts)?;
    Ok(helper)
}
