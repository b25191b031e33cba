//! Constants.

ghost use Rattle.std.specs.Prelude.{◌≡◌, IfOk, option_map, is_some};
ghost use Rattle.syntax.specs.Trees.{member_const};
ghost use Rattle.syntax.specs.Views.{ident, const_of, option_of, param_of};
ghost use Rattle.resolution.specs.Scopes.{the_decl};
ghost use Rattle.resolution.specs.Constants.{want_of, default_of};
ghost use Rattle.resolution.specs.Working.TypedConstants.{const_sort, const_value, typed_const, opened, member_sort, member_of};
ghost use Rattle.resolution.specs.Faults.{const_start};
ghost use Rattle.resolution.specs.Working.Findings.{found_in};
ghost use Rattle.resolution.specs.Working.FaultLists.{own_faults, sort_misfit, const_faults, opening_faults};
ghost use Rattle.types_symbols.specs.{decls_of};
ghost use Rattle.types_bodies.specs.Working.Parts.{pushed};
ghost use Rattle.types.specs.Working.ConstantValues.{arguments_of, argument_faults_of};

use core_lang::value::{Value, ValueType};
use resolution::finding::{Finding, Firsts, report, report_found, report_if};
use resolution::wanted::{Sort, Want};
use resolution::why::{Kind, Role, Why};
use source::fault::Code;
use source::token::Number;
use std::alloc::{AllocError, Global};
use syntax::tree::{Const, Decl, Name, Param};
use types_bodies::wanted::{fits_sort, number, report_number, want};
use types_symbols::scope::{ResolvedName, misnamed, report_unfit, struct_named, type_outside};
use types_symbols::table::SymbolTable;

/// The sort of a constant, if it has a type.
fn const_sort(symbols: &SymbolTable, c: &Const) -> Option<Sort>
    ensures { result ≡ const_sort (decls_of symbols.now) (const_of c.now) }
{
    match c {
        Const::Int(n) | Const::Negative(_, n) => match number(*n) {
            Some(_) => Some(Sort::Of(ValueType::Integer)),
            None => None,
        },
        Const::Null(_) => Some(Sort::Null),
        Const::Member(name, _) => member_sort(symbols, name),
    }
}

/// The sort of a member of a pool, if its struct has no fault.
fn member_sort(symbols: &SymbolTable, name: &Name) -> Option<Sort>
    ensures { result ≡ member_sort (decls_of symbols.now) (the_decl (decls_of symbols.now) (ident name.now).text) }
{
    match symbols.find(name.text.as_str()) {
        Some((_, Decl::Pool(pool))) => match struct_named(symbols, &pool.target) {
            Some(number) => Some(Sort::Of(ValueType::Reference(number))),
            None => None,
        },
        _ => None,
    }
}

/// The member of a pool with this index.
fn member_of(symbols: &SymbolTable, name: &Name, index: u64) -> Option<Value>
    ensures { result ≡ member_of (decls_of symbols.now) (the_decl (decls_of symbols.now) (ident name.now).text) index }
{
    match symbols.find(name.text.as_str()) {
        Some((place, Decl::Pool(pool))) => {
            if index < pool.length.value {
                Some(Value::Ref(Some(symbols.object(place, index))))
            } else {
                None
            }
        }
        _ => None,
    }
}

/// The value of a constant.
fn const_value(symbols: &SymbolTable, c: &Const) -> Option<Value>
    ensures { result ≡ const_value (decls_of symbols.now) (const_of c.now) }
{
    match c {
        Const::Int(n) => match number(*n) {
            Some(value) => Some(Value::Int(value)),
            None => None,
        },
        Const::Negative(_, n) => match number(*n) {
            Some(value) => Some(Value::Int(-value)),
            None => None,
        },
        Const::Null(_) => Some(Value::Ref(None)),
        Const::Member(name, n) => member_of(symbols, name, n.value),
    }
}

/// The value of a constant, if it is as expected.
pub fn typed_const(symbols: &SymbolTable, w: Want, c: &Const) -> Option<Value>
    ensures { result ≡ typed_const (decls_of symbols.now) w (const_of c.now) }
{
    match const_sort(symbols, c) {
        Some(sort) => {
            if fits_sort(w, sort) {
                const_value(symbols, c)
            } else {
                None
            }
        }
        None => None,
    }
}

/// The initial value of something of this type.
pub fn opened(symbols: &SymbolTable, t: ValueType, c: Option<&Const>) -> Option<Value>
    ensures { result ≡ opened (decls_of symbols.now) t (option_map (λ x. const_of x.now) c.entry) }
{
    match c {
        Some(c) => typed_const(symbols, Want::Value(t), c),
        None => Some(default_of(t)),
    }
}

/// The default value of a type: 0 or null.
pub fn default_of(t: ValueType) -> Value
    ensures { result ≡ default_of t }
{
    match t {
        ValueType::Integer => Value::Int(0),
        ValueType::Reference(_) => Value::Ref(None),
    }
}

/// Notes the faults of a pool's name with an index.
pub fn report_index(symbols: &SymbolTable, name: &Name, n: Number, firsts: &mut Firsts)
    ensures { firsts.new ≡ found_in firsts.old (own_faults (decls_of symbols.now) (member_const (ident name.now) n)) }
{
    let start = name.start as usize;
    match symbols.find(name.text.as_str()) {
        None => report(Code::UnknownName, start, firsts),
        Some((_, Decl::Pool(pool))) => {
            let is_out = struct_named(symbols, &pool.target).is_some()
                && pool.length.value <= n.value;
            report_if(
                is_out,
                Code::InitOutOfRangeOrRepeated,
                n.span.start as usize,
                firsts,
            );
        }
        Some((place, d)) => {
            let meant = ResolvedName::Decl(place, d);
            report_unfit(
                symbols,
                misnamed(Code::WrongType, Role::Pool, start, meant),
                meant,
                firsts,
            );
        }
    }
}

/// Notes the faults of a constant by itself.
fn report_own(symbols: &SymbolTable, c: &Const, firsts: &mut Firsts)
    ensures { firsts.new ≡ found_in firsts.old (own_faults (decls_of symbols.now) (const_of c.now)) }
{
    match c {
        Const::Int(n) | Const::Negative(_, n) => report_number(*n, firsts),
        Const::Null(_) => {}
        Const::Member(name, n) => report_index(symbols, name, *n, firsts),
    }
}

/// The first byte of a constant.
fn const_start(c: &Const) -> usize
    ensures { result ≡ const_start (const_of c.now) }
{
    match c {
        Const::Int(n) => n.span.start as usize,
        Const::Negative(sign, _) => sign.start as usize,
        Const::Null(at) => at.start as usize,
        Const::Member(name, _) => name.start as usize,
    }
}

/// Notes a constant whose sort is not as expected.
fn report_sort(w: Want, start: usize, s: Option<Sort>, firsts: &mut Firsts)
    ensures { firsts.new ≡ found_in firsts.old (sort_misfit w start s) }
{
    if let Some(s) = s {
        if !fits_sort(w, s) {
            let why = Why::Unwanted(w, Kind::Value(s));
            report_found(Finding::new(Code::WrongType, start, why), firsts);
        }
    }
}

/// Notes the faults of a constant of which something is expected.
#[tactic(auto, using(resolution::specs::Theory::Leasts::found_append))]
pub fn report_const(symbols: &SymbolTable, w: Want, c: &Const, firsts: &mut Firsts)
    ensures { firsts.new ≡ found_in firsts.old (const_faults (decls_of symbols.now) w (const_of c.now)) }
{
    report_own(symbols, c, firsts);
    report_sort(w, const_start(c), const_sort(symbols, c), firsts);
}

/// Notes the faults of a constant that is an initial value.
pub fn report_opening(symbols: &SymbolTable, w: Want, c: &Option<Const>, firsts: &mut Firsts)
    ensures { firsts.new ≡ found_in firsts.old (opening_faults (decls_of symbols.now) w (option_of const_of c.now)) }
{
    if let Some(c) = c {
        report_const(symbols, w, c, firsts);
    }
}

/// What a parameter expects of its argument.
fn want_of(symbols: &SymbolTable, p: &Param) -> Want
    ensures { result ≡ want_of (decls_of symbols.now) (param_of p.now) }
{
    want(type_outside(symbols, &p.value_type))
}

/// Notes the faults of arguments.
#[tactic(auto, using(resolution::specs::Theory::Leasts::found_append))]
pub fn report_arguments(
    symbols: &SymbolTable,
    params: &[Param],
    constants: &[Const],
    firsts: &mut Firsts,
)
    ensures { firsts.new ≡ found_in firsts.old (argument_faults_of symbols.now params.now constants.now) }
{
    for i in 0..params.len().min(constants.len()) {
        report_const(symbols, want_of(symbols, &params[i]), &constants[i], firsts);
    }
}

/// The values and one more, if none is missing.
fn with_value(
    values: Option<Vec<Value>>,
    value: Option<Value>,
) -> Result<Option<Vec<Value>>, AllocError>
    ensures { IfOk result (λ r. option_map (λ vs. vs.items) r ≡ pushed (option_map (λ vs. vs.items) values) value) }
{
    match (values, value) {
        (Some(mut values), Some(value)) => {
            values.push(value)?;
            Ok(Some(values))
        }
        _ => Ok(None),
    }
}

/// The values of arguments, one for each parameter.
pub fn typed_arguments(
    alloc: Global,
    symbols: &SymbolTable,
    params: &[Param],
    constants: &[Const],
) -> Result<Option<Vec<Value>>, AllocError>
    ensures { IfOk result (λ r. option_map (λ vs. vs.items) r ≡ arguments_of symbols.now params.now constants.now) }
{
    if params.len() != constants.len() {
        return Ok(None);
    }
    let mut values = Some(Vec::new(alloc));
    for i in 0..params.len() {
        let wanted = want_of(symbols, &params[i]);
        values = with_value(values, typed_const(symbols, wanted, &constants[i]))?;
    }
    Ok(values)
}

/// Whether the arguments have no fault: one for each parameter, each of the parameter's type.
pub fn are_typed(symbols: &SymbolTable, params: &[Param], constants: &[Const]) -> bool
    ensures { result ≡ is_some (arguments_of symbols.now params.now constants.now) }
{
    if params.len() != constants.len() {
        return false;
    }
    for i in 0..params.len() {
        let wanted = want_of(symbols, &params[i]);
        if typed_const(symbols, wanted, &constants[i]).is_none() {
            return false;
        }
    }
    true
}
