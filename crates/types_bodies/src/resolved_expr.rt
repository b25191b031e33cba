//! Resolved expressions, made from their resolved parts.

ghost use Rattle.std.specs.Prelude.{◌≡◌, IfOk, Some, option_map};
ghost use Rattle.resolution.specs.CoreViews.{core_expr, core_condition};
ghost use Rattle.resolution.specs.Expressions.{value, fits, alike_sorts, operator_of};
ghost use Rattle.resolution.specs.Working.TypedExpressions.{number_value};
ghost use Rattle.resolution.specs.Working.TypedExpressions.{fitting, as_value, number_resolved, test_resolved, literal, value_of, parenthesised, negated, not_so, chained, ordered, equated, compared};
ghost use Rattle.resolution.specs.Working.Findings.{found_in};
ghost use Rattle.resolution.specs.Reasons.{kind_of};
ghost use Rattle.resolution.specs.Working.FaultLists.{misfit, number_faults, unlike, side_faults, operator_faults};
ghost use Rattle.resolution.specs.Where.{side_want};
ghost use Rattle.syntax.specs.declared.tree.Level.TheVariants.{Sum};
ghost use Rattle.types_bodies.specs.Working.ResolvedExprs.{resolved_expr_of, operations_of, seen, tests_seen, tests_of, holds};
ghost use Rattle.types_bodies.specs.Working.Parts.{items_of, pushed, operation_with, so_far, first_test, tests_with};

use crate::checked::{Checked, faulty_for};
use crate::wanted::{fits_sort, fits_type, number, report_number};
use core_lang::tree::{Comparison, Condition, Expr, Operation, Operator};
use core_lang::value::ValueType;
use resolution::finding::{Finding, Firsts, report_found, report_found_if};
use resolution::wanted::{Sort, Want};
use resolution::why::{Kind, Why};
use source::fault::Code;
use source::token::Number;
use std::alloc::{AllocError, Global};
use syntax::tree;
use syntax::tree::Level;

/// The resolved form of an expression.
#[derive(Drop)]
pub enum ResolvedExpr {
    /// A value, and its sort.
    Value(Expr, Sort),
    /// A condition.
    Truth(Condition),
}

impl ResolvedExpr {
    /// The kind of the expression.
    pub fn kind(&self) -> Kind
        ensures { result ≡ kind_of (resolved_expr_of self.now) }
    {
        match self {
            ResolvedExpr::Value(_, sort) => Kind::Value(*sort),
            ResolvedExpr::Truth(_) => Kind::Condition,
        }
    }
}

/// A side of a comparison, and its first byte.
#[derive(Drop)]
pub struct Side {
    pub start: usize,
    pub value: Option<ResolvedExpr>,
}

/// Operands of `&&` or `||`, the last apart.
#[derive(Drop)]
pub struct Tests {
    /// All but the last, in their order.
    pub before: Vec<Condition>,
    /// The last.
    pub last: Condition,
}

/// Whether the expression is as expected.
fn fits(w: Want, s: &ResolvedExpr) -> bool
    ensures { result ≡ fits w (resolved_expr_of s.now) }
{
    match s {
        ResolvedExpr::Value(_, sort) => fits_sort(w, *sort),
        ResolvedExpr::Truth(_) => match w {
            Want::Anything | Want::Condition => true,
            Want::Value(_) => false,
        },
    }
}

/// Notes an expression that is not as expected.
pub fn report_misfit(w: Want, start: usize, s: &Option<ResolvedExpr>, firsts: &mut Firsts)
    ensures { firsts.new ≡ found_in firsts.old (misfit w start (option_map resolved_expr_of s.now)) }
{
    if let Some(s) = s {
        if !fits(w, s) {
            let why = Why::Unwanted(w, s.kind());
            report_found(Finding::new(Code::WrongType, start, why), firsts);
        }
    }
}

/// The value, if it is as expected.
pub fn value_in(w: Want, s: Option<ResolvedExpr>) -> Option<Expr>
    ensures { option_map core_expr result ≡ as_value (fitting w (option_map resolved_expr_of s)) }
{
    match s {
        Some(ResolvedExpr::Value(e, sort)) => {
            if fits_sort(w, sort) {
                Some(e)
            } else {
                drop(e);
                None
            }
        }
        s => {
            drop(s);
            None
        }
    }
}

/// The number.
pub fn number_in(s: Option<ResolvedExpr>) -> Option<Expr>
    ensures { option_map core_expr result ≡ number_resolved (option_map resolved_expr_of s) }
{
    value_in(Want::Value(ValueType::Integer), s)
}

/// The condition.
pub fn test_in(s: Option<ResolvedExpr>) -> Option<Condition>
    ensures { option_map core_condition result ≡ test_resolved (option_map resolved_expr_of s) }
{
    match s {
        Some(ResolvedExpr::Truth(c)) => Some(c),
        s => {
            drop(s);
            None
        }
    }
}

/// What is expected of each side of a comparison by itself.
pub fn side_want(c: tree::Comparison) -> Want
    ensures { result ≡ side_want c }
{
    match c {
        tree::Comparison::Equal | tree::Comparison::NotEqual => Want::Anything,
        tree::Comparison::Less
        | tree::Comparison::LessOrEqual
        | tree::Comparison::Greater
        | tree::Comparison::GreaterOrEqual => Want::Value(ValueType::Integer),
    }
}

/// Whether `==` can compare values of these two sorts.
fn are_alike(a: Sort, b: Sort) -> bool
    ensures { result ≡ alike_sorts a b }
{
    match (a, b) {
        (Sort::Of(t), s) => fits_type(t, s),
        (Sort::Null, Sort::Null) => true,
        (Sort::Null, Sort::Of(ValueType::Integer)) => false,
        (Sort::Null, Sort::Of(ValueType::Reference(_))) => true,
    }
}

/// A number as an expression.
pub fn literal(n: Number, firsts: &mut Firsts) -> Option<ResolvedExpr>
    ensures value { option_map resolved_expr_of result ≡ literal (number_value n) }
    ensures faults { firsts.new ≡ found_in firsts.old (number_faults n) }
{
    report_number(n, firsts);
    match number(n) {
        Some(n) => Some(ResolvedExpr::Value(Expr::Number(n), Sort::Of(ValueType::Integer))),
        None => None,
    }
}

/// A value of a type, if the type has no fault.
pub fn value_of(e: Expr, t: Option<ValueType>) -> Option<ResolvedExpr>
    ensures { option_map resolved_expr_of result ≡ value_of (core_expr e) t }
{
    match t {
        Some(t) => Some(ResolvedExpr::Value(e, Sort::Of(t))),
        None => {
            drop(e);
            None
        }
    }
}

/// An expression in parentheses.
pub fn parenthesised(s: Option<ResolvedExpr>) -> Option<ResolvedExpr>
    ensures { option_map resolved_expr_of result ≡ parenthesised (option_map resolved_expr_of s) }
{
    match s {
        Some(ResolvedExpr::Value(e, sort)) => match e {
            Expr::Place(mut path) => {
                path.in_parentheses = true;
                Some(ResolvedExpr::Value(Expr::Place(path), sort))
            }
            e => Some(ResolvedExpr::Value(e, sort)),
        },
        s => s,
    }
}

/// The result of `-` on its operand.
pub fn negated(alloc: Global, e: Option<Expr>) -> Checked<ResolvedExpr>
    ensures { IfOk result (λ r. option_map resolved_expr_of r ≡ negated (option_map core_expr e)) }
{
    match e {
        Some(e) => Ok(value_of(Expr::Negate(Box::new(alloc, e)?), Some(ValueType::Integer))),
        None => Ok(None),
    }
}

/// The result of `!` on its operand.
pub fn not_so(alloc: Global, c: Option<Condition>) -> Checked<ResolvedExpr>
    ensures { IfOk result (λ r. option_map resolved_expr_of r ≡ not_so (option_map core_condition c)) }
{
    match c {
        Some(c) => Ok(Some(ResolvedExpr::Truth(Condition::Not(Box::new(alloc, c)?)))),
        None => Ok(None),
    }
}

/// The operator between two numbers. The second one starts at `start`.
pub fn operator(op: tree::Operator, start: usize, firsts: &mut Firsts) -> Option<Operator>
    ensures value { result ≡ operator_of op }
    ensures faults { firsts.new ≡ found_in firsts.old (operator_faults Sum start op) }
{
    match op {
        tree::Operator::Add => Some(Operator::Add),
        tree::Operator::Sub => Some(Operator::Sub),
        tree::Operator::Mul => Some(Operator::Mul),
        tree::Operator::Div => Some(Operator::Div),
        tree::Operator::Rem => Some(Operator::Rem),
        tree::Operator::And | tree::Operator::Or => {
            let why = Why::OperatorOfConditions;
            faulty_for(Finding::new(Code::WrongType, start, why), firsts)
        }
    }
}

/// A chain of numbers.
pub fn chained(
    alloc: Global,
    first: Option<Expr>,
    rest: Option<Vec<Operation>>,
) -> Checked<ResolvedExpr>
    ensures { IfOk result
        (λ r. option_map resolved_expr_of r ≡ chained (option_map core_expr first) (operations_of rest)) }
{
    let Some((first, rest)) = first.zip(rest) else {
        return Ok(None);
    };
    let first = Box::new(alloc, first)?;
    let sort = Sort::Of(ValueType::Integer);
    Ok(Some(ResolvedExpr::Value(Expr::Chain { first, rest }, sort)))
}

/// The operations with one more, if none is missing.
pub fn with_operation(
    operations: Option<Vec<Operation>>,
    operator: Option<Operator>,
    operand: Option<Expr>,
) -> Checked<Vec<Operation>>
    ensures { IfOk result (λ r. items_of r ≡ pushed (items_of operations) (operation_with operator operand)) }
{
    let Some((mut operations, (operator, operand))) = operations.zip(operator.zip(operand)) else {
        return Ok(None);
    };
    if let Err(e) = operations.push(Operation { operator, operand }) {
        drop(operations);
        return Err(e.into());
    }
    Ok(Some(operations))
}

/// One operand of a chain of conditions, with room for the given number of further ones.
pub fn one_test(alloc: Global, c: Option<Condition>, more: usize) -> Checked<Tests>
    ensures { IfOk result (λ r. option_map so_far r ≡ first_test c) }
{
    let Some(last) = c else {
        return Ok(None);
    };
    let Ok(before) = Vec::with_capacity(alloc, more) else {
        drop(last);
        return Err(AllocError);
    };
    Ok(Some(Tests { before, last }))
}

/// The operands and one more, if none is missing.
pub fn with_test(tests: Option<Tests>, c: Option<Condition>) -> Checked<Tests>
    ensures { IfOk result (λ r. option_map so_far r ≡ tests_with (option_map so_far tests) c) }
{
    let Some((tests, c)) = tests.zip(c) else {
        return Ok(None);
    };
    let Tests { mut before, last } = tests;
    if let Err(e) = before.push(last) {
        drop(before);
        drop(c);
        return Err(e.into());
    }
    Ok(Some(Tests { before, last: c }))
}

/// Conditions with `&&` or `||` between them, or `None` if the level takes numbers.
fn joined_by(level: Level, before: Vec<Condition>, last: Box<Condition>) -> Option<ResolvedExpr>
    ensures { option_map resolved_expr_of result ≡ holds level (Some (tests_seen before.items last.value)) }
{
    match level {
        Level::Conjunction => Some(ResolvedExpr::Truth(Condition::And(before, last))),
        Level::Disjunction => Some(ResolvedExpr::Truth(Condition::Or(before, last))),
        Level::Term | Level::Sum => {
            drop(before);
            drop(last);
            None
        }
    }
}

/// A chain of conditions.
pub fn tested(alloc: Global, level: Level, tests: Option<Tests>) -> Checked<ResolvedExpr>
    ensures { IfOk result (λ r. option_map resolved_expr_of r ≡ holds level (option_map tests_of tests)) }
{
    let Some(tests) = tests else {
        return Ok(None);
    };
    let Tests { before, last } = tests;
    match Box::new(alloc, last) {
        Ok(last) => Ok(joined_by(level, before, last)),
        Err(e) => {
            drop(before);
            Err(e.into())
        }
    }
}

/// A comparison of two values, if neither is missing.
fn comparison(c: Comparison, a: Option<Expr>, b: Option<Expr>) -> Option<ResolvedExpr>
    ensures { option_map resolved_expr_of result ≡ ordered c (option_map core_expr a) (option_map core_expr b) }
{
    let Some((a, b)) = a.zip(b) else {
        return None;
    };
    Some(ResolvedExpr::Truth(Condition::Compare(c, a, b)))
}

/// A comparison of two numbers.
fn ordered(c: Comparison, left: Side, right: Side) -> Option<ResolvedExpr>
    ensures { option_map resolved_expr_of result
        ≡ ordered c (number_resolved (seen left)) (number_resolved (seen right)) }
{
    comparison(c, number_in(left.value), number_in(right.value))
}

/// Notes sides that `==` can't compare.
fn report_unlike(left: &Side, right: &Side, firsts: &mut Firsts)
    ensures { firsts.new ≡ found_in firsts.old
        (unlike left.now.start right.now.start (seen left.now) (seen right.now)) }
{
    let (Some(one), Some(other)) = (&left.value, &right.value) else {
        return;
    };
    let why = Why::Unlike(one.kind(), other.kind());
    match (one, other) {
        (ResolvedExpr::Value(_, s), ResolvedExpr::Value(_, t)) => {
            let is_unlike = !are_alike(*s, *t);
            report_found_if(
                is_unlike,
                Finding::new(Code::WrongType, right.start, why),
                firsts,
            );
        }
        (ResolvedExpr::Truth(_), ResolvedExpr::Truth(_)) => {
            report_found(Finding::new(Code::WrongType, left.start, why), firsts);
        }
        _ => report_found(Finding::new(Code::WrongType, right.start, why), firsts),
    }
}

/// A comparison of a value of a sort with the right side, if `==` can compare the two.
fn equated_with(c: Comparison, a: Expr, s: Sort, right: Side) -> Option<ResolvedExpr>
    ensures { option_map resolved_expr_of result ≡ equated c (Some (value (core_expr a) s)) (seen right) }
{
    match right.value {
        Some(ResolvedExpr::Value(b, t)) => {
            if are_alike(s, t) {
                Some(ResolvedExpr::Truth(Condition::Compare(c, a, b)))
            } else {
                drop(a);
                drop(b);
                None
            }
        }
        right => {
            drop(a);
            drop(right);
            None
        }
    }
}

/// A comparison of two sides that `==` can compare. The fault is noted before, by reference: an arm that owns the sides
/// and returns neither has to take both apart, which makes the proof long.
fn equated(c: Comparison, left: Side, right: Side, firsts: &mut Firsts) -> Option<ResolvedExpr>
    ensures value { option_map resolved_expr_of result ≡ equated c (seen left) (seen right) }
    ensures faults { firsts.new ≡ found_in firsts.old (unlike left.start right.start (seen left) (seen right)) }
{
    report_unlike(&left, &right, firsts);
    let left = left.value;
    match left {
        Some(ResolvedExpr::Value(a, s)) => equated_with(c, a, s, right),
        left => {
            drop(left);
            drop(right);
            None
        }
    }
}

/// A comparison.
pub fn compared(
    c: tree::Comparison,
    left: Side,
    right: Side,
    firsts: &mut Firsts,
) -> Option<ResolvedExpr>
    ensures value { option_map resolved_expr_of result ≡ compared c (seen left) (seen right) }
    ensures faults { firsts.new ≡ found_in firsts.old (side_faults c left.start right.start (seen left) (seen right)) }
{
    match c {
        tree::Comparison::Equal => equated(Comparison::Equal, left, right, firsts),
        tree::Comparison::NotEqual => equated(Comparison::NotEqual, left, right, firsts),
        tree::Comparison::Less => ordered(Comparison::Less, left, right),
        tree::Comparison::LessOrEqual => ordered(Comparison::LessOrEqual, left, right),
        tree::Comparison::Greater => ordered(Comparison::Greater, left, right),
        tree::Comparison::GreaterOrEqual => ordered(Comparison::GreaterOrEqual, left, right),
    }
}
