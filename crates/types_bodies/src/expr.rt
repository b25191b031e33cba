//! Expressions.

ghost use Rattle.std.specs.Prelude.{◌≡◌, OnOk, IfOk, option_map};
ghost use Rattle.syntax.specs.Views.{expr_of, joined_of, element_of, path_of, links_of};
ghost use Rattle.syntax.specs.declared.tree.Level.TheVariants.{Sum, Conjunction};
ghost use Rattle.core_lang.specs.declared.value.ValueType.TheVariants.{Integer};
ghost use Rattle.resolution.specs.declared.wanted.Want.TheVariants as wanted;
ghost use Rattle.resolution.specs.CoreViews.{core_expr, core_condition};
ghost use Rattle.resolution.specs.Working.TypedExpressions.{typed, typed_place, typed_links, compared, fitting, as_value, number_resolved, test_resolved};
ghost use Rattle.resolution.specs.Faults.{start_of};
ghost use Rattle.resolution.specs.Working.Findings.{found_in};
ghost use Rattle.resolution.specs.Working.FaultLists.{expr_faults, place_faults, link_faults, wanted_faults};
ghost use Rattle.types_bodies.specs.Working.Checkers.{scope};
ghost use Rattle.types_bodies.specs.Working.Operands.{one_link, chain_from, tests_from, both_tests, second_faults, right_faults};
ghost use Rattle.types_bodies.specs.Working.ResolvedExprs.{resolved_expr_of, operations_of, seen, tests_of};

use crate::checked::Checked;
use crate::checker::Checker;
use crate::place::{element_value, path_value};
use crate::resolved_expr::{
    ResolvedExpr, Side, Tests, chained, compared, literal, negated, not_so, number_in, one_test,
    operator, parenthesised, report_misfit, side_want, test_in, tested, value_in, with_operation,
    with_test,
};
use core_lang::tree::{Condition, Expr, Operation};
use core_lang::value::ValueType;
use resolution::finding::Firsts;
use resolution::wanted::{Sort, Want};
use std::alloc::AllocError;
use syntax::tree;
use syntax::tree::{Element, Joined, Level, Link, Operator, Path, Prefix};

/// The first byte of an expression.
fn start_of(e: &tree::Expr) -> usize
    ensures { result ≡ start_of (expr_of e.now) }
{
    match e {
        tree::Expr::Int(n) => n.span.start as usize,
        tree::Expr::Null(at) => at.start as usize,
        tree::Expr::Name(name) => name.start as usize,
        tree::Expr::Element(element) => element.name.start as usize,
        tree::Expr::Path(path) => path.first.start as usize,
        tree::Expr::Paren(at, _) => at.start as usize,
        tree::Expr::Prefix(_, at, _) => at.start as usize,
        tree::Expr::Joined(joined) => match &**joined {
            Joined::Pair(_, left, _) => start_of(left),
            Joined::Chain(_, first, _) => start_of(first),
            Joined::Compare(_, left, _) => start_of(left),
        },
    }
}

impl<'a> Checker<'a> {
    // An expression, resolved, if it has a type.
    #[cycle(exprs)]
    fn expr(&self, e: &tree::Expr, firsts: &mut Firsts) -> Checked<ResolvedExpr>
        ensures value { IfOk result (λ r. option_map resolved_expr_of r ≡ typed (scope self.now) (expr_of e.now)) }
        ensures faults { OnOk result (firsts.new ≡ found_in firsts.old (expr_faults (scope self.now) (expr_of e.now))) }
    {
        match e {
            tree::Expr::Int(n) => Ok(literal(*n, firsts)),
            tree::Expr::Null(_) => Ok(Some(ResolvedExpr::Value(Expr::Null, Sort::Null))),
            tree::Expr::Name(name) => {
                Ok(self.named(name.start as usize, self.meaning(name), firsts))
            }
            tree::Expr::Element(element) => self.element(element, firsts),
            tree::Expr::Path(path) => self.path(path, firsts),
            tree::Expr::Paren(_, e) => {
                let inner = self.expr(e, firsts)?;
                Ok(parenthesised(inner))
            }
            tree::Expr::Prefix(Prefix::Negate, _, e) => {
                let number = self.number(e, firsts)?;
                negated(self.alloc(), number)
            }
            tree::Expr::Prefix(Prefix::Not, _, e) => {
                let condition = self.test(e, firsts)?;
                not_so(self.alloc(), condition)
            }
            tree::Expr::Joined(joined) => self.joined(joined, firsts),
        }
    }

    // Operands with operators between them, resolved, if they have a type.
    #[cycle(exprs)]
    fn joined(&self, e: &Joined, firsts: &mut Firsts) -> Checked<ResolvedExpr>
        ensures value { IfOk result (λ r. option_map resolved_expr_of r ≡ typed (scope self.now) (joined_of e.now)) }
        ensures faults { OnOk result
            (firsts.new ≡ found_in firsts.old (expr_faults (scope self.now) (joined_of e.now))) }
    {
        match e {
            Joined::Pair(op, left, right) => match op.level() {
                Level::Term | Level::Sum => {
                    let first = self.number(left, firsts)?;
                    self.two_numbers(first, *op, right, firsts)
                }
                Level::Conjunction | Level::Disjunction => {
                    let first = self.test(left, firsts)?;
                    self.two_tests(first, *op, right, firsts)
                }
            },
            Joined::Chain(level, first, links) => match level {
                Level::Term | Level::Sum => {
                    let first = self.number(first, firsts)?;
                    self.more_numbers(first, links, firsts)
                }
                Level::Conjunction | Level::Disjunction => {
                    let first = self.test(first, firsts)?;
                    let tests = self.tests(first, links, firsts)?;
                    tested(self.alloc(), *level, tests)
                }
            },
            Joined::Compare(c, left, right) => {
                let left = self.side(side_want(*c), left, firsts)?;
                self.two_sides(*c, left, right, firsts)
            }
        }
    }

    // A number, an operator and a second number.
    #[cycle(exprs)]
    fn two_numbers(
        &self,
        first: Option<Expr>,
        op: Operator,
        right: &tree::Expr,
        firsts: &mut Firsts,
    ) -> Checked<ResolvedExpr>
        ensures value { IfOk result
            (λ r. option_map resolved_expr_of r ≡ chain_from (scope self.now) first (one_link op (expr_of right.now))) }
        ensures faults { OnOk result
            (firsts.new ≡ found_in firsts.old (second_faults (scope self.now) Sum op (expr_of right.now))) }
    {
        let Ok(rest) = self.operation(op, right, firsts) else {
            drop(first);
            return Err(AllocError);
        };
        chained(self.alloc(), first, rest)
    }

    // A condition, an operator and a second condition.
    #[cycle(exprs)]
    fn two_tests(
        &self,
        first: Option<Condition>,
        op: Operator,
        right: &tree::Expr,
        firsts: &mut Firsts,
    ) -> Checked<ResolvedExpr>
        ensures value { IfOk result
            (λ r. option_map resolved_expr_of r ≡ both_tests (scope self.now) first op (expr_of right.now)) }
        ensures faults { OnOk result
            (firsts.new ≡ found_in firsts.old (second_faults (scope self.now) Conjunction op (expr_of right.now))) }
    {
        let one = one_test(self.alloc(), first, 1)?;
        let Ok(operand) = self.test(right, firsts) else {
            drop(one);
            return Err(AllocError);
        };
        let tests = with_test(one, operand)?;
        tested(self.alloc(), op.level(), tests)
    }

    // A number and what follows it in a chain.
    #[cycle(exprs)]
    fn more_numbers(
        &self,
        first: Option<Expr>,
        links: &[Link],
        firsts: &mut Firsts,
    ) -> Checked<ResolvedExpr>
        ensures value { IfOk result
            (λ r. option_map resolved_expr_of r ≡ chain_from (scope self.now) first (links_of links.now)) }
        ensures faults { OnOk result
            (firsts.new ≡ found_in firsts.old (link_faults (scope self.now) Sum (links_of links.now))) }
    {
        let Ok(rest) = self.operations(links, firsts) else {
            drop(first);
            return Err(AllocError);
        };
        chained(self.alloc(), first, rest)
    }

    // The left side of a comparison, and its right side.
    #[cycle(exprs)]
    fn two_sides(
        &self,
        c: tree::Comparison,
        left: Side,
        right: &tree::Expr,
        firsts: &mut Firsts,
    ) -> Checked<ResolvedExpr>
        ensures value { IfOk result
            (λ r. option_map resolved_expr_of r ≡ compared c (seen left) (typed (scope self.now) (expr_of right.now))) }
        ensures faults { OnOk result
            (firsts.new ≡ found_in firsts.old (right_faults (scope self.now) c left (expr_of right.now))) }
    {
        let Ok(right) = self.side(side_want(c), right, firsts) else {
            drop(left);
            return Err(AllocError);
        };
        Ok(compared(c, left, right, firsts))
    }

    // An element as a value.
    #[cycle(exprs)]
    fn element(&self, element: &Element, firsts: &mut Firsts) -> Checked<ResolvedExpr>
        ensures value { IfOk result
            (λ r. option_map resolved_expr_of r ≡ typed_place (scope self.now) (element_of element.now)) }
        ensures faults { OnOk result
            (firsts.new ≡ found_in firsts.old (place_faults (scope self.now) (element_of element.now))) }
    {
        let start = element.name.start as usize;
        let indexed = self.indexed(start, self.meaning(&element.name), firsts);
        let index = self.number(&element.index, firsts)?;
        element_value(self.alloc(), start, indexed, index)
    }

    // A path as a value.
    fn path(&self, path: &Path, firsts: &mut Firsts) -> Checked<ResolvedExpr>
        ensures value { IfOk result
            (λ r. option_map resolved_expr_of r ≡ typed_place (scope self.now) (path_of path.now)) }
        ensures faults { OnOk result
            (firsts.new ≡ found_in firsts.old (place_faults (scope self.now) (path_of path.now))) }
    {
        let start = path.first.start as usize;
        let m = self.meaning(&path.first);
        let w = self.walk(start, m, &path.fields, firsts)?;
        Ok(path_value(start, m, w))
    }

    // The further operand of a chain of two numbers.
    #[cycle(exprs)]
    fn operation(
        &self,
        op: Operator,
        operand: &tree::Expr,
        firsts: &mut Firsts,
    ) -> Checked<Vec<Operation>>
        ensures value { IfOk result
            (λ r. operations_of r ≡ typed_links (scope self.now) (one_link op (expr_of operand.now))) }
        ensures faults { OnOk result
            (firsts.new ≡ found_in firsts.old (second_faults (scope self.now) Sum op (expr_of operand.now))) }
    {
        let operator = operator(op, start_of(operand), firsts);
        let number = self.number(operand, firsts)?;
        let Ok(none) = Vec::with_capacity(self.alloc(), 1) else {
            drop(number);
            return Err(AllocError);
        };
        with_operation(Some(none), operator, number)
    }

    // The further operands of a chain of numbers.
    #[cycle(exprs)]
    fn operations(&self, links: &[Link], firsts: &mut Firsts) -> Checked<Vec<Operation>>
        ensures value { IfOk result (λ r. operations_of r ≡ typed_links (scope self.now) (links_of links.now)) }
        ensures faults { OnOk result
            (firsts.new ≡ found_in firsts.old (link_faults (scope self.now) Sum (links_of links.now))) }
    {
        let mut operations = Some(Vec::with_capacity(self.alloc(), links.len())?);
        for link in links {
            let op = operator(link.op, start_of(&link.operand), firsts);
            let Ok(operand) = self.number(&link.operand, firsts) else {
                drop(operations);
                return Err(AllocError);
            };
            operations = with_operation(operations, op, operand)?;
        }
        Ok(operations)
    }

    // The further operands of a chain of conditions, after the first.
    #[cycle(exprs)]
    fn tests(&self, first: Option<Condition>, links: &[Link], firsts: &mut Firsts) -> Checked<Tests>
        ensures value { IfOk result
            (λ r. option_map tests_of r ≡ tests_from (scope self.now) first (links_of links.now)) }
        ensures faults { OnOk result
            (firsts.new ≡ found_in firsts.old (link_faults (scope self.now) Conjunction (links_of links.now))) }
    {
        let mut tests = one_test(self.alloc(), first, links.len())?;
        for link in links {
            let Ok(operand) = self.test(&link.operand, firsts) else {
                drop(tests);
                return Err(AllocError);
            };
            tests = with_test(tests, operand)?;
        }
        Ok(tests)
    }

    // An expression of which something is expected.
    #[cycle(exprs)]
    fn side(&self, w: Want, e: &tree::Expr, firsts: &mut Firsts) -> Result<Side, AllocError>
        ensures start { IfOk result (λ s. s.start ≡ start_of (expr_of e.now)) }
        ensures value { IfOk result
            (λ s. option_map resolved_expr_of s.value ≡ typed (scope self.now) (expr_of e.now)) }
        ensures faults { OnOk result
            (firsts.new ≡ found_in firsts.old (wanted_faults (scope self.now) w (expr_of e.now))) }
    {
        let value = self.expr(e, firsts)?;
        let start = start_of(e);
        report_misfit(w, start, &value, firsts);
        Ok(Side { start, value })
    }

    /// A value of which something is expected.
    pub fn value(&self, w: Want, e: &tree::Expr, firsts: &mut Firsts) -> Checked<Expr>
        ensures value { IfOk result
            (λ r. option_map core_expr r ≡ as_value (fitting w (typed (scope self.now) (expr_of e.now)))) }
        ensures faults { OnOk result
            (firsts.new ≡ found_in firsts.old (wanted_faults (scope self.now) w (expr_of e.now))) }
    {
        let side = self.side(w, e, firsts)?;
        Ok(value_in(w, side.value))
    }

    /// A number.
    #[cycle(exprs)]
    pub fn number(&self, e: &tree::Expr, firsts: &mut Firsts) -> Checked<Expr>
        ensures value { IfOk result
            (λ r. option_map core_expr r ≡ number_resolved (typed (scope self.now) (expr_of e.now))) }
        ensures faults { OnOk result
            (firsts.new ≡ found_in firsts.old (wanted_faults (scope self.now) (wanted.Value Integer) (expr_of e.now))) }
    {
        let side = self.side(Want::Value(ValueType::Integer), e, firsts)?;
        Ok(number_in(side.value))
    }

    /// A condition.
    #[cycle(exprs)]
    pub fn test(&self, e: &tree::Expr, firsts: &mut Firsts) -> Checked<Condition>
        ensures value { IfOk result
            (λ r. option_map core_condition r ≡ test_resolved (typed (scope self.now) (expr_of e.now))) }
        ensures faults { OnOk result
            (firsts.new ≡ found_in firsts.old (wanted_faults (scope self.now) wanted.Condition (expr_of e.now))) }
    {
        let side = self.side(Want::Condition, e, firsts)?;
        Ok(test_in(side.value))
    }
}
