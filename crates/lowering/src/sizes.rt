//! An upper bound on the number of instructions of a section. Only the size of an allocation depends on it, so that no
//! clause mentions it: a list that grows one by one would be copied each time that its memory is doubled.

use core_lang::tree::{Action, Condition, Expr, Path, Return, Section, Stmt};

fn of_path(path: &Path) -> usize {
    path.fields.len().saturating_add(1)
}

fn of_expression(e: &Expr) -> usize {
    match e {
        Expr::Number(_) | Expr::Null | Expr::Global { .. } => 1,
        Expr::Place(path) => of_path(path),
        Expr::Element { index, .. } => of_expression(index).saturating_add(2),
        Expr::Member { index, .. } => of_expression(index).saturating_add(1),
        Expr::Negate(e) => of_expression(e).saturating_add(1),
        Expr::Owned { value, .. } => of_expression(value).saturating_add(1),
        Expr::Chain { first, rest } => {
            let mut size = of_expression(first);
            for operation in rest {
                let operand = of_expression(&operation.operand);
                size = size.saturating_add(operand).saturating_add(1);
            }
            size
        }
    }
}

#[cycle(condition)]
fn of_condition(c: &Condition) -> usize {
    match c {
        Condition::Compare(_, a, b) => of_expression(a)
            .saturating_add(of_expression(b))
            .saturating_add(1),
        Condition::Not(c) => of_condition(c).saturating_add(1),
        Condition::And(before, last) => of_conditions(before).saturating_add(of_condition(last)),
        Condition::Or(before, last) => of_conditions(before).saturating_add(of_condition(last)),
    }
}

// Conditions, and a jump after each.
#[cycle(condition)]
fn of_conditions(conditions: &[Condition]) -> usize {
    let mut size = 2usize;
    for c in conditions {
        size = size.saturating_add(of_condition(c)).saturating_add(1);
    }
    size
}

#[cycle(statement)]
fn of_statement(action: &Action) -> usize {
    match action {
        Action::Bind { value, .. } => of_expression(value),
        Action::SetLocal { value, .. } => of_expression(value),
        Action::SetGlobal { value, .. } => of_expression(value),
        Action::SetElement { index, value, .. } => of_expression(index)
            .saturating_add(of_expression(value))
            .saturating_add(1),
        Action::SetField { base, value, .. } => of_path(base)
            .saturating_add(of_expression(value))
            .saturating_add(1),
        Action::Call { .. } => 1,
        Action::Print(value) => of_expression(value),
        Action::If { condition, block } => of_condition(condition).saturating_add(of_block(block)),
        Action::IfElse {
            condition,
            block,
            otherwise,
        } => of_condition(condition)
            .saturating_add(of_block(block))
            .saturating_add(of_block(otherwise))
            .saturating_add(1),
        Action::While { condition, body } => {
            of_condition(condition)
                .saturating_add(of_block(body))
                .saturating_add(1)
        }
    }
}

// Statements, each with an acquire before it and an instruction after its value.
#[cycle(statement)]
fn of_block(statements: &[Stmt]) -> usize {
    let mut size = 0usize;
    for statement in statements {
        size = size
            .saturating_add(of_statement(&statement.action))
            .saturating_add(2);
    }
    size
}

fn of_return(returned: &Option<Return>) -> usize {
    match returned {
        Some(returned) => of_expression(&returned.value),
        None => 0,
    }
}

/// The most instructions of a section.
pub fn of_section(section: &Section) -> usize {
    of_block(&section.body)
        .saturating_add(of_return(&section.result))
        .saturating_add(2)
}
