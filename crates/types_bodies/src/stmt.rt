//! Statements.

ghost use Rattle.std.specs.Prelude.{◌≡◌, OnOk, IfOk, Some, None, map, option_map};
ghost use Rattle.syntax.specs.Trees.{assign};
ghost use Rattle.syntax.specs.Theory.Rows.{while_of};
ghost use Rattle.syntax.specs.Views.{ident, expr_of, place_of, stmt_of, if_of, stmts_of, local_of, owner_of, called_local_of, else_of};
ghost use Rattle.core_lang.specs.declared.tree.LocalKind.TheVariants.{Let};
ghost use Rattle.resolution.specs.CoreViews.{core_expr, core_stmt, core_action};
ghost use Rattle.resolution.specs.Scopes.{bound, type_of};
ghost use Rattle.resolution.specs.Working.TypedStatements.{does, acts, first_value, local_bound, owned_bound, called_bound, acts_if, binds, assigns, prints, returns, repeats, chooses, chooses_between, block_of, typed_stmt, typed_body};
ghost use Rattle.resolution.specs.Statements.{after, after_else, after_all};
ghost use Rattle.resolution.specs.Working.Findings.{found_in};
ghost use Rattle.resolution.specs.Working.FaultLists.{binding_faults, called_faults, stmt_faults, else_faults, stmts_faults};
ghost use Rattle.types_bodies.specs.Working.Checkers.{scope};
ghost use Rattle.types_bodies.specs.Working.Calls.{acts_where};
ghost use Rattle.types_bodies.specs.Working.Targets.{next_bound, owned_faults, assignee_of, part_of, body_of, test_seen, block_seen, choice_with, behind_local, behind_called, behind_block, row_of, pushed_to, body_pushed};

use crate::call::{check_call, takes_result};
use crate::checked::Checked;
use crate::checker::Checker;
use crate::owner::{Opening, owned_by};
use crate::target::{Assignee, Target, check_target, first_name, wanted_by};
use crate::wanted::want;
use core_lang::tree::{Action, Condition, Expr, LocalKind, Return, Stmt};
use core_lang::value::ValueType;
use resolution::finding::Firsts;
use std::alloc::AllocError;
use syntax::tree;
use syntax::tree::Place;

/// The resolved form of a statement.
#[derive(Drop)]
pub enum Part {
    /// An action.
    Does(Stmt),
    /// A `return` with its value.
    Gives(Return),
}

/// Statements, and the `return` at their end, if there is one.
#[derive(Drop)]
pub struct BlockChecker {
    /// The statements, in their order.
    pub stmts: Vec<Stmt>,
    /// The `return`.
    pub result: Option<Return>,
}

/// An `if` up to its `else`.
struct Choice {
    start: usize,
    condition: Option<Condition>,
    block: Option<Vec<Stmt>>,
}

/// A statement with this action.
fn act(start: usize, action: Action) -> Option<Part>
    ensures { option_map part_of result ≡ acts start (core_action action) }
{
    Some(Part::Does(Stmt { start, action }))
}

/// A statement with this action, if it has no fault.
fn act_if(start: usize, action: Option<Action>) -> Option<Part>
    ensures { option_map part_of result ≡ acts_if start (option_map core_action action) }
{
    match action {
        Some(action) => act(start, action),
        None => None,
    }
}

/// A statement with this action, if it has no fault and `takes` holds.
fn act_where(takes: bool, start: usize, action: Option<Action>) -> Option<Part>
    ensures { option_map part_of result ≡ acts_where takes start (option_map core_action action) }
{
    if takes {
        act_if(start, action)
    } else {
        drop(action);
        None
    }
}

/// The binding of a local, unless its type is faulty.
fn bind(start: usize, local: usize, t: Option<ValueType>, value: Option<Expr>) -> Option<Part>
    ensures { option_map part_of result ≡ binds start local t (option_map core_expr value) }
{
    match (t, value) {
        (Some(_), Some(value)) => act(start, Action::Bind { local, value }),
        (_, value) => {
            drop(value);
            None
        }
    }
}

/// An assignment.
fn assign(start: usize, assignee: Option<Assignee>, value: Option<Expr>) -> Option<Part>
    ensures { option_map part_of result ≡ assigns start (option_map assignee_of assignee) (option_map core_expr value) }
{
    let Some((assignee, value)) = assignee.zip(value) else {
        return None;
    };
    match assignee.target {
        Target::Local(local) => act(start, Action::SetLocal { local, value }),
        Target::Global(cell) => act(start, Action::SetGlobal { cell, value }),
        Target::Element(array, index) => act(
            start,
            Action::SetElement {
                array,
                index,
                value,
            },
        ),
        Target::Field(base, structure, field) => act(
            start,
            Action::SetField {
                base,
                structure,
                field,
                value,
            },
        ),
    }
}

/// A `print`. `None` if its value has a fault.
fn print(start: usize, value: Option<Expr>) -> Option<Part>
    ensures { option_map part_of result ≡ prints start (option_map core_expr value) }
{
    match value {
        Some(value) => act(start, Action::Print(value)),
        None => None,
    }
}

/// A `return`. `None` if its value has a fault.
fn give(start: usize, value: Option<Expr>) -> Option<Part>
    ensures { option_map part_of result ≡ returns start (option_map core_expr value) }
{
    match value {
        Some(value) => Some(Part::Gives(Return { start, value })),
        None => None,
    }
}

/// A loop.
fn repeat(start: usize, condition: Option<Condition>, body: Option<Vec<Stmt>>) -> Option<Part>
    ensures { option_map part_of result ≡ repeats start (test_seen condition) (block_seen body) }
{
    let Some((condition, body)) = condition.zip(body) else {
        return None;
    };
    act(start, Action::While { condition, body })
}

/// A choice without an `else`.
fn choose(start: usize, condition: Option<Condition>, block: Option<Vec<Stmt>>) -> Option<Part>
    ensures { option_map part_of result ≡ chooses start (test_seen condition) (block_seen block) }
{
    let Some((condition, block)) = condition.zip(block) else {
        return None;
    };
    act(start, Action::If { condition, block })
}

/// A choice with an `else`.
fn choose_between(
    start: usize,
    condition: Option<Condition>,
    block: Option<Vec<Stmt>>,
    otherwise: Option<Vec<Stmt>>,
) -> Option<Part>
    ensures { option_map part_of result
        ≡ chooses_between start (test_seen condition) (block_seen block) (block_seen otherwise) }
{
    let Some((condition, (block, otherwise))) = condition.zip(block.zip(otherwise)) else {
        return None;
    };
    let choice = Action::IfElse {
        condition,
        block,
        otherwise,
    };
    act(start, choice)
}

/// The statements of a block. A `return` is a fault there.
fn block_of(body: Option<BlockChecker>) -> Option<Vec<Stmt>>
    ensures { block_seen result ≡ block_of (option_map body_of body) }
{
    match body {
        Some(
            BlockChecker {
                stmts,
                result: None,
            },
        ) => Some(stmts),
        body => {
            drop(body);
            None
        }
    }
}

/// A body without a `return`, of these statements and one more.
fn one_longer(stmts: Vec<Stmt>, stmt: Stmt) -> Checked<BlockChecker>
    ensures { IfOk result
        (λ r. option_map row_of r ≡ pushed_to (map core_stmt stmts.items) None (does (core_stmt stmt))) }
{
    let mut stmts = stmts;
    if let Err(e) = stmts.push(stmt) {
        drop(stmts);
        return Err(e.into());
    }
    Ok(Some(BlockChecker {
        stmts,
        result: None,
    }))
}

/// A body with one more part, if no `return` comes before it. (What is not used is handed to `drop`, here and below: a
/// value that goes out of scope is taken apart inline, which makes the proof long.)
fn followed_by(body: BlockChecker, part: Part) -> Checked<BlockChecker>
    ensures { IfOk result (λ r. option_map row_of r ≡ body_pushed (Some (row_of body)) (Some (part_of part))) }
{
    if body.result.is_some() {
        drop(body);
        drop(part);
        return Ok(None);
    }
    let BlockChecker {
        stmts,
        result: none,
    } = body;
    drop(none);
    match part {
        Part::Does(stmt) => one_longer(stmts, stmt),
        Part::Gives(result) => Ok(Some(BlockChecker {
            stmts,
            result: Some(result),
        })),
    }
}

/// A body with one more part, if neither is missing and no `return` comes before it.
fn with_part(body: Option<BlockChecker>, part: Option<Part>) -> Checked<BlockChecker>
    ensures { IfOk result (λ r. option_map row_of r ≡ body_pushed (option_map row_of body) (option_map part_of part)) }
{
    let Some((body, part)) = body.zip(part) else {
        return Ok(None);
    };
    followed_by(body, part)
}

/// The type of a local, if it has no fault, and its first value, if that has none. Notes the faults of the local's name
/// too.
fn first_value(
    checker: &Checker,
    local: &tree::Local,
    firsts: &mut Firsts,
) -> Result<Opening, AllocError>
    ensures value_type { IfOk result (λ r. r.value_type ≡ type_of (scope checker.now) (local_of local.now).value_type) }
    ensures value { IfOk result
        (λ r. option_map core_expr r.value ≡ first_value (scope checker.now) (local_of local.now)) }
    ensures faults { OnOk result
        (firsts.new ≡ found_in firsts.old (binding_faults (scope checker.now) (local_of local.now))) }
{
    checker.report_name(&local.name, firsts);
    let value_type = checker.local_type(&local.value_type, firsts);
    let value = checker.value(want(value_type), &local.value, firsts)?;
    Ok(Opening { value_type, value })
}

/// Binds the next local to a value, and returns the statement for that. The local is in scope from here on, even if the
/// value has a fault.
fn bind_next(
    checker: &mut Checker,
    kind: LocalKind,
    local: &tree::Local,
    opening: Opening,
) -> Checked<Part>
    ensures value { IfOk result
        (λ r. option_map part_of r ≡ next_bound (scope checker.old) (local_of local.now) opening) }
    ensures scope { OnOk result
        (scope checker.new ≡ bound (scope checker.old) kind (ident local.now.name) opening.value_type) }
{
    let Opening { value_type, value } = opening;
    let number = checker.next();
    let Ok(()) = checker.bind(&local.name, kind, value_type) else {
        drop(value);
        return Err(AllocError);
    };
    Ok(bind(local.start.start as usize, number, value_type, value))
}

/// Checks a `let` or `var`. Returns its resolved form, if it has no fault.
fn check_local(
    checker: &mut Checker,
    kind: LocalKind,
    local: &tree::Local,
    firsts: &mut Firsts,
) -> Checked<Part>
    ensures value { IfOk result (λ r. option_map part_of r ≡ local_bound (scope checker.old) (local_of local.now)) }
    ensures faults { OnOk result
        (firsts.new ≡ found_in firsts.old (binding_faults (scope checker.old) (local_of local.now))) }
    ensures scope { OnOk result (scope checker.new ≡ behind_local (scope checker.old) kind (local_of local.now)) }
{
    let opening = first_value(checker, local, firsts)?;
    bind_next(checker, kind, local, opening)
}

/// Checks a `let` whose value is tested by a final reference. Returns its resolved form, if it has no fault.
#[tactic(auto, using(resolution::specs::Theory::Leasts::found_append))]
fn check_owned(
    checker: &mut Checker,
    local: &tree::Local,
    owner: &tree::OwnerClause,
    firsts: &mut Firsts,
) -> Checked<Part>
    ensures value { IfOk result
        (λ r. option_map part_of r ≡ owned_bound (scope checker.old) (local_of local.now) (owner_of owner.now)) }
    ensures faults { OnOk result (firsts.new ≡ found_in firsts.old
        (owned_faults (scope checker.old) (local_of local.now) (owner_of owner.now))) }
    ensures scope { OnOk result (scope checker.new ≡ behind_local (scope checker.old) Let (local_of local.now)) }
{
    let opening = first_value(checker, local, firsts)?;
    let opening = owned_by(checker, opening, owner, firsts)?;
    bind_next(checker, LocalKind::Let, local, opening)
}

/// Checks a `let` of the result of a helper. Returns its resolved form, if it has no fault.
#[tactic(auto, using(resolution::specs::Theory::Leasts::found_append))]
fn check_called(
    checker: &mut Checker,
    local: &tree::CalledLocal,
    firsts: &mut Firsts,
) -> Checked<Part>
    ensures value { IfOk result
        (λ r. option_map part_of r ≡ called_bound (scope checker.old) (called_local_of local.now)) }
    ensures faults { OnOk result
        (firsts.new ≡ found_in firsts.old (called_faults (scope checker.old) (called_local_of local.now))) }
    ensures scope { OnOk result (scope checker.new ≡ behind_called (scope checker.old) (called_local_of local.now)) }
{
    checker.report_name(&local.name, firsts);
    let value_type = checker.local_type(&local.value_type, firsts);
    let takes = takes_result(checker, value_type, &local.call, firsts);
    let number = checker.next();
    let action = check_call(checker, &local.call, Some(number), firsts)?;
    let Ok(()) = checker.bind(&local.name, LocalKind::Let, value_type) else {
        drop(action);
        return Err(AllocError);
    };
    Ok(act_where(takes, local.start.start as usize, action))
}

/// Checks an assignment. Returns its resolved form, if its target and its value have types that fit.
fn check_assignment(
    checker: &Checker,
    p: &Place,
    e: &tree::Expr,
    firsts: &mut Firsts,
) -> Checked<Part>
    ensures value { IfOk result
        (λ r. option_map part_of r ≡ typed_stmt (scope checker.now) (assign (place_of p.now) (expr_of e.now))) }
    ensures faults { OnOk result
        (firsts.new ≡ found_in firsts.old (stmt_faults (scope checker.now) (assign (place_of p.now) (expr_of e.now)))) }
{
    let assignee = check_target(checker, p, firsts)?;
    let Ok(value) = checker.value(wanted_by(&assignee), e, firsts) else {
        drop(assignee);
        return Err(AllocError);
    };
    Ok(assign(first_name(p).start as usize, assignee, value))
}

/// Checks a statement. Returns its resolved form, if everything in it has a type.
#[cycle(stmts)]
fn check_stmt(checker: &mut Checker, s: &tree::Stmt, firsts: &mut Firsts) -> Checked<Part>
    ensures value { IfOk result (λ r. option_map part_of r ≡ typed_stmt (scope checker.old) (stmt_of s.now)) }
    ensures faults { OnOk result (firsts.new ≡ found_in firsts.old (stmt_faults (scope checker.old) (stmt_of s.now))) }
    ensures scope { OnOk result (scope checker.new ≡ after (scope checker.old) (stmt_of s.now)) }
{
    match s {
        tree::Stmt::Let(local) => check_local(checker, LocalKind::Let, local, firsts),
        tree::Stmt::LetOwned(owned) => { check_owned(checker, &owned.local, &owned.owner, firsts) }
        tree::Stmt::LetCall(local) => check_called(checker, local, firsts),
        tree::Stmt::Var(local) => check_local(checker, LocalKind::Var, local, firsts),
        tree::Stmt::Assign(place, e) => check_assignment(checker, place, e, firsts),
        tree::Stmt::If(choice) => check_choice(checker, choice, firsts),
        tree::Stmt::While(repetition) => check_repetition(checker, repetition, firsts),
        tree::Stmt::Print(start, e) => {
            let value = checker.number(e, firsts)?;
            Ok(print(start.start as usize, value))
        }
        tree::Stmt::Return(start, e) => {
            let value = checker.value(want(checker.result()), e, firsts)?;
            Ok(give(start.start as usize, value))
        }
        tree::Stmt::Call(start, call) => {
            let action = check_call(checker, call, None, firsts)?;
            Ok(act_if(start.start as usize, action))
        }
    }
}

/// Checks a loop. Returns its resolved form, if its condition and everything in its block have types.
#[cycle(stmts)]
fn check_repetition(
    checker: &mut Checker,
    repetition: &tree::While,
    firsts: &mut Firsts,
) -> Checked<Part>
    ensures value { IfOk result (λ r. option_map part_of r ≡ typed_stmt (scope checker.old) (while_of repetition.now)) }
    ensures faults { OnOk result
        (firsts.new ≡ found_in firsts.old (stmt_faults (scope checker.old) (while_of repetition.now))) }
    ensures scope { OnOk result (scope checker.new ≡ after (scope checker.old) (while_of repetition.now)) }
{
    let condition = checker.test(&repetition.condition, firsts)?;
    let Ok(body) = check_block(checker, &repetition.block, firsts) else {
        drop(condition);
        return Err(AllocError);
    };
    Ok(repeat(repetition.start.start as usize, condition, body))
}

/// Checks an `if`. Returns its resolved form, if its condition and everything in its blocks have types.
#[cycle(stmts)]
fn check_choice(checker: &mut Checker, choice: &tree::If, firsts: &mut Firsts) -> Checked<Part>
    ensures value { IfOk result (λ r. option_map part_of r ≡ typed_stmt (scope checker.old) (if_of choice.now)) }
    ensures faults { OnOk result
        (firsts.new ≡ found_in firsts.old (stmt_faults (scope checker.old) (if_of choice.now))) }
    ensures scope { OnOk result (scope checker.new ≡ after (scope checker.old) (if_of choice.now)) }
{
    let condition = checker.test(&choice.condition, firsts)?;
    let Ok(block) = check_block(checker, &choice.block, firsts) else {
        drop(condition);
        return Err(AllocError);
    };
    let start = choice.start.start as usize;
    check_otherwise(
        checker,
        &choice.otherwise,
        Choice {
            start,
            condition,
            block,
        },
        firsts,
    )
}

/// Checks the `else` of an `if`, and returns the resolved form of the whole.
#[cycle(stmts)]
#[tactic(auto, using(resolution::specs::Theory::Leasts::found_append))]
fn check_otherwise(
    checker: &mut Checker,
    other: &Option<tree::Block>,
    choice: Choice,
    firsts: &mut Firsts,
) -> Checked<Part>
    ensures value { IfOk result
        (λ r. option_map part_of r ≡ choice_with (scope checker.old) choice (else_of other.now)) }
    ensures faults { OnOk result
        (firsts.new ≡ found_in firsts.old (else_faults (scope checker.old) (else_of other.now))) }
    ensures scope { OnOk result (scope checker.new ≡ after_else (scope checker.old) (else_of other.now)) }
{
    let Choice {
        start,
        condition,
        block,
    } = choice;
    let Some(other) = other else {
        return Ok(choose(start, condition, block));
    };
    let Ok(otherwise) = check_block(checker, other, firsts) else {
        drop(condition);
        drop(block);
        return Err(AllocError);
    };
    Ok(choose_between(start, condition, block, otherwise))
}

/// Checks a block. Returns its resolved form, if everything in it has a type and it has no `return`. Its locals are out
/// of scope after it.
#[cycle(stmts)]
fn check_block(
    checker: &mut Checker,
    block: &tree::Block,
    firsts: &mut Firsts,
) -> Checked<Vec<Stmt>>
    ensures value { IfOk result
        (λ r. block_seen r ≡ block_of (typed_body (scope checker.old) (stmts_of block.now.stmts.items))) }
    ensures faults { OnOk result
        (firsts.new ≡ found_in firsts.old (stmts_faults (scope checker.old) (stmts_of block.now.stmts.items))) }
    ensures scope { OnOk result
        (scope checker.new ≡ behind_block (scope checker.old) (stmts_of block.now.stmts.items)) }
{
    let ahead = checker.next();
    let body = check_body(checker, &block.stmts, firsts)?;
    checker.hide_from(ahead);
    Ok(block_of(body))
}

/// Checks statements, one after another. Returns their resolved form, if everything in them has a type.
#[cycle(stmts)]
pub fn check_body(
    checker: &mut Checker,
    stmts: &[tree::Stmt],
    firsts: &mut Firsts,
) -> Checked<BlockChecker>
    ensures value { IfOk result (λ r. option_map body_of r ≡ typed_body (scope checker.old) (stmts_of stmts.now)) }
    ensures faults { OnOk result
        (firsts.new ≡ found_in firsts.old (stmts_faults (scope checker.old) (stmts_of stmts.now))) }
    ensures scope { OnOk result (scope checker.new ≡ after_all (scope checker.old) (stmts_of stmts.now)) }
{
    let mut body = Some(BlockChecker {
        stmts: Vec::with_capacity(checker.alloc(), stmts.len())?,
        result: None,
    });
    for s in stmts {
        let Ok(part) = check_stmt(checker, s, firsts) else {
            drop(body);
            return Err(AllocError);
        };
        body = with_part(body, part)?;
    }
    Ok(body)
}
