//! The values of expressions and the truth of conditions.

ghost use Rattle.std.specs.Prelude.{◌≡◌};
ghost use Rattle.core_lang.specs.Meaning.{value_of, truth_of};

use core_lang::access::{cell_of_element, follow, member, owned_by, value_at};
use core_lang::operators::{compare, negate, operate};
use core_lang::shape::Shape;
use core_lang::tree::{Condition, Expr};
use core_lang::value::{Failure, Value};

// The value of a common operand, inlined so that it needs no frame of its own.
#[inline(always)]
#[cycle(evaluate)]
fn operand(e: &Expr, shape: &Shape, locals: &[Value], heap: &[Value]) -> Result<Value, Failure>
    ensures { result ≡ value_of e.now shape.now locals.now heap.now }
{
    match e {
        Expr::Number(n) => Ok(Value::Int(*n)),
        Expr::Place(path) => follow(path, shape, locals, heap),
        _ => evaluate(e, shape, locals, heap),
    }
}

/// The value of an expression.
#[cycle(evaluate)]
#[tactic(auto, using(crate::proofs::Steps::chains))]
pub fn evaluate(e: &Expr, shape: &Shape, locals: &[Value], heap: &[Value]) -> Result<Value, Failure>
    ensures { result ≡ value_of e.now shape.now locals.now heap.now }
{
    match e {
        Expr::Number(n) => Ok(Value::Int(*n)),
        Expr::Null => Ok(Value::Ref(None)),
        Expr::Place(path) => follow(path, shape, locals, heap),
        Expr::Global { cell, .. } => value_at(heap, *cell as usize),
        Expr::Element { array, index, .. } => {
            let index = operand(index, shape, locals, heap)?;
            let cell = cell_of_element(shape, *array, index)?;
            value_at(heap, cell)
        }
        Expr::Member { pool, index } => {
            let index = operand(index, shape, locals, heap)?;
            member(shape, *pool, index)
        }
        Expr::Negate(e) => negate(evaluate(e, shape, locals, heap)?),
        Expr::Owned {
            value,
            number,
            owner,
            ..
        } => {
            let value = evaluate(value, shape, locals, heap)?;
            let owner = value_at(locals, *owner as usize)?;
            owned_by(shape, value, *number, owner)
        }
        Expr::Chain { first, rest } => {
            let mut value = operand(first, shape, locals, heap)?;
            for operation in rest {
                let right = operand(&operation.operand, shape, locals, heap)?;
                value = operate(operation.operator, value, right)?;
            }
            Ok(value)
        }
    }
}

/// Whether a condition is true.
pub fn is_true(
    c: &Condition,
    shape: &Shape,
    locals: &[Value],
    heap: &[Value],
) -> Result<bool, Failure>
    ensures { result ≡ truth_of c.now shape.now locals.now heap.now }
{
    match c {
        Condition::Compare(comparison, a, b) => {
            let left = operand(a, shape, locals, heap)?;
            let right = operand(b, shape, locals, heap)?;
            compare(*comparison, left, right)
        }
        Condition::Not(c) => Ok(!is_true(c, shape, locals, heap)?),
        Condition::And(before, last) => {
            for c in before {
                if !is_true(c, shape, locals, heap)? {
                    return Ok(false);
                }
            }
            is_true(last, shape, locals, heap)
        }
        Condition::Or(before, last) => {
            for c in before {
                if is_true(c, shape, locals, heap)? {
                    return Ok(true);
                }
            }
            is_true(last, shape, locals, heap)
        }
    }
}
