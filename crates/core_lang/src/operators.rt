//! Operators and comparisons on values.

ghost use Rattle.std.specs.Prelude.{◌≡◌};
ghost use Rattle.core_lang.specs.Arithmetic.{on_values, negated, compared, arithmetic};
ghost use Rattle.core_lang.specs.Working.Fitted.{fitted_of};

use crate::tree::{Comparison, Operator};
use crate::value::{Failure, Trap, Value};

/// The result of an operator.
#[inline(always)]
pub fn operate(operator: Operator, left: Value, right: Value) -> Result<Value, Failure>
    ensures { result ≡ on_values operator left right }
{
    match (left, right) {
        (Value::Int(a), Value::Int(b)) => calculate(operator, a, b),
        _ => Err(Failure::Wrong),
    }
}

#[inline(always)]
#[tactic(auto, using(crate::proofs::Numbers::numbers))]
fn calculate(operator: Operator, a: i64, b: i64) -> Result<Value, Failure>
    ensures { result ≡ arithmetic operator a b }
{
    match operator {
        Operator::Add => fitted(a.checked_add(b)),
        Operator::Sub => fitted(a.checked_sub(b)),
        Operator::Mul => fitted(a.checked_mul(b)),
        Operator::Div if b == 0 => Err(Failure::Trap(Trap::ZeroDivisor)),
        Operator::Div => fitted(a.checked_div(b)),
        Operator::Rem if b == 0 => Err(Failure::Trap(Trap::ZeroDivisor)),
        Operator::Rem => fitted(a.checked_rem(b)),
    }
}

// The number, or the trap if it does not fit into 64 bits.
#[inline(always)]
fn fitted(n: Option<i64>) -> Result<Value, Failure>
    ensures { result ≡ fitted_of n }
{
    match n {
        Some(n) => Ok(Value::Int(n)),
        None => Err(Failure::Trap(Trap::Overflow)),
    }
}

/// The negated number.
#[inline(always)]
#[tactic(auto, using(crate::proofs::Numbers::numbers))]
pub fn negate(value: Value) -> Result<Value, Failure>
    ensures { result ≡ negated value }
{
    let Value::Int(n) = value else {
        return Err(Failure::Wrong);
    };
    fitted(n.checked_neg())
}

/// Whether a comparison is true.
#[inline(always)]
pub fn compare(comparison: Comparison, left: Value, right: Value) -> Result<bool, Failure>
    ensures { result ≡ compared comparison left right }
{
    match (left, right) {
        (Value::Int(a), Value::Int(b)) => Ok(compare_numbers(comparison, a, b)),
        (Value::Ref(a), Value::Ref(b)) => compare_references(comparison, a, b),
        _ => Err(Failure::Wrong),
    }
}

#[inline(always)]
fn compare_numbers(comparison: Comparison, a: i64, b: i64) -> bool
    ensures { Ok result ≡ compared comparison (Value.Int a) (Value.Int b) }
{
    match comparison {
        Comparison::Equal => a == b,
        Comparison::NotEqual => a != b,
        Comparison::Less => a < b,
        Comparison::LessOrEqual => a <= b,
        Comparison::Greater => a > b,
        Comparison::GreaterOrEqual => a >= b,
    }
}

#[inline(always)]
fn compare_references(
    comparison: Comparison,
    a: Option<u32>,
    b: Option<u32>,
) -> Result<bool, Failure>
    ensures { result ≡ compared comparison (Value.Ref a) (Value.Ref b) }
{
    match comparison {
        Comparison::Equal => Ok(a == b),
        Comparison::NotEqual => Ok(a != b),
        _ => Err(Failure::Wrong),
    }
}
