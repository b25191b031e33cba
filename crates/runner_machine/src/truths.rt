//! Truth values on the stack.

ghost use Rattle.std.specs.Prelude.{◌≡◌};
ghost use Rattle.code.specs.Machine as machine;
ghost use Rattle.runner_machine.specs.Working.Machines as machines;

use core_lang::value::{Failure, Value};

// Whether the truth value `value` is true.
#[inline(always)]
pub(crate) fn truth_in(value: Value) -> Result<bool, Failure>
    ensures { result ≡ machine.is_true value }
{
    match value {
        Value::Int(0) => Ok(false),
        Value::Int(number) if number > 0 => Ok(true),
        _ => Err(Failure::Wrong),
    }
}

// The truth value of `holds`.
#[inline(always)]
pub(crate) fn truth_value(holds: bool) -> Value
    ensures { result ≡ machine.truth holds }
{
    if holds { Value::Int(1) } else { Value::Int(0) }
}

// The negated truth value.
#[inline(always)]
pub(crate) fn negate_truth(value: Value) -> Result<Value, Failure>
    ensures { result ≡ machine.negation value }
{
    let holds = truth_in(value)?;
    Ok(truth_value(!holds))
}

// Whether `holds` equals `wanted`.
#[inline(always)]
pub(crate) fn agrees(wanted: bool, holds: bool) -> bool
    ensures { result ≡ machines.agrees wanted holds }
{
    if wanted { holds } else { !holds }
}
