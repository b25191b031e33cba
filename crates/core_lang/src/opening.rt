//! The initial values of locals.

ghost use Rattle.std.specs.Prelude.{◌≡◌, ◌++◌, map, drop, length, IfOk};
ghost use Rattle.core_lang.specs.Whole.{default_of, default_local};

use crate::tree::Local;
use crate::value::{Value, ValueType};
use std::alloc::AllocError;

/// The initial locals of a section or a helper: the arguments, and 0 or null in the others.
///
/// # Errors
///
/// Out of memory.
pub fn with_defaults(arguments: Vec<Value>, locals: &[Local]) -> Result<Vec<Value>, AllocError>
    ensures { IfOk result
        (λ v. v.items ≡ arguments.items ++ map default_local (drop (length arguments.items) locals.now)) }
{
    let mut values = arguments;
    for number in values.len()..locals.len() {
        values.push(default_value(locals[number].value_type))?;
    }
    Ok(values)
}

/// The initial value of a local without an argument: 0 or null.
#[inline(always)]
pub fn default_value(value_type: ValueType) -> Value
    ensures { result ≡ default_of value_type }
{
    match value_type {
        ValueType::Integer => Value::Int(0),
        ValueType::Reference(_) => Value::Ref(None),
    }
}
