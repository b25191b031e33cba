//! Equality of values.

ghost use Rattle.std.specs.Prelude.{◌≡◌};
ghost use Rattle.report.specs.Values.{is_value};

use core_lang::value::Value;

/// Whether two values are equal.
pub fn is_value(a: Value, b: Value) -> bool
    ensures { result ≡ is_value a b }
{
    match (a, b) {
        (Value::Int(a), Value::Int(b)) => a == b,
        (Value::Ref(a), Value::Ref(b)) => a == b,
        _ => false,
    }
}
