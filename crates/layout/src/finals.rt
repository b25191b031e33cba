//! The objects that final references name.

ghost use Rattle.std.specs.Prelude.{◌≡◌, Some};
ghost use Rattle.core_lang.specs.Cells.{final_value};
ghost use Rattle.core_lang.specs.declared.value.Value.TheVariants.{Ref};

use core_lang::access::value_of_final;
use core_lang::shape::Shape;
use core_lang::value::{Failure, Value};

/// The value of the final reference `number` of `object`. It never changes, and reading it needs no lock.
///
/// # Errors
///
/// The object doesn't exist, or has no final reference of this number.
pub fn final_of(shape: &Shape, object: u32, number: u32) -> Result<Value, Failure>
    ensures { result ≡ final_value shape.now (Ref (Some object)) number }
{
    value_of_final(shape, Value::Ref(Some(object)), number)
}
