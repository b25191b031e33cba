//! The objects to which final references lead.

ghost use Rattle.std.specs.Prelude.{◌≡◌};
ghost use Rattle.locks.specs.Locks as locks;
ghost use Rattle.locks.specs.LockPaths as paths;

use core_lang::shape::Shape;
use core_lang::value::Value;

// The object that a final reference of an object refers to.
fn final_of(shape: &Shape, object: u32, number: u32) -> Option<u32>
    ensures { result ≡ locks.final_of shape.now object number }
{
    let first = shape.objects.get(object as usize)?.finals;
    shape.finals.get(first as usize + number as usize).copied()
}

/// The object to which the final references `finals` lead from `object`, if all of them exist.
pub fn led_to(shape: &Shape, object: u32, finals: &[u32]) -> Option<u32>
    ensures { result ≡ locks.led_to shape.now object finals.now }
{
    let mut reached = object;
    for number in finals {
        reached = final_of(shape, reached, *number)?;
    }
    Some(reached)
}

// The object that a value refers to.
fn named(value: Value) -> Option<u32>
    ensures { result ≡ paths.named value }
{
    match value {
        Value::Int(_) => None,
        Value::Ref(object) => object,
    }
}

// The object to which final references lead from a local.
pub(crate) fn object_at(
    shape: &Shape,
    locals: &[Value],
    local: usize,
    finals: &[u32],
) -> Option<u32>
    ensures { result ≡ paths.object_at shape.now locals.now local finals.now }
{
    let value = locals.get(local)?;
    let object = named(*value)?;
    led_to(shape, object, finals)
}
