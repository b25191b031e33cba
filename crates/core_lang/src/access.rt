//! The cell that an access reaches, and the value that it holds.

ghost use Rattle.std.specs.Prelude.{◌≡◌, ◌+◌, Ok};
ghost use Rattle.core_lang.specs.Cells.{at_index, element_cell, reference_to, member_of, not_null, read};
ghost use Rattle.core_lang.specs.Cells.{object_of, field_cell, final_value, owned, step_value};
ghost use Rattle.core_lang.specs.Meaning.{place_of};

use crate::operators::compare;
use crate::shape::{Object, Shape};
use crate::tree::{Comparison, FieldStep, Path};
use crate::value::{Failure, Trap, Value};

/// The value of the cell or local at `place`.
#[inline(always)]
pub fn value_at(values: &[Value], place: usize) -> Result<Value, Failure>
    ensures { result ≡ read values.now place }
{
    match values.get(place) {
        Some(value) => Ok(*value),
        None => Err(Failure::Wrong),
    }
}

// The number at `index`, of `count` numbers from `first` on.
#[inline(always)]
fn indexed(first: u32, count: u32, index: Value) -> Result<usize, Failure>
    ensures { result ≡ at_index first count index }
{
    let Value::Int(index) = index else {
        return Err(Failure::Wrong);
    };
    if 0 <= index && index < i64::from(count) {
        Ok(first as usize + index as usize)
    } else {
        Err(Failure::Trap(Trap::OutOfRange))
    }
}

/// The cell of an array's element.
#[inline(always)]
pub fn cell_of_element(shape: &Shape, array: usize, index: Value) -> Result<usize, Failure>
    ensures { result ≡ element_cell shape.now array index }
{
    match shape.arrays.get(array) {
        Some(array) => indexed(array.first, array.length, index),
        None => Err(Failure::Wrong),
    }
}

// The reference to an object.
#[inline(always)]
fn reference(object: usize) -> Result<Value, Failure>
    ensures { result ≡ reference_to object }
{
    match u32::try_from(object) {
        Ok(object) => Ok(Value::Ref(Some(object))),
        Err(_) => Err(Failure::Wrong),
    }
}

/// The reference to a pool's member.
#[inline(always)]
pub fn member(shape: &Shape, pool: usize, index: Value) -> Result<Value, Failure>
    ensures { result ≡ member_of shape.now pool index }
{
    let Some(pool) = shape.pools.get(pool) else {
        return Err(Failure::Wrong);
    };
    let object = indexed(pool.first, pool.length, index)?;
    reference(object)
}

// The object that a reference refers to.
#[inline(always)]
fn object(shape: &Shape, base: Value) -> Result<Object, Failure>
    ensures { result ≡ object_of shape.now base }
{
    match base {
        Value::Int(_) => Err(Failure::Wrong),
        Value::Ref(None) => Err(Failure::Trap(Trap::NullBase)),
        Value::Ref(Some(object)) => match shape.objects.get(object as usize) {
            Some(object) => Ok(*object),
            None => Err(Failure::Wrong),
        },
    }
}

/// The cell of an object's field.
#[inline(always)]
pub fn cell_of_field(shape: &Shape, base: Value, field: u32) -> Result<usize, Failure>
    ensures { result ≡ field_cell shape.now base field }
{
    let object = object(shape, base)?;
    Ok(object.cells as usize + field as usize)
}

/// The reference that a final field of an object has.
#[inline(always)]
pub fn value_of_final(shape: &Shape, base: Value, field: u32) -> Result<Value, Failure>
    ensures { result ≡ final_value shape.now base field }
{
    let object = object(shape, base)?;
    match shape.finals.get(object.finals as usize + field as usize) {
        Some(target) => Ok(Value::Ref(Some(*target))),
        None => Err(Failure::Wrong),
    }
}

// The value of a field, final or not.
#[inline(always)]
fn value_of_field(
    shape: &Shape,
    heap: &[Value],
    base: Value,
    field: FieldStep,
) -> Result<Value, Failure>
    ensures { result ≡ step_value shape.now heap.now base field }
{
    match field {
        FieldStep::Final { number, .. } => value_of_final(shape, base, number),
        FieldStep::Field { number, .. } => {
            let cell = cell_of_field(shape, base, number)?;
            value_at(heap, cell)
        }
    }
}

/// A reference whose final reference equals the owner, or null.
#[inline(always)]
pub fn owned_by(shape: &Shape, value: Value, number: u32, owner: Value) -> Result<Value, Failure>
    ensures { result ≡ owned shape.now value number owner }
{
    match value {
        Value::Int(_) => Err(Failure::Wrong),
        Value::Ref(None) => Ok(value),
        Value::Ref(Some(_)) => {
            let named = value_of_final(shape, value, number)?;
            if compare(Comparison::Equal, named, owner)? {
                Ok(value)
            } else {
                Err(Failure::Trap(Trap::NotOwned))
            }
        }
    }
}

/// The reference, if it is not null.
#[inline(always)]
pub fn non_null(value: Value) -> Result<Value, Failure>
    ensures { result ≡ not_null value }
{
    match value {
        Value::Int(_) => Err(Failure::Wrong),
        Value::Ref(None) => Err(Failure::Trap(Trap::NullBase)),
        Value::Ref(Some(_)) => Ok(value),
    }
}

/// The value at the end of a path.
#[inline(always)]
pub fn follow(
    path: &Path,
    shape: &Shape,
    locals: &[Value],
    heap: &[Value],
) -> Result<Value, Failure>
    ensures { result ≡ place_of path.now shape.now locals.now heap.now }
{
    let mut value = value_at(locals, path.local)?;
    for field in &path.fields {
        value = value_of_field(shape, heap, value, *field)?;
    }
    Ok(value)
}
