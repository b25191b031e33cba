//! The lock that protects a cell, and the locks of an object.

ghost use Rattle.std.specs.Prelude.{◌≡◌, ◌<◌, ◌^◌, length, Some};
ghost use Rattle.core_lang.specs.WellFormed.{IsWellFormed};
ghost use Rattle.core_lang.specs.declared.typed.CellOwner.TheVariants as owner;
ghost use Rattle.locks.specs.Locks as locking;
ghost use Rattle.layout.specs.Layouts as layouts;

use core_lang::typed::{CellOwner, LockClass, LockField, Protection, Typed};
use locks::lock::Lock;
use locks::objects::led_to;

/// The lock fields of the struct of `object`.
pub fn lock_fields(program: &Typed, object: usize) -> &[LockField]
    requires program { IsWellFormed program.now }
    requires object { object < length program.now.shape.objects.items }
    ensures { result.now ≡ layouts.lock_fields (layouts.object_struct program.now object) }
{
    let pool = program.shape.objects[object].pool;
    let structure = program.shape.pools[pool].structure;
    program.structs[structure].locks.as_slice()
}

// The lock of an annotation, found from `object`. A global lock is the same for all objects.
fn walked(program: &Typed, protection: &Protection, object: u32) -> Option<Lock>
    ensures { result ≡ locking.walked program.now protection.now object }
{
    let class = protection.class;
    match program.classes.get(class)? {
        LockClass::Global(_) => Some(Lock { class, object: 0 }),
        LockClass::Field { .. } => {
            let object = led_to(&program.shape, object, &protection.through)?;
            Some(Lock { class, object })
        }
    }
}

// The lock that protects field `field` of `object`.
fn of_field(program: &Typed, object: usize, field: usize) -> Option<Lock>
    requires { length program.now.shape.objects.items < 2 ^ 32 }
    ensures { result ≡ locking.protecting program.now (owner.Field object field) }
{
    let pool = program.shape.objects.get(object)?.pool;
    let structure = program.shape.pools.get(pool)?.structure;
    let field = program.structs.get(structure)?.fields.get(field)?;
    walked(program, &field.protection, object as u32)
}

// The lock that protects a cell of `owner`: a global, an element or a field.
fn protecting(program: &Typed, owner: CellOwner) -> Option<Lock>
    requires { length program.now.shape.objects.items < 2 ^ 32 }
    ensures { result ≡ locking.protecting program.now owner }
{
    match owner {
        CellOwner::Global(global) => {
            let class = program.globals.get(global)?.class;
            Some(Lock { class, object: 0 })
        }
        CellOwner::Element { array, .. } => {
            let class = program.shape.arrays.get(array)?.class;
            Some(Lock { class, object: 0 })
        }
        CellOwner::Field { object, field } => of_field(program, object, field),
    }
}

/// The lock that protects `cell`.
pub fn lock_of_cell(program: &Typed, cell: usize) -> Lock
    requires program { IsWellFormed program.now }
    requires cell { cell < length program.now.cells.items }
    ensures protects { locking.lock_of_cell program.now cell ≡ Some result }
    ensures listed { locking.IsLock program.now result }
{
    protecting(program, program.cells[cell].owner).unwrap()
}
