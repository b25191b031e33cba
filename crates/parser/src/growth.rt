//! Lists that grow from a capacity of one.

ghost use Rattle.std.specs.Prelude.{◌≡◌, ◌++◌, [], ◌∷◌, OnOk};

use std::alloc::AllocError;

/// Appends `value` to `list`. A full list doubles its capacity, so that a list of one value has no room for a second.
pub fn push<T: Drop>(list: &mut Vec<T>, value: T) -> Result<(), AllocError>
    ensures items { OnOk result (list.new.items ≡ list.old.items ++ value ∷ []) }
{
    if list.len() == list.capacity() {
        list.reserve_exact(list.len().max(1))?;
    }
    match list.push(value) {
        Ok(()) => Ok(()),
        Err(_) => Err(AllocError),
    }
}
