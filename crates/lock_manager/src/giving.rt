//! Cells that go to a thread, and grants that are dropped.

ghost use Rattle.std.specs.Prelude.{◌≡◌, ◌<◌, [], length, slice_get, slice_set, Some, IfOk, IfErr, OnOk, OnErr};
ghost use Rattle.lock_manager.specs.declared.places.LockPlace.TheVariants as place;

use crate::places::LockPlace;
use moved_cells::cells::Cells;
use moved_cells::grant::Grant;
use std::mem;

/// Takes the cells at `number` for `thread`. The error is the thread that has them already.
pub fn take(places: &mut Vec<LockPlace>, number: usize, thread: u32) -> Result<Cells, u32>
    requires { number < length places.old.items }
    ensures free { IfOk result (λ cells. slice_get places.old.items number ≡ Some (place.Free cells)) }
    ensures taken { IfErr result (λ holder. slice_get places.old.items number ≡ Some (place.Taken holder)) }
    ensures gone { OnOk result (places.new.items ≡ slice_set places.old.items number (place.Taken thread)) }
    ensures stay { OnErr result (places.new.items ≡ places.old.items) }
{
    match mem::replace(&mut places[number], LockPlace::Taken(thread)) {
        LockPlace::Free(cells) => Ok(cells),
        LockPlace::Taken(holder) => {
            places[number] = LockPlace::Taken(holder);
            Err(holder)
        }
    }
}

/// Drops grants that are not those of the section that returns them.
pub fn let_go(grants: &mut Vec<Grant>)
    ensures { grants.new.items ≡ [] }
{
    while let Some(grant) = grants.pop() {
        let (_lock, _cells) = grant.into_parts();
    }
}
