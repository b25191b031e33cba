//! The places of the cells of held locks, and of their values.

ghost use Rattle.std.specs.Prelude.{◌<◌, ◌^◌, MatchOption, ⊤};
ghost use Rattle.runner_machine.specs.Working.Finding.{values_in, AreInRuns, AreCounted, IsPlace, HasNoPlace};

use crate::held_lock::{HeldLock, find};
use layout::table::Layout;

/// Where a cell is found among the grants.
#[derive(Clone, Copy)]
pub struct CellPlace {
    /// The index of its grant.
    pub index: usize,
    /// Its offset among the grant's cells.
    pub offset: u32,
    /// Its place: places are counted grant after grant.
    pub place: usize,
}

/// Finds `cell` among the cells of the locks `held`.
pub fn spot_of(layout: &Layout, held: &[HeldLock], cell: u32) -> Option<CellPlace>
    requires few { values_in held.now < 2 ^ 64 }
    requires runs { AreInRuns held.now }
    requires counted { AreCounted layout.now.cell_locks held.now }
    ensures none { MatchOption result (HasNoPlace layout.now.cell_locks held.now cell) (λ _. ⊤) }
    ensures some { MatchOption result ⊤ (λ s. IsPlace layout.now.cell_locks held.now cell s.index s.offset s.place) }
{
    let cell = cell as usize;
    if cell >= layout.cells_count() {
        return None;
    }
    let (lock, offset) = layout.slot_of(cell);
    match find(held, lock) {
        Some(index) => Some(CellPlace {
            index,
            offset,
            place: held[index].first + offset as usize,
        }),
        None => None,
    }
}
