//! The places of a lock's cells.

use moved_cells::cells::Cells;

/// The place of a lock's cells.
#[derive(Drop)]
pub enum LockPlace {
    /// With the manager.
    Free(Cells),
    /// With the open section of this thread.
    Taken(u32),
}
