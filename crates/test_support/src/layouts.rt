//! The layout of a program's locks and cells.

use lowering::compiled::Program;
use std::alloc::Global;
use std::test::Fail;

/// The text with a line for each lock of the program, and one for each cell: its opening value, and its place.
pub fn laid_out(alloc: Global, program: &Program) -> Result<String, Fail> {
    let layout = program.layout();
    let mut said = String::new(alloc);
    for lock in layout.locks() {
        write!(&mut said, "lock {} of {}\n", lock.class, lock.object)?;
    }
    for cell in 0..program.expanded().cells.len() {
        let (lock, offset) = layout.slot_of(cell);
        let size = layout.cells_of(lock);
        let opening = layout.opening(cell);
        write!(
            &mut said,
            "{opening:?} at {offset} of {size} under lock {} of {}\n",
            lock.class, lock.object
        )?;
    }
    Ok(said)
}
