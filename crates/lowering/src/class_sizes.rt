//! The most locks and cells that lock paths name.

ghost use Rattle.std.specs.Prelude.{◌≡◌, ℕ, length, slice_index, IfOk, IfSome};
ghost use Rattle.std.specs.List.{sum_by};
ghost use Rattle.locks.specs.declared.path.LockPath as written;
ghost use Rattle.locks.specs.Locks.{members_of};
ghost use Rattle.locks.specs.LockPaths.{lock_path_of, most_named};
ghost use Rattle.layout.specs.Layouts.{IsLayoutOf};
ghost use Rattle.lowering.specs.Working.Rooms.{most_cells, all_cells};
ghost use Rattle.lowering.specs.Working.Sizes.{AreSizes, CountObjects, cells_by};

use core_lang::shape::Shape;
use core_lang::typed::Typed;
use layout::table::Layout;
use locks::path::{LockPath, Root};
use source::memory::NoMemory;
use std::alloc::Global;

/// The sizes of a program's lock classes and structs.
#[derive(Drop)]
pub(crate) struct ClassSizes {
    /// For each class, the most cells that one of its locks protects.
    pub(crate) most: Vec<u32>,
    /// For each class, the number of cells that all its locks protect.
    pub(crate) all: Vec<usize>,
    /// For each struct, the number of its objects.
    pub(crate) objects: Vec<usize>,
}

// For each class, the most cells that one of its locks protects.
fn most_by_class(alloc: Global, program: &Typed, layout: &Layout) -> Result<Vec<u32>, NoMemory>
    requires { IsLayoutOf program.now layout.now }
    ensures { IfOk result (λ most. (class : ℕ) → slice_index most.items class ≡ most_cells layout.now class) }
{
    let mut most = vec![in alloc; 0u32; program.classes.len()]?;
    for lock in layout.locks() {
        most[lock.class] = most[lock.class].max(layout.cells_of(*lock));
    }
    Ok(most)
}

// For each class, the number of cells that all its locks protect.
fn cells_by_class(alloc: Global, program: &Typed, layout: &Layout) -> Result<Vec<usize>, NoMemory>
    requires { IsLayoutOf program.now layout.now }
    ensures { IfOk result (λ all. (class : ℕ) → slice_index all.items class ≡ all_cells layout.now class) }
{
    let mut all = vec![in alloc; 0usize; program.classes.len()]?;
    for cell in 0..layout.cells_count() {
        let class = layout.lock_of(cell).class;
        all[class] += 1;
    }
    Ok(all)
}

// The number of objects of a struct. `None` if it doesn't fit 64 bits.
fn objects_of(shape: &Shape, structure: usize) -> Option<usize>
    ensures { IfSome result (λ count. count ≡ length (members_of shape.now structure)) }
{
    let mut count = 0usize;
    for pool in &shape.pools {
        if pool.structure == structure {
            count = count.checked_add(pool.length as usize)?;
        }
    }
    Some(count)
}

// For each struct, the number of its objects.
fn objects_by_struct(alloc: Global, program: &Typed) -> Result<Vec<usize>, NoMemory>
    ensures { IfOk result (λ objects. CountObjects program.now objects.items) }
{
    let mut objects = Vec::with_capacity(alloc, program.structs.len())?;
    for structure in 0..program.structs.len() {
        let Some(count) = objects_of(&program.shape, structure) else {
            return Err(NoMemory);
        };
        objects.push(count)?;
    }
    Ok(objects)
}

impl ClassSizes {
    // The sizes of the classes and structs of a program.
    pub(crate) fn of(
        alloc: Global,
        program: &Typed,
        layout: &Layout,
    ) -> Result<ClassSizes, NoMemory>
        requires { IsLayoutOf program.now layout.now }
        ensures { IfOk result (AreSizes program.now layout.now) }
    {
        Ok(ClassSizes {
            most: most_by_class(alloc, program, layout)?,
            all: cells_by_class(alloc, program, layout)?,
            objects: objects_by_struct(alloc, program)?,
        })
    }

    // The most locks that a path can name. `None` if the number doesn't fit 64 bits.
    fn locks_of(&self, program: &Typed, path: &LockPath) -> Option<usize>
        requires { CountObjects program.now self.now.objects.items }
        ensures { IfSome result (λ count. count ≡ most_named program.now.shape (lock_path_of path.now)) }
    {
        match path.root {
            Root::GlobalLock => Some(1),
            Root::Local(_) => Some(1),
            Root::WholeClass(structure) => match self.objects.get(structure) {
                Some(count) => Some(*count),
                None => objects_of(&program.shape, structure),
            },
        }
    }

    // The most cells that the locks which a path names protect.
    fn cells_of(&self, path: &LockPath) -> usize
        ensures { result ≡ cells_by self.now (lock_path_of path.now) }
    {
        match path.root {
            Root::WholeClass(_) => self.all.get(path.class).copied().unwrap_or(0),
            Root::GlobalLock | Root::Local(_) => {
                self.most.get(path.class).copied().unwrap_or(0) as usize
            }
        }
    }

    // The most locks that these paths name together. `None` if the number doesn't fit 64 bits.
    pub(crate) fn locks_under(&self, program: &Typed, paths: &[LockPath]) -> Option<usize>
        requires { CountObjects program.now self.now.objects.items }
        ensures { IfSome result (λ count. count
            ≡ sum_by (λ (path : written.LockPath). most_named program.now.shape (lock_path_of path)) paths.now) }
    {
        let mut count = 0usize;
        for path in paths {
            count = count.checked_add(self.locks_of(program, path)?)?;
        }
        Some(count)
    }

    // The most cells that the locks which these paths name protect together. `None` if the number doesn't fit 64 bits.
    pub(crate) fn cells_under(&self, paths: &[LockPath]) -> Option<usize>
        ensures { IfSome result (λ count. count
            ≡ sum_by (λ (path : written.LockPath). cells_by self.now (lock_path_of path)) paths.now) }
    {
        let mut count = 0usize;
        for path in paths {
            count = count.checked_add(self.cells_of(path))?;
        }
        Some(count)
    }
}
