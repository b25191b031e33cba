//! The points of one section of a program.

ghost use Rattle.std.specs.Prelude.{◌≡◌, ◌<◌, map, length, IfOk};
ghost use Rattle.locks.specs.declared.path.LockPath as written;
ghost use Rattle.lockpaths.specs.Paths.{ArePaths};
ghost use Rattle.points.specs.Working.Points.{ArePointsOf};

use crate::dataflow::{backward_may, forward_may};
use crate::roots::Roots;
use crate::table::Points;
use core_lang::typed::Typed;
use flow::points::points_of;
use flow::skeleton::parts_of;
use lockpaths::table::Paths;
use locks::path::LockPath;
use source::memory::NoMemory;
use std::alloc::Global;

fn classes_of(alloc: Global, paths: &[LockPath]) -> Result<Vec<usize>, NoMemory>
    ensures { IfOk result (λ classes. classes.items ≡ map (λ (path : written.LockPath). path.class) paths.now) }
{
    let mut classes = Vec::with_capacity(alloc, paths.len())?;
    for path in paths {
        classes.push(path.class)?;
    }
    Ok(classes)
}

/// The points of the section with this number in [`Typed::sections`], given the program's lock paths.
///
/// # Errors
///
/// Out of memory.
pub fn points(
    alloc: Global,
    program: &Typed,
    section: usize,
    paths: &Paths,
) -> Result<Points, NoMemory>
    requires paths { ArePaths program.now paths.now }
    requires section { section < length program.now.sections.items }
    ensures { IfOk result (ArePointsOf program.now section) }
{
    // By the law, each list has an item for each point.
    flow::laws::points_are_counted();
    let declared = &program.sections[section];
    let found = &paths.sections[section];
    let parts = parts_of(alloc, declared)?;
    let roots = Roots {
        paths: &found.paths,
    };
    let bound = roots.bound(alloc, &points_of(alloc, declared)?)?;
    let in_scope = roots.in_scope(alloc, declared)?;
    let used_before = forward_may(alloc, &parts, &found.used)?;
    let used_later = backward_may(alloc, &parts, &found.used)?;
    let classes = classes_of(alloc, &found.paths)?;
    let used = Vec::from_slice(alloc, &found.used)?;
    Ok(Points {
        parts,
        classes,
        bound,
        used,
        in_scope,
        used_before,
        used_later,
    })
}
