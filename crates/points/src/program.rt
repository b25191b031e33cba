//! The points of all sections of a program.

ghost use Rattle.std.specs.Prelude.{IfOk};
ghost use Rattle.lockpaths.specs.Paths.{ArePaths};
ghost use Rattle.points.specs.Working.Points.{AreAllPointsOf};

use crate::section::points;
use crate::table::Points;
use core_lang::typed::Typed;
use lockpaths::table::Paths;
use source::memory::NoMemory;
use std::alloc::Global;

/// The points of each section, in the order of [`Typed::sections`], given the program's lock paths.
///
/// # Errors
///
/// Out of memory.
pub fn all_points(alloc: Global, program: &Typed, paths: &Paths) -> Result<Vec<Points>, NoMemory>
    requires { ArePaths program.now paths.now }
    ensures { IfOk result (λ all. AreAllPointsOf program.now all.items) }
{
    let mut all = Vec::with_capacity(alloc, program.sections.len())?;
    for section in 0..program.sections.len() {
        all.push(points(alloc, program, section, paths)?)?;
    }
    Ok(all)
}
