//! The lock paths that are surely held at the points of a program. The one error is a refused growth.

ghost use Rattle.std.specs.Prelude.{◌≡◌, ◌<◌, ◌≤◌, length, IfOk};
ghost use Rattle.std.specs.List.{filter, range_with_len};
ghost use Rattle.code.specs.Working.NumberLists.{number_lists};
ghost use Rattle.locks.specs.Sets.{has};
ghost use Rattle.language_server.specs.Held.{AreHeld};
ghost use Rattle.language_server.specs.Working.Lines.{AreHeldAt, AreNumbersOf, held_in, numbers_of};

use locks::path_set::PathSet;
use lowering::compiled::Program;
use points::points;
use points::table::Points;
use source::memory::NoMemory;
use std::alloc::Global;

/// A list of numbers of lock paths for each point of a section.
pub type PointLists = Vec<Vec<u8>>;

/// The numbers below `many` that are in `set`.
fn numbers_in(alloc: Global, set: PathSet, many: usize) -> Result<Vec<u8>, NoMemory>
    requires { many ≤ 64 }
    ensures { IfOk result (λ list. list.items ≡ filter (has set) (range_with_len 0 many)) }
{
    let mut list = Vec::new(alloc);
    for path in 0..many {
        if set.contains(path) {
            list.push(path as u8)?;
        }
    }
    Ok(list)
}

/// The numbers below `many` in each of `sets`.
fn numbers(alloc: Global, sets: &[PathSet], many: usize) -> Result<PointLists, NoMemory>
    requires { many ≤ 64 }
    ensures { IfOk result (λ lists. number_lists lists.items ≡ numbers_of many sets.now) }
{
    let mut lists = Vec::new(alloc);
    for set in sets {
        lists.push(numbers_in(alloc, *set, many)?)?;
    }
    Ok(lists)
}

/// The numbers of the lock paths that are surely held at each point of a section.
fn held_at(alloc: Global, points: &Points, ranks: &[u32]) -> Result<PointLists, NoMemory>
    ensures { IfOk result (λ lists. AreNumbersOf points.now ranks.now (number_lists lists.items)) }
{
    let sets = points.surely_held(alloc, ranks)?;
    numbers(alloc, &sets, points.classes.len())
}

/// The numbers of the lock paths that are surely held at each point of the section with the number `number`.
fn held_in_section(alloc: Global, program: &Program, number: usize) -> Result<PointLists, NoMemory>
    requires { number < length program.now.program.sections.items }
    ensures { IfOk result (λ lists. AreHeldAt program.now number (number_lists lists.items)) }
{
    let points = points(alloc, program.expanded(), number, program.paths())?;
    held_at(alloc, &points, program.ranks())
}

/// The numbers of the lock paths that are surely held at each point of all sections.
pub fn held(alloc: Global, program: &Program) -> Result<Vec<PointLists>, NoMemory>
    ensures { IfOk result (λ lists. AreHeld program.now.program program.now.ranks (held_in lists.items)) }
{
    let mut all = Vec::new(alloc);
    for number in 0..program.expanded().sections.len() {
        all.push(held_in_section(alloc, program, number)?)?;
    }
    Ok(all)
}
