//! The lists before the points of a section.

ghost use Rattle.std.specs.Prelude.{◌≡◌, map, IfOk};
ghost use Rattle.inserter.specs.Working.Keys.{AreDue, AreListsOf, numbers_in};
ghost use Rattle.inserter.specs.Placement.{lists_of};

use crate::keys::sorted_keys;
use crate::placed::SectionLists;
use locks::path_set::PathSet;
use points::table::Points;
use source::memory::NoMemory;
use std::alloc::Global;

// The paths of a set, in the order of their keys.
fn listed(alloc: Global, keys: &[u64], set: PathSet) -> Result<Vec<u8>, NoMemory>
    ensures { IfOk result (λ list. list.items ≡ numbers_in set keys.now) }
{
    let mut list = Vec::new(alloc);
    for key in keys {
        let path = (*key % 64) as u8;
        if set.contains(path as usize) {
            list.push(path)?;
        }
    }
    Ok(list)
}

// For each point, the paths that are wanted there and not surely held, in the order of their keys.
fn due(
    alloc: Global,
    keys: &[u64],
    wanted: &[PathSet],
    held: &[PathSet],
) -> Result<Vec<Vec<u8>>, NoMemory>
    ensures { IfOk result (λ lists. AreDue keys.now wanted.now held.now (map (λ list. list.items) lists.items)) }
{
    let points = wanted.len().min(held.len());
    let mut lists = Vec::with_capacity(alloc, points)?;
    for p in 0..points {
        lists.push(listed(alloc, keys, wanted[p].minus(held[p]))?)?;
    }
    Ok(lists)
}

/// The list before each point of a section: the paths that are wanted there and not surely held, by rising rank, and
/// those of one rank in the order of their first accesses.
pub fn lists_before(alloc: Global, points: &Points, ranks: &[u32]) -> Result<SectionLists, NoMemory>
    ensures { IfOk result (λ lists. AreListsOf points.now ranks.now (lists_of lists)) }
{
    let wanted = points.wanted(alloc, ranks)?;
    let held = points.surely_held(alloc, ranks)?;
    let keys = sorted_keys(alloc, &points.classes, ranks)?;
    let before = due(alloc, &keys, &wanted, &held)?;
    Ok(SectionLists { before })
}
