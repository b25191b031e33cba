//! The lock paths of a section in the order of lists.

ghost use Rattle.std.specs.Prelude.{◌≤◌, length, map, slice_index, IfOk};
ghost use Rattle.inserter.specs.Working.Keys.{AreKeys};

use source::memory::NoMemory;
use std::alloc::Global;

/// The keys of all lock paths in rising order. A key is 64 times the rank of the path's class plus the path's number.
pub fn sorted_keys(alloc: Global, classes: &[usize], ranks: &[u32]) -> Result<Vec<u64>, NoMemory>
    requires { length classes.now ≤ 64 }
    ensures { IfOk result (λ keys. AreKeys (map (slice_index ranks.now) classes.now) keys.items) }
{
    let mut keys = Vec::with_capacity(alloc, classes.len())?;
    for path in 0..classes.len() {
        let rank = ranks.get(classes[path]).copied().unwrap_or(0);
        keys.push(rank as u64 * 64 + path as u64)?;
    }
    keys.sort_unstable();
    Ok(keys)
}
