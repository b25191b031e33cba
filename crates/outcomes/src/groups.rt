//! A partition of the threads into groups, such that calls of different groups commute.

ghost use Rattle.std.specs.Prelude.{◌≡◌, ◌<◌, ◌≤◌, ℕ, true, false, length, slice_index, IfOk, IfSome, IfNone};
ghost use Rattle.bit_set.specs.Working.Sets.{has_number};
ghost use Rattle.core_lang.specs.Expansion.{IsExpansion};
ghost use Rattle.core_lang.specs.WellFormed.{IsChecked};
ghost use Rattle.outcomes.specs.Commuting.{AreIndependent};
ghost use Rattle.outcomes.specs.Working.Listing.{AreListed};
ghost use Rattle.outcomes.specs.Working.Grouping.{relabelled, IsRelabelled, IsCoarser, AreJoined};
ghost use Rattle.outcomes.specs.Working.Grouping.{AreGroups, AreOneGroup, AreFinest, AreLinked};

use crate::accesses::{AccessWalk, body_of};
use crate::marks::TouchMarks;
use crate::touched::Touched;
use bit_set::set::BitSet;
use core_lang::tree::Section;
use core_lang::typed::{Cell, Typed};
use source::memory::NoMemory;
use std::alloc::Global;

// The groups in which each thread is alone.
fn alone(alloc: Global, threads: usize) -> Result<Vec<usize>, NoMemory>
    ensures long { IfOk result (λ groups. length groups.items ≡ threads) }
    ensures apart { IfOk result (λ groups. (k : ℕ) → k < threads → slice_index groups.items k ≡ k) }
{
    let mut groups = Vec::new(alloc);
    for thread in 0..threads {
        groups.push(thread)?;
    }
    Ok(groups)
}

// The groups in which all threads are in one.
fn together(alloc: Global, threads: usize) -> Result<Vec<usize>, NoMemory>
    ensures { IfOk result (λ groups. AreOneGroup threads groups.items) }
{
    Ok(vec![in alloc; 0; threads]?)
}

// The group `group`, or `to` if it is `from`.
fn new_label(group: usize, from: usize, to: usize) -> usize
    ensures { result ≡ relabelled from to group }
{
    if group == from { to } else { group }
}

// Moves the threads of one group to another.
fn relabel(groups: &mut Vec<usize>, from: usize, to: usize)
    ensures { IsRelabelled from to groups.old.items groups.new.items }
{
    if from == to {
        return;
    }
    for thread in 0..groups.len() {
        groups[thread] = new_label(groups[thread], from, to);
    }
}

// The first thread of `set`, if it has one.
fn first_of(set: BitSet, threads: usize) -> Option<usize>
    requires { threads ≤ 128 }
    ensures some { IfSome result (λ thread. (thread < threads) × (has_number set thread ≡ true)) }
    ensures none { IfNone result ((thread : ℕ) → thread < threads → has_number set thread ≡ false) }
{
    for thread in 0..threads {
        if set.contains(thread) {
            return Some(thread);
        }
    }
    None
}

// Joins the groups of the threads that touch a cell, if one of them writes it.
fn join(groups: &mut Vec<usize>, readers: BitSet, writers: BitSet)
    requires { length groups.old.items ≤ 128 }
    ensures coarser { IsCoarser groups.old.items groups.new.items }
    ensures joined { AreJoined groups.new.items readers writers }
    ensures linked { AreLinked groups.old.items groups.new.items readers writers }
{
    let touching = readers.union(writers);
    if let Some(first) = first_of(writers, groups.len()) {
        for thread in 0..groups.len() {
            if touching.contains(thread) {
                let group = groups[thread];
                let joined = groups[first];
                relabel(groups, group, joined);
            }
        }
    }
}

// The groups, by the cells that the threads touch.
fn grouped(
    alloc: Global,
    touched: &Touched,
    cells: &[Cell],
    threads: usize,
) -> Result<Vec<usize>, NoMemory>
    requires { threads ≤ 128 }
    ensures joined { IfOk result (λ groups. AreGroups cells.now touched.now threads groups.items) }
    ensures finest { IfOk result (λ groups. AreFinest cells.now touched.now groups.items (length cells.now)) }
{
    let mut groups = alone(alloc, threads)?;
    for number in 0..cells.len() {
        let owner = cells[number].owner;
        let readers = touched.reads.threads_at(number, owner);
        let writers = touched.writes.threads_at(number, owner);
        join(&mut groups, readers, writers);
    }
    Ok(groups)
}

// The accesses of each section.
fn bodies<'a>(alloc: Global, sections: &'a [Section]) -> Result<Vec<AccessWalk<'a>>, NoMemory>
    ensures { IfOk result (λ bodies. AreListed bodies.items sections.now) }
{
    let mut bodies = Vec::new(alloc);
    for section in sections {
        bodies.push(body_of(alloc, section)?)?;
    }
    Ok(bodies)
}

/// The group of each thread: two threads are in one group if a call of one may write a cell that a call of the other
/// may read or write, or if other threads link them so. Calls of different groups commute: if n turns of each loop
/// settle one and then the other, they settle them in the other order too, with the same ends, prints and cells.
/// `written` is the program with its helpers expanded. The only error is `NoMemory`.
pub fn groups(alloc: Global, program: &Typed, written: &Typed) -> Result<Vec<usize>, NoMemory>
    requires checked { IsChecked program.now }
    requires expansion { IsExpansion program.now written.now }
    ensures { IfOk result (λ groups. AreIndependent program.now groups.items) }
{
    core_lang::laws::writing_out_changes_nothing();
    let threads = program.threads.len();
    let bodies = bodies(alloc, &written.sections)?;
    let mut touched = Touched {
        reads: TouchMarks::new(alloc, program.cells.len(), written.shape.arrays.len())?,
        writes: TouchMarks::new(alloc, program.cells.len(), written.shape.arrays.len())?,
    };
    if touched.threads(&written.shape, &bodies, &program.threads) {
        grouped(alloc, &touched, &program.cells, threads)
    } else {
        together(alloc, threads)
    }
}
