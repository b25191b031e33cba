//! Random items of a steps file.

ghost use Rattle.std.specs.Prelude.{◌≡◌, ◌<◌, ◌≤◌, ◌*◌, IfOk, length};
ghost use Rattle.interleavings.specs.Drawn.{draw_below, draw_item, drawn_items, drawn_until};
ghost use Rattle.interleavings.specs.Schedules.{AreOfThreads, counted_in};
ghost use Rattle.interleavings.specs.Working.Draws.{CanCome};
ghost use Rattle.input_files.specs.Steps.{counted};

use input_files::item::{Item, Until};
use lowering::compiled::Program;
use rand::rngs::SmallRng;
use rand::{RngExt, SeedableRng};
use rand_core::Rng;
use source::memory::NoMemory;
use std::alloc::Global;

/// A random number below an end.
fn below<R: Rng>(random: &mut R, end: u32) -> u32
    requires { 0 < end }
    ensures value { (result, R.stream random.new) ≡ draw_below end (R.stream random.old) }
    ensures within { result < end }
{
    random.random_range(0..end)
}

/// The end of an item, by a number below 16: `T!` for four of the numbers, `T+` for four, and 1 to 8 steps for eight.
fn until(drawn: u32) -> Until
    requires { drawn < 16 }
    ensures value { result ≡ drawn_until drawn }
    ensures few { counted result ≤ 8 }
{
    match drawn {
        0..=3 => Until::Stop,
        4..=7 => Until::CallEnd,
        _ => Until::Count(drawn as usize - 7),
    }
}

/// A random item of one of the given number of threads.
fn item<R: Rng>(random: &mut R, threads: u32) -> Item
    requires { 0 < threads }
    ensures value { (result, R.stream random.new) ≡ draw_item threads (R.stream random.old) }
    ensures thread { result.thread < threads }
    ensures few { counted result.until ≤ 8 }
{
    let thread = below(random, threads);
    Item {
        thread,
        until: until(below(random, 16)),
        start: 0,
    }
}

/// The given number of random items, for the given number of threads.
fn drawn_of(alloc: Global, threads: u32, seed: u64, count: usize) -> Result<Vec<Item>, NoMemory>
    ensures items { IfOk result (λ items. items.items ≡ drawn_items threads seed count) }
    ensures each { IfOk result (λ items. CanCome threads items.items) }
    ensures all { 0 < threads → IfOk result (λ items. length items.items ≡ count) }
    ensures few { IfOk result (λ items. length items.items ≤ count) }
{
    let mut random = SmallRng::seed_from_u64(seed);
    let mut items = Vec::new(alloc);
    if threads == 0 {
        return Ok(items);
    }
    'drawing: while items.len() < count {
        items.push(item(&mut random, threads))?;
    }
    Ok(items)
}

/// The given number of random items, as the library `rand` draws them; none if the program has no thread. Each item
/// counts at most eight steps.
///
/// # Errors
///
/// Out of memory.
pub fn drawn(
    alloc: Global,
    program: &Program,
    seed: u64,
    count: usize,
) -> Result<Vec<Item>, NoMemory>
    ensures items { IfOk result (λ items.
        items.items ≡ drawn_items (length program.now.program.threads.items) seed count) }
    ensures threads { IfOk result (λ items. AreOfThreads program.now.program items.items) }
    ensures few { IfOk result (λ items. length items.items ≤ count) }
    ensures all { 0 < length program.now.program.threads.items → IfOk result (λ items. length items.items ≡ count) }
    ensures steps { IfOk result (λ items. counted_in items.items ≤ 8 * count) }
{
    drawn_of(alloc, program.threads(), seed, count)
}
