//! The steps of a thread, one by one.

use interleavings::world::World;
use lowering::compiled::Program;
use report_runs::simulation_text;
use std::alloc::Global;
use std::test::Fail;
use worlds::event::Event;

/// Takes a step of a thread. Where its memory is refused (`tests/refused_memory.sh`) the world must be unchanged, and
/// the step is taken again: it then does what it would have done at first.
fn step_of(alloc: Global, world: &mut World<'_>, thread: u32) -> Result<Event, Fail> {
    let before = simulation_text(alloc, world)?;
    if let Ok(event) = world.step(alloc, thread) {
        return Ok(event);
    }
    let after = simulation_text(alloc, world)?;
    if after.as_str() != before.as_str() {
        return Err(Fail::new("a step that was refused changed the world"));
    }
    Ok(world.step(alloc, thread)?)
}

/// The text with a line for each of the first `steps` steps of a thread of the program, with the status of the thread
/// after it.
pub fn stepped(
    alloc: Global,
    program: &Program,
    thread: u32,
    steps: usize,
) -> Result<String, Fail> {
    let mut world = World::open(alloc, program)?;
    let mut said = String::new(alloc);
    for _step in 0..steps {
        let event = step_of(alloc, &mut world, thread)?;
        let status = world.state(thread);
        write!(&mut said, "{event:?}, {status:?}\n")?;
    }
    Ok(said)
}
