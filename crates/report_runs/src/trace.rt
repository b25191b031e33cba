//! The text of `trace`.

ghost use Rattle.std.specs.Prelude.{◌≡◌, IfOk, string_bytes};
ghost use Rattle.input_files.specs.Turns.{steps_of};
ghost use Rattle.report_runs.specs.Trace.{trace_text};

use crate::simulation::simulation_text;
use crate::step_teller::StepWriter;
use input_files::turn::Turn;
use interleavings::world::World;
use lowering::compiled::Program;
use source::memory::NoMemory;
use std::alloc::Global;

/// A program whose steps are traced.
#[derive(Clone, Copy)]
pub struct Trace<'a> {
    /// The program's text.
    pub text: &'a [u8],
    /// The program.
    pub program: &'a Program,
    /// Whether instructions are reported.
    pub moves: bool,
    /// Whether steps that do nothing are reported.
    pub all: bool,
}

impl Trace<'_> {
    /// The text of `trace`: a line for each reported step of `turns`, from the opening world on, then the simulation
    /// text. The only error is a refused growth.
    pub fn text(&self, alloc: Global, turns: &[Turn]) -> Result<String, NoMemory>
        ensures { IfOk result (λ told. string_bytes told
            ≡ trace_text self.now.text.now self.now.program.now self.now.moves self.now.all (steps_of turns.now)) }
    {
        let teller = StepWriter::new(alloc, self)?;
        let mut world = World::open(alloc, self.program)?;
        let mut out = String::new(alloc);
        teller.take_turns(alloc, &mut world, turns, &mut out)?;
        out.push_str(&simulation_text(alloc, &world)?)?;
        Ok(out)
    }
}
