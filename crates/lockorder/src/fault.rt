//! The fault of a cycle.

ghost use Rattle.std.specs.Prelude.{◌≡◌, IfOk};
ghost use Rattle.lockorder.specs.Faults.{IsCycleOf, IsFaultAtFirst, IsFaultOf};

use crate::ranks::Cycle;
use crate::text::cycle_text;
use core_lang::typed::Typed;
use flow::points::points_of;
use source::fault::{Code, Fault};
use source::memory::NoMemory;
use std::alloc::Global;

impl Cycle {
    /// The fault `E14` of a program for this cycle, at the statement of the first edge's use point: the first one in
    /// the lowest section that makes the edge. Its detail is the classes, as `A.l -> B.m -> A.l`.
    pub fn fault(&self, alloc: Global, program: &Typed) -> Result<Fault, NoMemory>
        requires { IsCycleOf program.now self.now.edges.items }
        ensures first { IfOk result (IsFaultAtFirst program.now) }
        ensures of_cycle { IfOk result (IsFaultOf program.now self.now.edges.items) }
    {
        let first = self.edges[0];
        let points = points_of(alloc, &program.sections[first.section])?;
        let start = points[first.used].start();
        let detail = cycle_text(alloc, program, &self.edges)?;
        Ok(Fault {
            code: Code::LockOrderCycle,
            start,
            detail,
        })
    }
}
