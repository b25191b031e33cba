//! The text of a cycle.

ghost use Rattle.std.specs.Prelude.{◌≡◌, string_bytes, IfOk};
ghost use Rattle.lockorder.specs.Faults.{arrows, classes_of, cycle_text};

use crate::ranks::Edge;
use core_lang::typed::Typed;
use locks::text::push_class;
use source::memory::NoMemory;
use std::alloc::Global;

/// The classes of a cycle, joined by arrows, the first again at the end: `A.l -> B.m -> A.l`.
pub fn cycle_text(alloc: Global, program: &Typed, edges: &[Edge]) -> Result<String, NoMemory>
    ensures { IfOk result (λ text. string_bytes text ≡ cycle_text program.now (classes_of edges.now)) }
{
    let mut text = String::new(alloc);
    for edge in edges {
        push_class(&mut text, program, edge.class)?;
        text.push_str(" -> ")?;
    }
    if let Some(first) = edges.first() {
        push_class(&mut text, program, first.class)?;
    }
    Ok(text)
}
