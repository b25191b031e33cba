//! The text of `order` for a program whose lock classes have a cycle.

ghost use Rattle.std.specs.Prelude.{◌≡◌, OnOk, IfOk, string_bytes};
ghost use Rattle.locks.specs.Texts.{AddsText};
ghost use Rattle.report_check.specs.Order.{class_text, class_texts};
ghost use Rattle.report_check.specs.Working.OrderValues.{cyclic_order_text_of};

use crate::edges::Edges;
use crate::positions::Positions;
use crate::section_points::points_of_sections;
use core_lang::typed::Typed;
use lockorder::ranks::{ClassPair, Edge};
use locks::text::push_class;
use source::memory::NoMemory;
use std::alloc::{AllocError, Global};

/// Appends the line of a class.
fn push_node(out: &mut String, program: &Typed, class: usize) -> Result<(), AllocError>
    ensures { OnOk result (AddsText (class_text program.now class) out.old out.new) }
{
    out.push_str("  \"")?;
    push_class(out, program, class)?;
    out.push_str("\";\n")
}

/// Appends the line of each class.
fn push_nodes(out: &mut String, program: &Typed) -> Result<(), AllocError>
    ensures { OnOk result (AddsText (class_texts program.now) out.old out.new) }
{
    for class in 0..program.classes.len() {
        push_node(out, program, class)?;
    }
    Ok(())
}

/// The text of `order` for a program whose lock classes have a cycle.
#[derive(Drop)]
pub struct CyclicOrder<'a> {
    /// The program's text.
    pub text: &'a [u8],
    /// The program.
    pub program: &'a Typed,
    /// The pairs of classes of which the first must precede the second.
    pub pairs: &'a [ClassPair],
    /// The edges of a cycle.
    pub cycle: &'a [Edge],
}

impl CyclicOrder<'_> {
    /// The text: a graph with a node for each class, by their numbers, and an edge for each pair, labelled as for a
    /// program without a cycle, and red if the cycle goes from the pair's first class to its second. The only error is
    /// a failed allocation.
    pub fn text(&self, alloc: Global) -> Result<String, NoMemory>
        ensures { IfOk result (λ text. string_bytes text ≡ cyclic_order_text_of self.now) }
    {
        let mut out = String::from_str(alloc, "digraph lock_order {\n")?;
        push_nodes(&mut out, self.program)?;
        let positions = Positions::of(alloc, self.text)?;
        let points = points_of_sections(alloc, self.program)?;
        let edges = Edges {
            program: self.program,
            points: &points,
            positions: &positions,
            cycle: self.cycle,
        };
        edges.push(&mut out, self.pairs)?;
        out.push_str("}\n")?;
        Ok(out)
    }
}
