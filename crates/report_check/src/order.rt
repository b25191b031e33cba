//! The text of `order`.

ghost use Rattle.std.specs.Prelude.{◌≡◌, OnOk, IfOk, string_bytes};
ghost use Rattle.locks.specs.Texts.{AddsText};
ghost use Rattle.report_check.specs.Order.{label_text, node_text, node_texts};
ghost use Rattle.report_check.specs.Working.OrderValues.{order_text_of};

use crate::edges::Edges;
use crate::positions::Positions;
use crate::push_ranked;
use crate::section_points::points_of_sections;
use core_lang::typed::Typed;
use lockorder::ranks::ClassPair;
use source::memory::NoMemory;
use std::alloc::{AllocError, Global};

/// Appends a rank and its class.
fn push_label(
    out: &mut String,
    program: &Typed,
    ranks: &[u32],
    rank: usize,
) -> Result<(), AllocError>
    ensures { OnOk result (AddsText (label_text program.now ranks.now rank) out.old out.new) }
{
    write!(out, "rank {rank} ")?;
    push_ranked(out, program, ranks, rank)
}

/// Appends the line of the class of a rank.
fn push_node(
    out: &mut String,
    program: &Typed,
    ranks: &[u32],
    rank: usize,
) -> Result<(), AllocError>
    ensures { OnOk result (AddsText (node_text program.now ranks.now rank) out.old out.new) }
{
    out.push_str("  \"")?;
    push_ranked(out, program, ranks, rank)?;
    out.push_str("\" [label=\"")?;
    push_label(out, program, ranks, rank)?;
    out.push_str("\"];\n")?;
    Ok(())
}

/// Appends the line of each class.
fn push_nodes(out: &mut String, program: &Typed, ranks: &[u32]) -> Result<(), AllocError>
    ensures { OnOk result (AddsText (node_texts program.now ranks.now) out.old out.new) }
{
    for rank in 0..ranks.len() {
        push_node(out, program, ranks, rank)?;
    }
    Ok(())
}

/// The text of `order` for an accepted program.
#[derive(Drop)]
pub struct Order<'a> {
    /// The program's text.
    pub text: &'a [u8],
    /// The program.
    pub program: &'a Typed,
    /// The rank of each lock class.
    pub ranks: &'a [u32],
    /// The pairs of classes of which the first must precede the second.
    pub pairs: &'a [ClassPair],
}

impl Order<'_> {
    /// The text of `order`: a graph with a node for each class, labelled with its rank, and an edge for each pair,
    /// labelled with a use of a lock of the first class that makes it: its section, line and column. The only error is
    /// a failed allocation.
    pub fn text(&self, alloc: Global) -> Result<String, NoMemory>
        ensures { IfOk result (λ text. string_bytes text ≡ order_text_of self.now) }
    {
        let mut out = String::from_str(alloc, "digraph lock_order {\n")?;
        push_nodes(&mut out, self.program, self.ranks)?;
        let positions = Positions::of(alloc, self.text)?;
        let points = points_of_sections(alloc, self.program)?;
        let edges = Edges {
            program: self.program,
            points: &points,
            positions: &positions,
            cycle: &[],
        };
        edges.push(&mut out, self.pairs)?;
        out.push_str("}\n")?;
        Ok(out)
    }
}
