//! The lines of pairs of classes. The only error is a failed allocation.

ghost use Rattle.std.specs.Prelude.{◌≡◌, OnOk, Some, map, slice_get};
ghost use Rattle.flow.specs.Points.{points};
ghost use Rattle.flow.specs.Working.PointList.{point_at};
ghost use Rattle.locks.specs.Texts.{AddsText};
ghost use Rattle.lockorder.specs.Faults.{classes_of, second};
ghost use Rattle.report_check.specs.Order.{ends_text, is_on, mark};
ghost use Rattle.report_check.specs.Working.AllPoints.{AreAllPoints};
ghost use Rattle.report_check.specs.Working.OrderValues.{point_text_of, numbered_point_of, use_text_of, edge_text_of, edge_texts_of};

use crate::positions::Positions;
use core_lang::tree::Section;
use core_lang::typed::Typed;
use flow::points::PointRef;
use lockorder::ranks::{ClassPair, Edge};
use locks::text::push_class;
use std::alloc::AllocError;

/// Appends the position of a point's statement.
fn push_point(
    out: &mut String,
    positions: &Positions<'_>,
    point: PointRef<'_>,
) -> Result<(), AllocError>
    ensures { OnOk result (AddsText (point_text_of positions.now point.entry) out.old out.new) }
{
    let position = positions.at(point.start());
    write!(out, "{}:{}", position.line, position.column)
}

/// Appends the position of the point of this number, if there is one.
fn push_numbered(
    out: &mut String,
    positions: &Positions<'_>,
    points: &[PointRef<'_>],
    number: usize,
) -> Result<(), AllocError>
    ensures { OnOk result (AddsText (numbered_point_of positions.now points.now number) out.old out.new) }
{
    match points.get(number) {
        Some(point) => push_point(out, positions, *point),
        None => Ok(()),
    }
}

/// The class to which the edge before these leads in a cycle: that of the next one, or the first.
fn following(first: usize, rest: &[Edge]) -> usize
    ensures { result ≡ second first (classes_of rest.now) }
{
    match rest {
        [] => first,
        [edge, ..] => edge.class,
    }
}

/// Whether a cycle goes from the first class of a pair to the second.
fn is_on(cycle: &[Edge], pair: ClassPair) -> bool
    ensures { result ≡ is_on cycle.now pair }
{
    if cycle.is_empty() {
        return false;
    }
    let first = cycle[0].class;
    for i in 0..cycle.len() {
        if cycle[i].class == pair.edge.class && following(first, &cycle[i + 1..]) == pair.next {
            return true;
        }
    }
    false
}

/// What the lines need.
#[derive(Drop)]
pub struct Edges<'a, 'b> {
    /// The program.
    pub program: &'a Typed,
    /// The points of each section.
    pub points: &'b [Vec<PointRef<'a>>],
    /// The lines and columns of its text.
    pub positions: &'b Positions<'a>,
    /// A cycle of edges, or none.
    pub cycle: &'a [Edge],
}

impl<'a> Edges<'a, '_> {
    // The points of a section, which has this number.
    fn points_at(&self, number: usize, section: &Section) -> &[PointRef<'a>]
        requires points { AreAllPoints self.now.program.now self.now.points.now }
        requires here { slice_get self.now.program.now.sections.items number ≡ Some section.now }
        ensures { map point_at result.now ≡ points section.now }
    {
        &self.points[number]
    }

    // Appends the section of an edge, and the position of its use of a lock of the first class.
    fn push_use(&self, out: &mut String, edge: Edge) -> Result<(), AllocError>
        requires points { AreAllPoints self.now.program.now self.now.points.now }
        ensures { OnOk result (AddsText (use_text_of self.now edge) out.old out.new) }
    {
        let Some(section) = self.program.sections.get(edge.section) else {
            return Ok(());
        };
        write!(out, "{}:", section.name)?;
        let points = self.points_at(edge.section, section);
        push_numbered(out, self.positions, points, edge.used)?;
        Ok(())
    }

    // Appends the mark of a pair between which the cycle goes.
    fn push_mark(&self, out: &mut String, pair: ClassPair) -> Result<(), AllocError>
        ensures { OnOk result (AddsText (mark self.now.cycle.now pair) out.old out.new) }
    {
        if is_on(self.cycle, pair) {
            return out.push_str(", color=\"red\"");
        }
        Ok(())
    }

    // Appends the classes of a pair.
    fn push_ends(&self, out: &mut String, pair: ClassPair) -> Result<(), AllocError>
        ensures { OnOk result (AddsText (ends_text self.now.program.now pair) out.old out.new) }
    {
        out.push_str("  \"")?;
        push_class(out, self.program, pair.edge.class)?;
        out.push_str("\" -> \"")?;
        push_class(out, self.program, pair.next)?;
        out.push_str("\"")?;
        Ok(())
    }

    // Appends the line of a pair.
    fn push_edge(&self, out: &mut String, pair: ClassPair) -> Result<(), AllocError>
        requires points { AreAllPoints self.now.program.now self.now.points.now }
        ensures { OnOk result (AddsText (edge_text_of self.now pair) out.old out.new) }
    {
        self.push_ends(out, pair)?;
        out.push_str(" [label=\"")?;
        self.push_use(out, pair.edge)?;
        out.push_str("\"")?;
        self.push_mark(out, pair)?;
        out.push_str("];\n")?;
        Ok(())
    }

    /// Appends the line of each pair.
    pub fn push(&self, out: &mut String, pairs: &[ClassPair]) -> Result<(), AllocError>
        requires points { AreAllPoints self.now.program.now self.now.points.now }
        ensures { OnOk result (AddsText (edge_texts_of self.now pairs.now) out.old out.new) }
    {
        for pair in pairs {
            self.push_edge(out, *pair)?;
        }
        Ok(())
    }
}
