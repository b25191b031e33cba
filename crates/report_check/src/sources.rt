//! What `check --source` writes of a place: the helper that has it, and the line of the source. The only error is a
//! failed allocation.

ghost use Rattle.std.specs.Prelude.{◌≡◌, OnOk, IfOk, map};
ghost use Rattle.std.proofs.Props.{props};
ghost use Rattle.flow.specs.Working.PointList.{point_at};
ghost use Rattle.rope.specs.Working.Ropes.{AddsTo};
ghost use Rattle.report_check.specs.Sources.{in_helper, source_line};
ghost use Rattle.report_check.specs.Working.HelperIndexes.{IsIndexOf, IsWithPoints};

use core_lang::tree::Section;
use explanation::push_source_line;
use flow::points::{PointRef, points_of};
use indexmap::IndexMap;
use rope::Rope;
use source::memory::NoMemory;
use std::alloc::{AllocError, Global};

/// Puts the helper at the place of each of these points.
fn put_at<'a>(
    index: &mut IndexMap<usize, &'a Section>,
    points: &[PointRef<'_>],
    helper: &'a Section,
) -> Result<(), AllocError>
    ensures { OnOk result (IsWithPoints (map point_at points.now) helper.now index.old index.new) }
{
    for point in points {
        index.insert(point.start(), helper)?;
    }
    Ok(())
}

/// For each place the first helper that has it.
fn index_by_place<'a>(
    alloc: Global,
    helpers: &'a [Section],
) -> Result<IndexMap<usize, &'a Section>, NoMemory>
    ensures { IfOk result (IsIndexOf helpers.now) }
{
    let mut index = IndexMap::new(alloc);
    // from the last one on, so that the first helper of a place is the one that stays
    for helper in helpers.iter().rev() {
        let points = points_of(alloc, helper)?;
        put_at(&mut index, &points, helper)?;
    }
    Ok(index)
}

/// A program's text and its helpers.
#[derive(Drop)]
pub(crate) struct Sources<'a> {
    alloc: Global,
    text: &'a [u8],
    helpers: &'a [Section],
    // The helper of each place. The helpers are visited once for the lookups of many places.
    index: IndexMap<usize, &'a Section>,
    ghost indexed: { IsIndexOf helpers.now index } by { Prim.hlevel props },
}

impl<'a> Sources<'a> {
    /// The sources of `text`, with these helpers.
    pub(crate) fn of(
        alloc: Global,
        text: &'a [u8],
        helpers: &'a [Section],
    ) -> Result<Sources<'a>, NoMemory>
        ensures text { IfOk result (λ sources. sources.text.now ≡ text.entry.now) }
        ensures helpers { IfOk result (λ sources. sources.helpers.now ≡ helpers.entry.now) }
    {
        let index = index_by_place(alloc, helpers)?;
        Ok(Sources {
            alloc,
            text,
            helpers,
            index,
        })
    }

    /// Appends the helper that has the place, if one has.
    pub(crate) fn push_helper(&self, out: &mut Rope, start: usize) -> Result<(), AllocError>
        ensures { OnOk result (AddsTo (in_helper self.now.helpers.now start) out.old out.new) }
    {
        match self.index.get(&start) {
            Some(helper) => {
                out.push_str(" in ")?;
                out.push_str(helper.name.as_str())
            }
            None => Ok(()),
        }
    }

    /// Appends the line of the source at the place.
    pub(crate) fn push_line(&self, out: &mut Rope, start: usize) -> Result<(), AllocError>
        ensures { OnOk result (AddsTo (source_line self.now.text.now start) out.old out.new) }
    {
        let mut line = String::new(self.alloc);
        push_source_line(&mut line, self.text, start)?;
        out.push_str(line.as_str())
    }
}
