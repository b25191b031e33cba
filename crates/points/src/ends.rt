//! The ends of the blocks of a section's parts.

ghost use Rattle.std.specs.Prelude.{IfOk, OnOk};
ghost use Rattle.flow.specs.Skeletons.{Nil};
ghost use Rattle.flow.specs.Working.Parts.{skeleton_of, part_in_front};
ghost use Rattle.points.specs.Working.Ends.{AddsEnds, AreEndsAt};

use flow::skeleton::Part;
use source::memory::NoMemory;
use std::alloc::Global;

/// The ends of a part's blocks.
#[derive(Clone, Copy)]
pub struct Ends {
    /// The number after the points of its first block.
    pub middle: usize,
    /// The number after all its points.
    pub end: usize,
}

/// For each point of a whole section, the ends of the blocks of the part that it is the first point of.
pub fn ends_of(alloc: Global, parts: &[Part]) -> Result<Vec<Ends>, NoMemory>
    ensures { IfOk result (λ ends. AreEndsAt ends.items (skeleton_of parts.now) 0) }
{
    let mut ends = Vec::new(alloc);
    push_ends(parts, &mut ends)?;
    Ok(ends)
}

// Adds the ends of parts; the first point's number is the number of ends so far.
#[cycle(ends)]
fn push_ends(parts: &[Part], ends: &mut Vec<Ends>) -> Result<(), NoMemory>
    ensures { OnOk result (AddsEnds (skeleton_of parts.now) ends.old.items ends.new.items) }
{
    for part in parts {
        push_part(part, ends)?;
    }
    Ok(())
}

#[cycle(ends)]
fn push_part(part: &Part, ends: &mut Vec<Ends>) -> Result<(), NoMemory>
    ensures { OnOk result (AddsEnds (part_in_front part.now Nil) ends.old.items ends.new.items) }
{
    let n = ends.len();
    let inner = n + 1;
    // The end of a block is known only after it.
    ends.push(Ends {
        middle: inner,
        end: inner,
    })?;
    match part {
        Part::Point => {}
        Part::If(block, otherwise) => {
            push_ends(block, ends)?;
            let middle = ends.len();
            push_ends(otherwise, ends)?;
            let end = ends.len();
            ends[n] = Ends { middle, end };
        }
        Part::While(body) => {
            push_ends(body, ends)?;
            let end = ends.len();
            ends[n] = Ends { middle: end, end };
        }
    }
    Ok(())
}
