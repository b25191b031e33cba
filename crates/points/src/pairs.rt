//! The pairs of points of a section of which one follows the other.

ghost use Rattle.std.specs.Prelude.{◌≡◌, ◌++◌, IfOk, OnOk};
ghost use Rattle.flow.specs.Skeletons.{Nil};
ghost use Rattle.flow.specs.Flow.{head, pair_with, pairs_from, pairs};
ghost use Rattle.flow.specs.Working.Parts.{skeleton_of, part_in_front};
ghost use Rattle.points.specs.Working.Ends.{AreEndsAt};
ghost use Rattle.points.specs.Working.Points.{ArePairs};

use crate::ends::{Ends, ends_of};
use crate::table::Points;
use flow::skeleton::Part;
use source::memory::NoMemory;
use std::alloc::Global;

impl Points {
    /// The pairs of points of which the second follows the first.
    ///
    /// # Errors
    ///
    /// Out of memory.
    pub fn pairs(&self, alloc: Global) -> Result<Vec<(usize, usize)>, NoMemory>
        // In any section with these points, a pair is listed exactly if its second point follows its first.
        ensures followed { IfOk result (λ list. ArePairs self.now list.items) }
        // They are the pairs of the parts, in the order of their first points.
        ensures of_parts { IfOk result (λ list. list.items ≡ pairs (skeleton_of self.now.parts.items)) }
    {
        // By the law, the listed pairs are the flow of control.
        flow::laws::pairs_lead_between_points();
        let list = pairs_of(alloc, &self.parts)?;
        Ok(list)
    }
}

// The pairs of points of parts that are a whole section.
fn pairs_of(alloc: Global, parts: &[Part]) -> Result<Vec<(usize, usize)>, NoMemory>
    ensures { IfOk result (λ list. list.items ≡ pairs (skeleton_of parts.now)) }
{
    // Computed once, so that a block within many others isn't counted for each of them.
    let ends = ends_of(alloc, parts)?;
    let mut list = Vec::new(alloc);
    let pass = Pass { ends: &ends };
    pass.push_pairs(parts, 0, None, &mut list)?;
    Ok(list)
}

// The first point of these parts, which are numbered from `n`, or if they have none, the point that follows them.
fn first_point(parts: &[Part], n: usize, next: Option<usize>) -> Option<usize>
    ensures { result ≡ head (skeleton_of parts.now) n next }
{
    if parts.is_empty() { next } else { Some(n) }
}

fn push_pair(
    point: usize,
    next: Option<usize>,
    list: &mut Vec<(usize, usize)>,
) -> Result<(), NoMemory>
    ensures { OnOk result (list.new.items ≡ list.old.items ++ pair_with point next) }
{
    if let Some(next) = next {
        list.push((point, next))?;
    }
    Ok(())
}

// Appends the pairs of a point that either of two points may follow.
fn push_both(
    point: usize,
    first: Option<usize>,
    second: Option<usize>,
    list: &mut Vec<(usize, usize)>,
) -> Result<(), NoMemory>
    ensures { OnOk result (list.new.items ≡ (list.old.items ++ pair_with point first) ++ pair_with point second) }
{
    push_pair(point, first, list)?;
    push_pair(point, second, list)
}

// The pass over the parts of a section, given the ends of their blocks.
#[derive(Drop)]
struct Pass<'a> {
    ends: &'a [Ends],
}

impl<'a> Pass<'a> {
    // Appends the pairs of these parts, which are numbered from `n`. The point `next` follows them, if there is one.
    #[cycle(pairs)]
    fn push_pairs(
        &self,
        parts: &[Part],
        n: usize,
        next: Option<usize>,
        list: &mut Vec<(usize, usize)>,
    ) -> Result<(), NoMemory>
        requires { AreEndsAt self.now.ends.now (skeleton_of parts.now) n }
        ensures { OnOk result (list.new.items ≡ list.old.items ++ pairs_from (skeleton_of parts.now) n next) }
    {
        let mut at = n;
        for i in 0..parts.len() {
            let part = &parts[i];
            let end = self.ends[at].end;
            let follower = first_point(&parts[i + 1..], end, next);
            self.push_part(part, at, follower, list)?;
            at = end;
        }
        Ok(())
    }

    #[cycle(pairs)]
    fn push_part(
        &self,
        part: &Part,
        n: usize,
        next: Option<usize>,
        list: &mut Vec<(usize, usize)>,
    ) -> Result<(), NoMemory>
        requires { AreEndsAt self.now.ends.now (part_in_front part.now Nil) n }
        ensures { OnOk result (list.new.items ≡ list.old.items ++ pairs_from (part_in_front part.now Nil) n next) }
    {
        let middle = self.ends[n].middle;
        let inner = n + 1;
        match part {
            Part::Point => push_pair(n, next, list),
            Part::If(block, otherwise) => {
                let first = first_point(block, inner, next);
                let second = first_point(otherwise, middle, next);
                push_both(n, first, second, list)?;
                self.push_pairs(block, inner, next, list)?;
                self.push_pairs(otherwise, middle, next, list)
            }
            Part::While(body) => {
                push_both(n, first_point(body, inner, Some(n)), next, list)?;
                self.push_pairs(body, inner, Some(n), list)
            }
        }
    }
}
