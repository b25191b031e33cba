//! The number of points of parts.

ghost use Rattle.std.specs.Prelude.{◌≡◌, ◌<◌, ◌^◌};
ghost use Rattle.flow.specs.Skeletons.{count, Nil};
ghost use Rattle.flow.specs.Working.Parts.{skeleton_of, part_in_front};

use flow::skeleton::Part;

/// The number of points of parts.
#[cycle(points)]
pub fn points_in(parts: &[Part]) -> usize
    requires { count (skeleton_of parts.now) < 2 ^ 64 }
    ensures { result ≡ count (skeleton_of parts.now) }
{
    let mut points: usize = 0;
    for part in parts {
        points += points_of(part);
    }
    points
}

#[cycle(points)]
fn points_of(part: &Part) -> usize
    requires { count (part_in_front part.now Nil) < 2 ^ 64 }
    ensures { result ≡ count (part_in_front part.now Nil) }
{
    match part {
        Part::Point => 1,
        Part::If(block, otherwise) => 1 + points_in(block) + points_in(otherwise),
        Part::While(body) => 1 + points_in(body),
    }
}
