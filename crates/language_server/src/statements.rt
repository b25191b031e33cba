//! The statement at a position.

ghost use Rattle.std.specs.Prelude.{◌≡◌, max, map, Some, unwrap_or, IfOk};
ghost use Rattle.flow.specs.Working.PointList.{point_at};
ghost use Rattle.language_server.specs.Statements.{statement_at};
ghost use Rattle.source.specs.Texts.{is_between};
ghost use Rattle.language_server.specs.Working.Latest.{latest_at, latest_in};

use core_lang::typed::Typed;
use flow::points::{PointRef, points_of};
use lsp_texts::{Position, offset_of};
use source::memory::NoMemory;
use std::alloc::Global;

/// The bytes from `first` to `last`, both included.
#[derive(Clone, Copy)]
struct Stretch {
    first: usize,
    last: usize,
}

impl Stretch {
    ghost use Rattle.std.specs.Prelude.{◌≡◌};
    ghost use Rattle.source.specs.Texts.{is_between};

    // Whether `start` is in the range.
    fn has(self, start: usize) -> bool
        ensures { result ≡ is_between self.first self.last start }
    {
        self.first <= start && start <= self.last
    }
}

/// The greater of two bytes, of which the first may be missing.
fn later(found: Option<usize>, start: usize) -> usize
    ensures { result ≡ max start (unwrap_or found 0) }
{
    start.max(found.unwrap_or(0))
}

/// The last start of `points` in the range, or `found` where that is later.
fn last_of(found: Option<usize>, stretch: Stretch, points: &[PointRef<'_>]) -> Option<usize>
    ensures { result ≡ latest_at stretch found (map point_at points.now) }
{
    let mut last = found;
    for point in points {
        let start = point.start();
        if stretch.has(start) {
            last = Some(later(last, start));
        }
    }
    last
}

/// The last start of a program's statements in the range.
fn last_in(alloc: Global, program: &Typed, stretch: Stretch) -> Result<Option<usize>, NoMemory>
    ensures { IfOk result (λ start. start ≡ latest_in stretch program.now) }
{
    let mut last = None;
    for section in &program.sections {
        let points = points_of(alloc, section)?;
        last = last_of(last, stretch, &points);
    }
    Ok(last)
}

/// The start of the statement at a position, if there is one: the last one that starts in the position's line no later
/// than the position.
pub fn statement(
    alloc: Global,
    text: &[u8],
    program: &Typed,
    position: Position,
) -> Result<Option<usize>, NoMemory>
    ensures { IfOk result (λ start. start ≡ statement_at text.now program.now position) }
{
    let line = Position {
        line: position.line,
        unit: 0,
    };
    let stretch = Stretch {
        first: offset_of(text, line),
        last: offset_of(text, position),
    };
    last_in(alloc, program, stretch)
}
