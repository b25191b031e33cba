//! The further faults of a text.

ghost use Rattle.std.specs.Prelude.{◌≡◌, IfOk, map};
ghost use Rattle.explanation.specs.Further.{further_of};
ghost use Rattle.resolution.specs.Working.Findings.{mistake_of};
ghost use Rattle.explanation_faults.specs.Working.Others.{differ, others_of};

use explanation::Further;
use resolution::finding::{Finding, Firsts};
use source::memory::NoMemory;
use source::mistake::Mistake;
use std::alloc::Global;

/// Whether two faults differ in code or place.
fn differ(a: Mistake, b: Mistake) -> bool
    ensures { result ≡ differ a b }
{
    a.precedes(b) || b.precedes(a)
}

/// The fault without its reason.
fn mistake_of(found: Finding) -> Mistake
    ensures { result ≡ mistake_of found }
{
    Mistake {
        code: found.code,
        start: found.start,
    }
}

/// The faults without their reasons.
fn mistakes_of(alloc: Global, found: &[Finding]) -> Result<Vec<Mistake>, NoMemory>
    ensures { IfOk result (λ mistakes. mistakes.items ≡ map mistake_of found.now) }
{
    let mut mistakes = Vec::new(alloc);
    for one in found {
        mistakes.push(mistake_of(*one))?;
    }
    Ok(mistakes)
}

/// The faults after the first, if the first is `fault`; otherwise none.
pub fn others_of(alloc: Global, firsts: &Firsts, fault: Mistake) -> Result<Further, NoMemory>
    ensures { IfOk result (λ told. further_of told ≡ others_of fault firsts.now.more firsts.now.kept) }
{
    let Some((first, others)) = firsts.kept().split_first() else {
        return Ok(Further::none(alloc));
    };
    if differ(mistake_of(*first), fault) {
        return Ok(Further::none(alloc));
    }
    Ok(Further {
        faults: mistakes_of(alloc, others)?,
        has_more: firsts.has_more(),
    })
}
