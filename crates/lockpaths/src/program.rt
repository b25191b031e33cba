//! The lock paths of a program.

ghost use Rattle.std.specs.Prelude.{◌≡◌, ◌<◌, length, None, IfErr, IfOk, OnOk};
ghost use Rattle.std.specs.List.{All, AllZip};
ghost use Rattle.source.specs.Mistakes.{least_of};
ghost use Rattle.core_lang.specs.WellFormed.{IsWellFormed};
ghost use Rattle.locks.specs.Faults.{HasNoFault, IsLeast, IsRefusal};
ghost use Rattle.lockpaths.specs.Working.Gathering.{gathered_in};
ghost use Rattle.lockpaths.specs.Working.Faulted.{faults_of};
ghost use Rattle.lockpaths.specs.Working.Numbers.{IsSetOf, cut, AreRising, IsComplete, IsFinished, AreEach};
ghost use Rattle.lockpaths.specs.Paths.{ArePaths};

use crate::finder::Finder;
use crate::forms::Forms;
use crate::found::PathCollector;
use crate::table::{Paths, SectionPaths};
use core_lang::tree::Section;
use core_lang::typed::Typed;
use flow::points::points_of;
use locks::path_set::PathSet;
use source::fault::{Fault, Refusal};
use source::memory::NoMemory;
use source::mistake::Mistake;
use std::alloc::Global;

// The lock paths of a section, after the least fault of those before it.
fn found_in(
    alloc: Global,
    program: &Typed,
    section: &Section,
    least: Option<Mistake>,
) -> Result<PathCollector, NoMemory>
    ensures { IfOk result (λ found. found.gathered ≡ gathered_in program.now section.now least) }
{
    let points = points_of(alloc, section)?;
    let forms = Forms::of(alloc, section, &points)?;
    let finder = Finder { program, section };
    let mut found = PathCollector::new(alloc, forms, least);
    finder.points(&points, &mut found)?;
    finder.owners(&points, &mut found)?;
    Ok(found)
}

// The set of these numbers.
fn set_of(numbers: &[u8]) -> PathSet
    requires { All (λ n. n < 64) numbers.now }
    ensures { IsSetOf result numbers.now }
{
    let mut set = PathSet::new();
    for number in numbers {
        set = set.with(*number as usize);
    }
    set
}

// A set for each point, whose numbers end where the next point's begin.
fn sets_of(alloc: Global, numbers: &[u8], ends: &[usize]) -> Result<Vec<PathSet>, NoMemory>
    requires small { All (λ n. n < 64) numbers.now }
    requires rising { AreRising 0 (length numbers.now) ends.now }
    ensures { IfOk result (λ sets. AllZip IsSetOf sets.items (cut 0 numbers.now ends.now)) }
{
    let mut sets = Vec::with_capacity(alloc, ends.len())?;
    let mut start = 0;
    for end in ends {
        let set = set_of(&numbers[start..*end]);
        sets.push(set)?;
        start = *end;
    }
    Ok(sets)
}

// The lock paths of a section without a fault, with a set for each point.
fn section_paths(alloc: Global, found: PathCollector) -> Result<SectionPaths, NoMemory>
    requires { IsComplete found.gathered }
    ensures { IfOk result (IsFinished found.gathered) }
{
    let paths = found.lock_paths()?;
    let used = sets_of(alloc, &found.numbers, &found.ends)?;
    Ok(SectionPaths {
        paths,
        used,
        of_access: found.numbers,
    })
}

// The lock paths of each section up to the first fault, and the least fault of all.
fn gather(alloc: Global, program: &Typed) -> Result<(Vec<SectionPaths>, Option<Mistake>), NoMemory>
    ensures least { IfOk result (λ r. r.1 ≡ least_of None (faults_of program.now)) }
    ensures found { IfOk result (λ r. r.1 ≡ None → AreEach program.now program.now.sections.items r.0.items) }
{
    // By the law, the numbers in the sets stand for one path each.
    locks::laws::each_path_once();
    let mut sections = Vec::with_capacity(alloc, program.sections.len())?;
    let mut least = None;
    for section in &program.sections {
        let found = found_in(alloc, program, section, least)?;
        least = found.least;
        if least.is_none() {
            let paths = section_paths(alloc, found)?;
            sections.push(paths)?;
        }
    }
    Ok((sections, least))
}

/// The lock paths of a program's sections, or their least fault.
///
/// # Errors
///
/// - `E13` at the first name of an access under an object's lock through a base that can change, unless the section
///   takes the lock's class whole, and at a `var` that a `where` names.
/// - `E15` at the first name of the access that gives a section its 65th lock path.
/// - Out of memory.
pub fn paths(alloc: Global, program: &Typed) -> Result<Paths, Refusal>
    requires { IsWellFormed program.now }
    // The result has the lock paths of each section, of each point and of each access.
    ensures paths { IfOk result (ArePaths program.now) }
    // A program with a fault is not accepted.
    ensures faultless { OnOk result (HasNoFault program.now) }
    // The fault is a fault of the program.
    ensures fault { IfErr result (IsRefusal program.now) }
    // No fault of the program comes before it.
    ensures least { IfErr result (IsLeast program.now) }
{
    // By the law, a path that is not found again is new, and so may be one too many.
    locks::laws::each_path_once();
    let (sections, least) = match gather(alloc, program) {
        Ok(found) => found,
        Err(NoMemory) => return Err(Refusal::NoMemory),
    };
    match least {
        Some(fault) => Err(Refusal::Fault(Fault::at(alloc, fault.code, fault.start))),
        None => Ok(Paths { sections }),
    }
}
