//! The locks that are acquired before the statements of a program. The one error is a refused growth.

ghost use Rattle.std.specs.Prelude.{◌≡◌, ◌<◌, length, IfOk, OnOk};
ghost use Rattle.lockpaths.specs.Paths.{ArePaths};
ghost use Rattle.language_server.specs.Takes.{in_order, takes_of};
ghost use Rattle.language_server.specs.Working.Sets.{told_in, numbered_takes, AddsTakes, ArePathTexts};

use crate::named_section::NamedSection;
use code::path_texts;
use core_lang::typed::Typed;
use flow::points::points_of;
use lockpaths::table::Paths;
use lowering::compiled::Program;
use source::memory::NoMemory;
use std::alloc::Global;
use std::collections::BTreeSet;

/// The locks that are acquired before a statement.
#[derive(PartialEq, Eq, PartialOrd, Ord, Drop)]
pub struct Take {
    /// The start of the statement in the text, in bytes.
    pub start: usize,
    /// The word `take`, and the lock paths.
    pub label: String,
}

/// The texts of the lock paths of the section with the number `number`.
pub fn texts_of_paths(
    alloc: Global,
    program: &Typed,
    paths: &Paths,
    number: usize,
) -> Result<Vec<String>, NoMemory>
    requires paths { ArePaths program.now paths.now }
    requires here { number < length program.now.sections.items }
    ensures { IfOk result (ArePathTexts program.now number) }
{
    path_texts(
        alloc,
        program,
        &program.sections[number],
        &paths.sections[number].paths,
    )
}

/// Inserts the takes of the section with the number `number`.
fn add_section(
    alloc: Global,
    program: &Program,
    found: &mut BTreeSet<Take>,
    number: usize,
) -> Result<(), NoMemory>
    requires { number < length program.now.program.sections.items }
    ensures { OnOk result (AddsTakes (numbered_takes program.now number) found.old found.new) }
{
    let typed = program.expanded();
    let section = &typed.sections[number];
    let paths = texts_of_paths(alloc, typed, program.paths(), number)?;
    let points = points_of(alloc, section)?;
    let of_section = NamedSection {
        program: typed,
        section,
        paths: &paths,
    };
    of_section.add_takes(alloc, found, &points, program.lists_before(number))
}

/// The takes of a program, in the order of the text.
pub fn takes(alloc: Global, program: &Program) -> Result<BTreeSet<Take>, NoMemory>
    ensures { IfOk result (λ found. told_in found ≡ in_order (takes_of program.now)) }
{
    let mut found = BTreeSet::new(alloc);
    for number in 0..program.expanded().sections.len() {
        add_section(alloc, program, &mut found, number)?;
    }
    Ok(found)
}
