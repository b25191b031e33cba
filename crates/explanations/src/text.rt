//! The warnings of a text.

ghost use Rattle.std.specs.Prelude.{IfOk, map};
ghost use Rattle.explanation.specs.Warnings.{warning_of};
ghost use Rattle.explanations.specs.TextWarnings.{AreTextWarnings};
ghost use Rattle.lockpaths.specs.Paths.{ArePaths};

use crate::listed::ListedClasses;
use crate::warnings::program_warnings;
use explanation::Warning;
use lexer::lex;
use parser::{find_tree, one_tree};
use source::fault::Refusal;
use source::memory::NoMemory;
use std::alloc::Global;

/// The warnings on the program that `text` spells, in the order of the text, and then those on the classes that its
/// sections list; none where it does not spell a program.
///
/// # Errors
///
/// `NoMemory`: a growth was refused.
pub fn text_warnings(
    alloc: Global,
    text: &[u8],
    listed: &ListedClasses<'_>,
) -> Result<Vec<Warning>, NoMemory>
    requires { ArePaths listed.now.program.now listed.now.paths.now }
    ensures { IfOk result
        (λ warnings. AreTextWarnings text.now listed.now.program.now (map warning_of warnings.items)) }
{
    one_tree();
    let tokens = match lex(alloc, text) {
        Ok(tokens) => tokens,
        Err(Refusal::Fault(_)) => return Ok(Vec::new(alloc)),
        Err(Refusal::NoMemory) => return Err(NoMemory),
    };
    let Some(tree) = find_tree(alloc, &tokens)? else {
        return Ok(Vec::new(alloc));
    };
    let mut warnings = program_warnings(alloc, &tree)?;
    listed.push(&tree.decls, &mut warnings)?;
    Ok(warnings)
}
