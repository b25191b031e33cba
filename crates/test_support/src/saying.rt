//! The answers about a text.

ghost use Rattle.std.specs.Prelude.{IfOk};
ghost use Rattle.core_lang.specs.WellFormed.{IsWellFormed};
ghost use Rattle.lockpaths.specs.Paths.{ArePaths};
ghost use Rattle.syntax.specs.Returns.{ReturnsRight};
ghost use Rattle.syntax.specs.Views.{tree_of};

use crate::analysing::Analysed;
use crate::asked::Asked;
use crate::engines::{said_by, without_line_feed};
use crate::reading::{line_of, read};
use crate::rereading::difference;
use crate::telling_tokens::tokens_said;
use compiler::compile;
use core_lang::typed::Typed;
use core_lang_helpers::program::expand;
use lockpaths::paths;
use lockpaths::table::Paths;
use source::memory::NoMemory;
use std::alloc::Global;
use syntax::print_tree;
use syntax::tree::Tree;
use types::program::check;

/// The expanded program that the tree of the text means, with its lock paths; or the line of the text's fault.
fn analysed(
    alloc: Global,
    text: &str,
    tree: &Tree,
) -> Result<Result<(Typed, Paths), String>, NoMemory>
    requires { ReturnsRight (tree_of tree.now) }
    ensures program { IfOk result (λ read. IfOk read (λ known. IsWellFormed known.0)) }
    ensures paths { IfOk result (λ read. IfOk read (λ known. ArePaths known.0 known.1)) }
{
    let accepted = match check(alloc, tree) {
        Ok(program) => program,
        Err(refusal) => return Ok(Err(line_of(alloc, text, &refusal)?)),
    };
    let program = expand(alloc, &accepted)?;
    match paths(alloc, &program) {
        Ok(paths) => Ok(Ok((program, paths))),
        Err(refusal) => Ok(Err(line_of(alloc, text, &refusal)?)),
    }
}

/// The answer to a question about the lock paths of the text with this tree: for `points` on its points, otherwise on
/// the lock paths; or the line of the text's fault, where the order of its classes is not judged.
fn of_paths(alloc: Global, asked: Asked<'_>, text: &str, tree: &Tree) -> Result<String, NoMemory>
    requires { ReturnsRight (tree_of tree.now) }
{
    let (program, paths) = match analysed(alloc, text, tree)? {
        Ok(known) => known,
        Err(line) => return Ok(line),
    };
    let program = &program;
    let told = Analysed { text, program };
    match asked {
        Asked::Points => told.points_said(alloc, &paths),
        _ => told.paths_said(alloc, &paths),
    }
}

/// The answer about the order of the lock classes of the text and what it means for the points, or the line of its
/// fault.
fn of_order(alloc: Global, text: &str) -> Result<String, NoMemory> {
    let program = match compile(alloc, text.as_bytes()) {
        Ok(program) => program,
        Err(refusal) => return line_of(alloc, text, &refusal),
    };
    let told = Analysed {
        text,
        program: program.expanded(),
    };
    told.order_said(alloc, program.paths(), program.ranks())
}

/// The answer to a question about the tree of the text, or the line of its fault.
fn of_tree(alloc: Global, asked: Asked<'_>, text: &str) -> Result<String, NoMemory> {
    let tree = match read(alloc, text)? {
        Ok(tree) => tree,
        Err(line) => return Ok(line),
    };
    match asked {
        Asked::Tree => Ok(String::from_str(alloc, "tree")?),
        Asked::Print => {
            let printed = print_tree(alloc, &tree)?;
            Ok(String::from_str(alloc, without_line_feed(printed.as_str()))?)
        }
        Asked::Again => difference(alloc, text, &tree),
        _ => of_paths(alloc, asked, text, &tree),
    }
}

/// The answer to a question about the text.
pub fn said_of(alloc: Global, asked: Asked<'_>, text: &str) -> Result<String, NoMemory> {
    match asked {
        Asked::Engine(engine) => said_by(alloc, engine, text),
        Asked::Tokens => tokens_said(alloc, text, true),
        Asked::Order => of_order(alloc, text),
        _ => of_tree(alloc, asked, text),
    }
}
