//! The reading of a text by the lexer and the parser, and the line of its fault.

ghost use Rattle.std.specs.Prelude.{◌≡◌, IfOk};
ghost use Rattle.syntax.specs.Returns.{ReturnsRight};
ghost use Rattle.syntax.specs.Views.{tree_of};
ghost use Rattle.test_support.specs.Lines.{IsLineOf};

use lexer::lex;
use parser::parse;
use source::fault::{Fault, Refusal};
use source::line::fault_line;
use source::memory::NoMemory;
use std::alloc::Global;
use syntax::tree::Tree;

/// The line of the fault for which a pass refuses the text, in a file named `F`.
pub fn line_of(alloc: Global, text: &str, refusal: &Refusal) -> Result<String, NoMemory>
    ensures { (fault : Fault) → refusal.now ≡ Refusal.Fault fault → IfOk result (IsLineOf text.now fault) }
{
    match refusal {
        Refusal::Fault(fault) => fault_line(alloc, "F", text.as_bytes(), fault),
        Refusal::NoMemory => Err(NoMemory),
    }
}

/// The tree of the text, or the line of its fault.
pub fn read(alloc: Global, text: &str) -> Result<Result<Tree, String>, NoMemory>
    ensures { IfOk result (λ read. IfOk read (λ tree. ReturnsRight (tree_of tree))) }
{
    match lex(alloc, text.as_bytes()) {
        Ok(tokens) => match parse(alloc, &tokens) {
            Ok(tree) => Ok(Ok(tree)),
            Err(refusal) => Ok(Err(line_of(alloc, text, &refusal)?)),
        },
        Err(refusal) => Ok(Err(line_of(alloc, text, &refusal)?)),
    }
}
