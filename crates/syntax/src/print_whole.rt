//! Writes the text of a tree.

ghost use Rattle.std.specs.Prelude.{◌≡◌, IfOk, string_bytes};
ghost use Rattle.syntax.specs.Views.{tree_of};
ghost use Rattle.syntax.specs.Working.Bare.{HasTextIfAny};
ghost use Rattle.syntax.specs.Working.Printing.{tree_text};

use crate::print_decl::push_decls;
use crate::printer::Printer;
use crate::tree::Tree;
use source::memory::NoMemory;
use std::alloc::Global;

/// The text of `tree`, one statement a line, indented by its depth.
///
/// The only error is a failed allocation.
pub fn print_tree(alloc: Global, tree: &Tree) -> Result<String, NoMemory>
    // The text, byte for byte.
    ensures text { IfOk result (λ printed. string_bytes printed ≡ tree_text (tree_of tree.now)) }
    // If any text has this tree, the printed text has it too, except for positions.
    ensures same { IfOk result (λ printed. HasTextIfAny (string_bytes printed) (tree_of tree.now)) }
{
    let mut out = Printer::new(alloc);
    push_decls(&mut out, &tree.decls);
    out.finish()
}
