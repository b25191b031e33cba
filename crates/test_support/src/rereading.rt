//! Trees that are printed and read again.

use crate::reading::read;
use crate::telling_tokens::tokens_said;
use source::memory::NoMemory;
use std::alloc::Global;
use syntax::print_tree;
use syntax::tree::Tree;

/// The difference after the tree of the text is printed and read again: the line of a fault, or what is then printed,
/// or the tokens without their places, since a printed tree keeps each token. `same`, where nothing differs.
pub fn difference(alloc: Global, text: &str, tree: &Tree) -> Result<String, NoMemory> {
    let printed = print_tree(alloc, tree)?;
    let again = match read(alloc, printed.as_str())? {
        Ok(again) => again,
        Err(line) => return Ok(line),
    };
    let printed_again = print_tree(alloc, &again)?;
    if printed_again != printed {
        return Ok(printed_again);
    }
    let tokens = tokens_said(alloc, printed.as_str(), false)?;
    if tokens != tokens_said(alloc, text, false)? {
        return Ok(tokens);
    }
    Ok(String::from_str(alloc, "same")?)
}
