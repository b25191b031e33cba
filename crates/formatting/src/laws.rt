//! Laws of the layout.

ghost use Rattle.std.specs.Prelude.{◌≡◌, ◌≤◌, ℕ, List, length};
ghost use Rattle.source.specs.Texts.{SOURCE_LIMIT};
ghost use Rattle.formatting.specs.Formatted.{IsFormatted, IsProgram, KeepsTokens};
ghost use Rattle.formatting.specs.Working.Faults.{HasOneFault, HasFaultOrTree};

/// A law: a formatted text has the same tokens and the same comments as the text, byte for byte and in the same order.
pub fn keeps_tokens()
    ensures { (text out : List ℕ) → IsFormatted text out → KeepsTokens text out }
{}

/// A law: a formatted text is its own layout.
pub fn formatted_twice()
    ensures { (text out : List ℕ) → IsFormatted text out → IsFormatted out out }
{}

/// A law: a formatted program is a program, unless it is over the limit.
pub fn keeps_program()
    ensures { (text out : List ℕ) → IsProgram text → IsFormatted text out → length out ≤ SOURCE_LIMIT → IsProgram out }
{
    lexer::one_list();
}

/// A law: a text has at most one layout.
pub fn one_layout()
    ensures { (text a b : List ℕ) → IsFormatted text a → IsFormatted text b → a ≡ b }
{
    lexer::one_list();
}

/// A law: the tokens of a text have at most one fault, and none if they have a right tree.
pub fn one_token_fault()
    ensures one { (text : List ℕ) → HasOneFault text }
    ensures never { (text : List ℕ) → HasFaultOrTree text }
{
    lexer::one_list();
    parser::one_tree();
    parser::one_unexpected();
    parser::one_too_deep();
    parser::one_misplaced();
    parser::never_both();
}
