//! Formatting.

ghost use Rattle.std.specs.Prelude.{◌≤◌, ℕ, List, IfOk, IfErr, length};
ghost use Rattle.source.specs.declared.fault.Code.{Code};
ghost use Rattle.source.specs.Faults.{IsGiven};
ghost use Rattle.source.specs.Tokens.{seen};
ghost use Rattle.source.specs.Texts.{HasTokens, SOURCE_LIMIT};
ghost use Rattle.formatting.specs.Formatted.{IsFormatted, IsProgram, HasFault, IsRefusal, IsRefusedAt};

use crate::cut::{begins_comment, is_blank_byte, split_line, width, without_blanks};
use crate::kind::PieceKind;
use crate::laws::{one_layout, one_token_fault};
use crate::printer::Printer;
use lexer::lex;
use parser::parse;
use source::fault::Refusal;
use source::token::Token;
use std::alloc::{AllocError, Global};

// The text of these tokens in its layout.
fn lay_out(alloc: Global, text: &[u8], tokens: &[Token]) -> Result<Vec<u8>, AllocError>
    requires tokens { HasTokens text.now (seen tokens.now) }
    requires small { length text.now ≤ SOURCE_LIMIT }
    ensures { IfOk result (λ out. IsFormatted text.now out.items) }
{
    let mut printer = Printer::new(alloc);
    let mut rest = text;
    let mut next = tokens;
    'pieces: while let [b, more @ ..] = rest {
        if begins_comment(rest) {
            let (line, behind) = split_line(rest);
            printer.push(PieceKind::Comment, without_blanks(line))?;
            rest = behind;
            continue 'pieces;
        }
        if is_blank_byte(*b) {
            rest = more;
            continue 'pieces;
        }
        if *b == b'\n' {
            printer.note_feed();
            rest = more;
            continue 'pieces;
        }
        let [token, others @ ..] = next else {
            break 'pieces;
        };
        let (bytes, behind) = rest.split_at(width(token));
        printer.push(PieceKind::of(token), bytes)?;
        rest = behind;
        next = others;
    }
    printer.finish()
}

/// The text in the layout of `specs/Layout.antt`: the same tokens and comments, with other gaps between them. Comments
/// lose the blanks at their end. Any bytes may be given.
///
/// Time is linear in the length of the text and its layout, whose lines begin with two spaces for each block around
/// them. Memory is that of the tokens, the tree and the layout.
///
/// # Errors
///
/// A fault of the text (`E01`, `E02`, `E15`), or of its tokens if they have no right tree (`E03`, `E04`, `E18`): the
/// fault that the lexer and the parser report. Faults of names and types are not looked for. The only other error is a
/// failed allocation.
pub fn format(alloc: Global, text: &[u8]) -> Result<Vec<u8>, Refusal>
    // The result is the text's layout.
    ensures found { IfOk result (λ out. IsFormatted text.now out.items) }
    // Only a text whose tokens have a right tree gets a layout.
    ensures program { IfOk result (λ _. IsProgram text.now) }
    // Such a text gets its layout, unless memory runs out.
    ensures only { (out : List ℕ) → IsProgram text.now → IsFormatted text.now out → IsGiven (λ v. v.items) out result }
    // The fault is one of the text or of its tokens.
    ensures fault { IfErr result (IsRefusal text.now) }
    // A text that has a fault is refused with it, unless memory runs out.
    ensures refused { (code : Code) (start : ℕ) → HasFault text.now code start → IsRefusedAt code start result }
{
    one_token_fault();
    one_layout();
    let tokens = lex(alloc, text)?;
    let _tree = parse(alloc, &tokens)?;
    Ok(lay_out(alloc, text, &tokens)?)
}
