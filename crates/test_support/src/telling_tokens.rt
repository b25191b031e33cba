//! The text on the tokens of a text.

use crate::reading::line_of;
use crate::told::Told;
use lexer::lex;
use source::memory::NoMemory;
use source::token::Token;
use std::alloc::Global;

/// Appends the kind and the content of a token.
fn push_token(out: &mut Told, token: &Token) {
    let text = &mut out.text;
    let grown = match token {
        Token::Name(_, name) => write!(text, "Name({name:?})"),
        Token::Int(_, value) => write!(text, "Int({value})"),
        Token::Large(number) => write!(text, "Int({})", number.value),
        Token::Word(_, word) => write!(text, "Word({word:?})"),
        Token::Mark(_, sign) => write!(text, "Mark({sign:?})"),
        Token::End(_) => text.push_str("End"),
    };
    out.note(grown);
}

/// The byte where the token ends.
fn end_of(token: &Token) -> usize {
    match token {
        Token::Name(start, name) => (*start as usize).saturating_add(name.len()),
        Token::Int(span, _) | Token::Word(span, _) | Token::Mark(span, _) => span.end as usize,
        Token::Large(number) => number.span.end as usize,
        Token::End(at) => *at as usize,
    }
}

/// Each token of the text, with its first byte and its end where `has_places` is true, and `;`; or the line of the
/// text's fault.
pub fn tokens_said(alloc: Global, text: &str, has_places: bool) -> Result<String, NoMemory> {
    let tokens = match lex(alloc, text.as_bytes()) {
        Ok(tokens) => tokens,
        Err(refusal) => return line_of(alloc, text, &refusal),
    };
    let mut out = Told::new(alloc);
    for token in &tokens {
        push_token(&mut out, token);
        if has_places {
            let grown = write!(&mut out.text, " {} {}", token.start(), end_of(token));
            out.note(grown);
        }
        out.push_str(";");
    }
    out.finish()
}
