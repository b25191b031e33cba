//! A declaration on one line. The one error is a refused growth.

ghost use Rattle.std.specs.Prelude.{◌≡◌, ◌++◌, ◌<◌, length, map, string_bytes, IfOk, OnOk};
ghost use Rattle.std.specs.Fmt.{decimal};
ghost use Rattle.lsp_texts.specs.Lines as lines;
ghost use Rattle.lsp_texts.specs.Names as names;

use crate::extents::{end_token, first_token};
use crate::names::sign_at;
use source::memory::NoMemory;
use source::token::{Sign, Token};
use std::alloc::{AllocError, Global};

/// Appends a number.
fn push_number(out: &mut String, number: u64) -> Result<(), AllocError>
    ensures { OnOk result (string_bytes out.new ≡ string_bytes out.old ++ decimal number) }
{
    write!(out, "{number}")
}

/// Appends a token as it is written, without leading zeros.
fn push_token(out: &mut String, token: &Token) -> Result<(), AllocError>
    ensures { OnOk result (string_bytes out.new ≡ string_bytes out.old ++ lines.token_text token.now) }
{
    match token {
        Token::Name(_, text) => out.push_str(text.as_str()),
        Token::Int(_, value) => push_number(out, u64::from(*value)),
        Token::Large(number) => push_number(out, number.value),
        Token::Word(_, word) => out.push_str(word.text()),
        Token::Mark(_, sign) => out.push_str(sign.text()),
        Token::End(_) => Ok(()),
    }
}

/// Whether no space follows this sign.
fn is_tight_behind(last: Option<Sign>) -> bool
    ensures { result ≡ lines.is_tight_behind last }
{
    matches!(last, Some(Sign::OpenParen | Sign::OpenBracket | Sign::Dot))
}

/// Whether no space stands between the signs `last` and `next`, because of `next`.
fn is_tight_before(last: Option<Sign>, next: Option<Sign>) -> bool
    ensures { result ≡ lines.is_tight_before last next }
{
    match next {
        Some(Sign::Colon) => last != Some(Sign::CloseParen),
        Some(
            Sign::OpenParen
            | Sign::CloseParen
            | Sign::OpenBracket
            | Sign::CloseBracket
            | Sign::Comma
            | Sign::Dot,
        ) => true,
        _ => false,
    }
}

/// The text between two tokens, given the signs that they are, if they are signs.
fn gap(last: Option<Sign>, next: Option<Sign>) -> &'static str
    ensures { result.now ≡ lines.gap last next }
{
    if is_tight_behind(last) || is_tight_before(last, next) {
        ""
    } else {
        " "
    }
}

/// The tokens of a text, and the first token of a line.
#[derive(Clone, Copy)]
struct Line<'a> {
    tokens: &'a [Token],
    first: usize,
}

impl Line<'_> {
    ghost use Rattle.std.specs.Prelude.{◌≡◌, ◌++◌, slice_get, string_bytes, OnOk};
    ghost use Rattle.lsp_texts.specs.Lines as lines;

    /// The text before the token `at`.
    fn gap_before(&self, at: usize) -> &'static str
        ensures { result.now ≡ lines.gap_before self.now.tokens.now self.now.first at }
    {
        if at == self.first {
            return "";
        }
        gap(
            sign_at(self.tokens, at.saturating_sub(1)),
            sign_at(self.tokens, at),
        )
    }

    /// Appends the token `at`.
    fn push_at(&self, out: &mut String, at: usize) -> Result<(), AllocError>
        ensures { OnOk result (string_bytes out.new
            ≡ string_bytes out.old ++ lines.text_in (slice_get self.now.tokens.now at)) }
    {
        match self.tokens.get(at) {
            Some(token) => push_token(out, token),
            None => Ok(()),
        }
    }

    /// Appends the token `at` after the text before it.
    fn push_piece(&self, out: &mut String, at: usize) -> Result<(), AllocError>
        ensures { OnOk result (string_bytes out.new
            ≡ string_bytes out.old ++ lines.piece self.now.tokens.now self.now.first at) }
    {
        out.push_str(self.gap_before(at))?;
        self.push_at(out, at)
    }

    /// Appends the tokens from the first up to `end`.
    fn push(&self, out: &mut String, end: usize) -> Result<(), AllocError>
        ensures { OnOk result (string_bytes out.new
            ≡ string_bytes out.old ++ lines.line_between self.now.tokens.now self.now.first end) }
    {
        for at in self.first..end {
            self.push_piece(out, at)?;
        }
        Ok(())
    }
}

/// The declaration of the name that the token `declared` is, on one line: from its first word on, without its value,
/// its body and its last sign.
///
/// # Errors
///
/// `NoMemory`: a growth was refused.
pub fn declaration_text(
    alloc: Global,
    tokens: &[Token],
    declared: usize,
) -> Result<String, NoMemory>
    requires { declared < length tokens.now }
    ensures { IfOk result (λ text. string_bytes text ≡ lines.declaration_line tokens.now declared) }
{
    let line = Line {
        tokens,
        first: first_token(tokens, declared),
    };
    let mut text = String::new(alloc);
    line.push(&mut text, end_token(tokens, declared))?;
    Ok(text)
}
