//! Cuts lines, comments and tokens out of a text.

ghost use Rattle.std.specs.Prelude.{◌≡◌, ◌-◌};
ghost use Rattle.source.specs.Tokens.{seen_token};
ghost use Rattle.source.specs.Texts.{is_in_line};
ghost use Rattle.lexer.specs.Working.Reading.{run_of, after_run};
ghost use Rattle.formatting.specs.Pieces.{is_blank, trimmed};
ghost use Rattle.formatting.specs.Working.Cutting.{begins_comment};

use source::token::Token;

/// Whether the byte is a space, a tab or a carriage return.
pub fn is_blank_byte(b: u8) -> bool
    ensures { result ≡ is_blank b }
{
    matches!(b, b' ' | b'\t' | b'\r')
}

/// Whether the text begins with `//`.
pub fn begins_comment(text: &[u8]) -> bool
    ensures { result ≡ begins_comment text.now }
{
    matches!(text, [b'/', b'/', ..])
}

// The next line feed, and what follows it.
fn after_line(text: &[u8]) -> &[u8]
    ensures { result.now ≡ after_run is_in_line text.now }
{
    let mut rest = text;
    'run: while let [b, more @ ..] = rest {
        if *b == b'\n' {
            return rest;
        }
        rest = more;
    }
    rest
}

/// The bytes up to the next line feed or the end, and the others.
#[tactic(auto, using(crate::proofs::Cuts::run_front, crate::proofs::Cuts::run_back, crate::proofs::Cuts::run_le))]
pub fn split_line(text: &[u8]) -> (&[u8], &[u8])
    ensures line { result.0.now ≡ run_of is_in_line text.now }
    ensures rest { result.1.now ≡ after_run is_in_line text.now }
{
    let rest = after_line(text);
    text.split_at(text.len() - rest.len())
}

/// The bytes without the blanks at their end.
pub fn without_blanks(line: &[u8]) -> &[u8]
    ensures { result.now ≡ trimmed line.now }
{
    let mut rest = line;
    'blanks: while let [front @ .., b] = rest {
        if !is_blank_byte(*b) {
            return rest;
        }
        rest = front;
    }
    rest
}

/// The number of bytes of a token.
pub fn width(token: &Token) -> usize
    ensures { result ≡ (seen_token token.now).span.end - (seen_token token.now).span.start }
{
    match token {
        Token::Name(_, text) => text.as_str().len(),
        Token::Int(span, _) => span.end.saturating_sub(span.start) as usize,
        Token::Large(number) => number.span.end.saturating_sub(number.span.start) as usize,
        Token::Word(span, _) => span.end.saturating_sub(span.start) as usize,
        Token::Mark(span, _) => span.end.saturating_sub(span.start) as usize,
        Token::End(_) => 0,
    }
}
