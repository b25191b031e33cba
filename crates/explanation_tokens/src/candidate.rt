//! The kinds of tokens that may be tried at a place.

ghost use Rattle.std.specs.Prelude.{◌≡◌, ◌+◌, IfOk, OnOk};
ghost use Rattle.source.specs.Tokens.{seen_token};
ghost use Rattle.locks.specs.Texts.{AddsText};
ghost use Rattle.explanation_tokens.specs.Expected.{candidate_text, candidate_texts, token_at};

use source::span::Span;
use source::token::{Keyword, Sign, Token};
use std::alloc::{AllocError, Global};
use std::rc::RcStr;

/// A kind of token.
#[derive(Clone, Copy)]
pub enum Candidate {
    /// A name.
    Name,
    /// A number.
    Number,
    /// A reserved word.
    Word(Keyword),
    /// A sign.
    Mark(Sign),
}

impl Candidate {
    /// A token of this kind, at this byte.
    pub fn token(self, alloc: Global, span: Span) -> Result<Token, AllocError>
        requires { span.end ≡ span.start + 1 }
        ensures { IfOk result (λ token. seen_token token ≡ token_at self span.start) }
    {
        Ok(match self {
            Candidate::Name => Token::Name(span.start, RcStr::from_str(alloc, "a")?),
            Candidate::Number => Token::Int(span, 0),
            Candidate::Word(word) => Token::Word(span, word),
            Candidate::Mark(sign) => Token::Mark(span, sign),
        })
    }

    fn push(self, out: &mut String) -> Result<(), AllocError>
        ensures { OnOk result (AddsText (candidate_text self) out.old out.new) }
    {
        match self {
            Candidate::Name => out.push_str("a name"),
            Candidate::Number => out.push_str("a number"),
            Candidate::Word(word) => {
                out.push_str("`")?;
                out.push_str(word.text())?;
                out.push_str("`")
            }
            Candidate::Mark(sign) => {
                out.push_str("`")?;
                out.push_str(sign.text())?;
                out.push_str("`")
            }
        }
    }
}

/// Appends the texts of the candidates, each after a comma.
pub(crate) fn push_others(out: &mut String, others: &[Candidate]) -> Result<(), AllocError>
    ensures { OnOk result (AddsText (candidate_texts others.now) out.old out.new) }
{
    for candidate in others {
        out.push_str(", ")?;
        candidate.push(out)?;
    }
    Ok(())
}

/// Appends the text of the first candidate, without a comma.
pub(crate) fn push_first(out: &mut String, candidate: Candidate) -> Result<(), AllocError>
    ensures { OnOk result (AddsText (candidate_text candidate) out.old out.new) }
{
    candidate.push(out)
}

/// All kinds of tokens but the end of the text, a name and a number first.
pub const ALL: [Candidate; 49] = [
    Candidate::Name,
    Candidate::Number,
    Candidate::Word(Keyword::Lock),
    Candidate::Word(Keyword::Struct),
    Candidate::Word(Keyword::Final),
    Candidate::Word(Keyword::Ref),
    Candidate::Word(Keyword::Int),
    Candidate::Word(Keyword::Global),
    Candidate::Word(Keyword::ProtectedBy),
    Candidate::Word(Keyword::Pool),
    Candidate::Word(Keyword::Init),
    Candidate::Word(Keyword::Atomic),
    Candidate::Word(Keyword::Let),
    Candidate::Word(Keyword::Var),
    Candidate::Word(Keyword::If),
    Candidate::Word(Keyword::Else),
    Candidate::Word(Keyword::While),
    Candidate::Word(Keyword::Print),
    Candidate::Word(Keyword::Return),
    Candidate::Word(Keyword::Thread),
    Candidate::Word(Keyword::Repeat),
    Candidate::Word(Keyword::Null),
    Candidate::Word(Keyword::Where),
    Candidate::Word(Keyword::Call),
    Candidate::Mark(Sign::OpenBrace),
    Candidate::Mark(Sign::CloseBrace),
    Candidate::Mark(Sign::OpenParen),
    Candidate::Mark(Sign::CloseParen),
    Candidate::Mark(Sign::OpenBracket),
    Candidate::Mark(Sign::CloseBracket),
    Candidate::Mark(Sign::Semicolon),
    Candidate::Mark(Sign::Comma),
    Candidate::Mark(Sign::Colon),
    Candidate::Mark(Sign::Dot),
    Candidate::Mark(Sign::Equals),
    Candidate::Mark(Sign::DoubleEquals),
    Candidate::Mark(Sign::NotEquals),
    Candidate::Mark(Sign::Less),
    Candidate::Mark(Sign::LessEquals),
    Candidate::Mark(Sign::Greater),
    Candidate::Mark(Sign::GreaterEquals),
    Candidate::Mark(Sign::Plus),
    Candidate::Mark(Sign::Minus),
    Candidate::Mark(Sign::Star),
    Candidate::Mark(Sign::Slash),
    Candidate::Mark(Sign::Percent),
    Candidate::Mark(Sign::And),
    Candidate::Mark(Sign::Or),
    Candidate::Mark(Sign::Not),
];
