//! The paragraphs of a file of cases.

ghost use Rattle.std.specs.Prelude.{◌≡◌, ◌∷◌, ◌++◌, ◌↔◌, ◌⊎◌, List, ℕ, None, Some, codes};
ghost use Rattle.std.specs.Borrow.{Bor};
ghost use Rattle.test_support.specs.Paragraphs.{IsCase, HasNoWant};

use crate::asked::{Asked, Engine};

/// A paragraph of a file of cases.
#[derive(Clone, Copy)]
pub enum Paragraph<'a> {
    /// A heading or a note.
    Note,
    /// The question about the following texts.
    Ask(Asked<'a>),
    /// The text before each of the following texts, without its last line feed; none, to use no such text.
    Head(Option<&'a str>),
    /// A text, and the expected answer.
    Case(&'a str, &'a str),
    /// None of these kinds.
    Unreadable,
}

/// The paragraph that the text `paragraph` writes.
pub fn read_paragraph(paragraph: &str) -> Paragraph<'_>
    ensures note { (result ≡ Paragraph.Note) ↔ ((rest : List ℕ) × (paragraph.now ≡ 35 ∷ rest)) }
    ensures check { (result ≡ Paragraph.Ask (Asked.Engine Engine.Check)) ↔ (paragraph.now ≡ codes "@ask check") }
    ensures tree { (result ≡ Paragraph.Ask Asked.Tree) ↔ (paragraph.now ≡ codes "@ask tree") }
    ensures print { (result ≡ Paragraph.Ask Asked.Print) ↔ (paragraph.now ≡ codes "@ask print") }
    ensures again { (result ≡ Paragraph.Ask Asked.Again) ↔ (paragraph.now ≡ codes "@ask again") }
    ensures head { (text : Bor (List ℕ)) → result ≡ Paragraph.Head (Some text)
        → paragraph.now ≡ codes "@head\n" ++ text.now }
    ensures headed { (s : List ℕ) → paragraph.now ≡ codes "@head\n" ++ s
        → (text : Bor (List ℕ)) × (result ≡ Paragraph.Head (Some text)) }
    ensures case { (text want : Bor (List ℕ)) → result ≡ Paragraph.Case text want
        → IsCase paragraph.now text.now want.now }
    ensures headless { (result ≡ Paragraph.Head None) ↔ (paragraph.now ≡ codes "@head") }
    ensures unreadable { result ≡ Paragraph.Unreadable → HasNoWant paragraph.now
        ⊎ ((word : List ℕ) × (paragraph.now ≡ codes "@ask " ++ word)) }
{
    if paragraph.starts_with('#') {
        return Paragraph::Note;
    }
    if let Some(word) = paragraph.strip_prefix("@ask ") {
        return match Asked::named(word) {
            Some(asked) => Paragraph::Ask(asked),
            None => Paragraph::Unreadable,
        };
    }
    if paragraph == "@head" {
        return Paragraph::Head(None);
    }
    if let Some(head) = paragraph.strip_prefix("@head\n") {
        return Paragraph::Head(Some(head));
    }
    if let Some(want) = paragraph.strip_prefix("=> ") {
        return Paragraph::Case("", want);
    }
    match paragraph.split_once("\n=> ") {
        Some((text, want)) => Paragraph::Case(text, want),
        None => Paragraph::Unreadable,
    }
}
