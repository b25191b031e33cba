//! Writes pieces, one after another.

ghost use Rattle.std.specs.Prelude.{◌≡◌, ◌+◌, ◌≤◌, ◌<◌, ◌++◌, [], OnOk, IfOk, suc, length};
ghost use Rattle.source.specs.Texts.{SOURCE_LIMIT};
ghost use Rattle.formatting.specs.Layout.{START, many, ending};
ghost use Rattle.formatting.specs.Working.Printing.{levels, text_in_front, text_behind, state_behind};

use crate::kind::PieceKind;
use crate::state::LayoutState;
use std::alloc::{AllocError, Global};

/// The text of the pieces so far, and the state that decides the next gap.
#[derive(Drop)]
pub struct Printer {
    text: Vec<u8>,
    state: LayoutState,
    /// The number of line feeds found after the last piece.
    found: usize,
}

// Appends a byte the given number of times.
#[tactic(auto, using(crate::proofs::Cuts::many_more))]
fn push_many(text: &mut Vec<u8>, count: usize, byte: u8) -> Result<(), AllocError>
    ensures { OnOk result (text.new.items ≡ text.old.items ++ many count byte) }
{
    for i in 0..count {
        text.push(byte)?;
    }
    Ok(())
}

impl Printer {
    pub fn new(alloc: Global) -> Printer
        ensures text { result.text.items ≡ [] }
        ensures state { result.state ≡ START }
        ensures found { result.found ≡ 0 }
    {
        Printer {
            text: Vec::new(alloc),
            state: LayoutState::start(),
            found: 0,
        }
    }

    /// Notes a line feed.
    pub fn note_feed(&mut self)
        requires { self.old.found < SOURCE_LIMIT }
        ensures text { self.new.text ≡ self.old.text }
        ensures state { self.new.state ≡ self.old.state }
        ensures found { self.new.found ≡ suc self.old.found }
    {
        self.found += 1;
    }

    // Appends the gap before the next piece.
    #[tactic(auto, unfolding(crate::specs::Layout::gap))]
    fn push_gap(&mut self, next: PieceKind, first: u8, feeds: usize) -> Result<(), AllocError>
        requires { levels self.old.state ≤ SOURCE_LIMIT }
        ensures text { OnOk result (self.new.text.items ≡ text_in_front self.old next first feeds) }
        ensures state { self.new.state ≡ self.old.state }
    {
        if feeds == 0 {
            return push_many(&mut self.text, self.state.spaces(next, first), b' ');
        }
        push_many(&mut self.text, feeds, b'\n')?;
        push_many(&mut self.text, self.state.indent(next, feeds), b' ')
    }

    /// Appends the gap and then a token or a comment, which has at least one byte.
    pub fn push(&mut self, next: PieceKind, bytes: &[u8]) -> Result<(), AllocError>
        requires some { 0 < length bytes.now }
        requires room { levels self.old.state ≤ SOURCE_LIMIT }
        ensures text { OnOk result (self.new.text.items ≡ text_behind self.old next bytes.now) }
        ensures state { OnOk result (self.new.state ≡ state_behind self.old next bytes.now) }
        ensures found { OnOk result (self.new.found ≡ 0) }
        ensures few { OnOk result (levels self.new.state ≤ levels self.old.state + 1) }
    {
        let first = bytes[0];
        let feeds = self.state.lines(next, self.found);
        self.push_gap(next, first, feeds)?;
        self.text.extend_from_slice(bytes)?;
        self.state = self.state.behind(next, first, feeds);
        self.found = 0;
        Ok(())
    }

    /// The whole text, with a line feed at its end.
    pub fn finish(self) -> Result<Vec<u8>, AllocError>
        ensures { IfOk result (λ text. text.items ≡ self.text.items ++ ending self.state.has_begun) }
    {
        let Printer {
            mut text,
            state,
            ..
        } = self;
        if state.has_begun {
            text.push(b'\n')?;
        }
        Ok(text)
    }
}
