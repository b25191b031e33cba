//! The text of `check`.

ghost use Rattle.std.specs.Prelude.{◌≡◌, ◌==◌, OnOk, IfOk, position};
ghost use Rattle.locks.specs.Texts.{AddsText};
ghost use Rattle.lockpaths.specs.Paths.{ArePaths};
ghost use Rattle.rope.specs.Working.Ropes.{rope_text, Grows};
ghost use Rattle.report_check.specs.Check.{ranked_class, rank_text, rank_texts};

use crate::section_text::SectionText;
use crate::sources::Sources;
use code::path_texts;
use core_lang::tree::Section;
use core_lang::typed::Typed;
use inserter::placed::Placed;
use lockpaths::table::Paths;
use locks::text::push_class;
use rope::Rope;
use source::cursor::Cursor;
use source::memory::NoMemory;
use std::alloc::{AllocError, Global};

/// The first class that has this rank.
fn class_with(ranks: &[u32], rank: usize) -> Option<usize>
    ensures { result ≡ position (λ r. r == rank) ranks.now }
{
    ranks.iter().position(|r| *r as usize == rank)
}

/// Appends the name of the first class that has this rank. The only error is a failed allocation.
pub fn push_ranked(
    out: &mut String,
    program: &Typed,
    ranks: &[u32],
    rank: usize,
) -> Result<(), AllocError>
    ensures { OnOk result (AddsText (ranked_class program.now ranks.now rank) out.old out.new) }
{
    match class_with(ranks, rank) {
        Some(class) => push_class(out, program, class),
        None => Ok(()),
    }
}

/// Appends the line of a rank.
fn push_rank(
    out: &mut String,
    program: &Typed,
    ranks: &[u32],
    rank: usize,
) -> Result<(), AllocError>
    ensures { OnOk result (AddsText (rank_text program.now ranks.now rank) out.old out.new) }
{
    write!(out, "rank {rank} ")?;
    push_ranked(out, program, ranks, rank)?;
    out.push_str("\n")
}

/// Appends a line for each rank.
fn push_ranks(out: &mut String, program: &Typed, ranks: &[u32]) -> Result<(), AllocError>
    ensures { OnOk result (AddsText (rank_texts program.now ranks.now) out.old out.new) }
{
    for rank in 0..ranks.len() {
        push_rank(out, program, ranks, rank)?;
    }
    Ok(())
}

/// The text of `check` for an accepted program.
#[derive(Drop)]
pub struct Check<'a> {
    /// The program's text.
    pub text: &'a [u8],
    /// The program.
    pub program: &'a Typed,
    /// Its lock paths.
    pub paths: &'a Paths,
    /// The rank of each lock class.
    pub ranks: &'a [u32],
    /// The lock paths that are listed before each point.
    pub placed: &'a Placed,
    pub ghost are_paths: { ∥ ArePaths program.now paths.now ∥₁ },
}

impl Check<'_> {
    ghost use Rattle.report_check.specs.Working.Values.{AreOf, section_texts_of, told_text_of};
    ghost use Rattle.report_check.specs.Working.Values.{check_text_of, sourced_check_text_of};

    // Appends the lines of each section. Its statements follow those of the sections before it, so that the text is
    // read once.
    fn push_sections(
        &self,
        alloc: Global,
        out: &mut Rope,
        sources: Option<&Sources<'_>>,
    ) -> Result<(), NoMemory>
        requires { AreOf self.now.text.now sources }
        ensures { OnOk result (Grows (section_texts_of sources.entry self.now) out.old out.new) }
    {
        let mut cursor = Cursor::new(self.text);
        for (i, section) in self.program.sections.iter().enumerate() {
            let Some(lists) = self.placed.sections.get(i) else {
                return Ok(());
            };
            let paths = path_texts(alloc, self.program, section, &self.paths.sections[i].paths)?;
            let lines = SectionText {
                program: self.program,
                section,
                group: out.keep(paths)?,
                lists,
                sources,
            };
            lines.push(alloc, out, &mut cursor)?;
        }
        Ok(())
    }

    // The text, with what is written of places beside line and column.
    fn told(&self, alloc: Global, sources: Option<&Sources<'_>>) -> Result<Rope, NoMemory>
        requires { AreOf self.now.text.now sources }
        ensures { IfOk result (λ text. rope_text text ≡ told_text_of sources.entry self.now) }
    {
        let mut ranks = String::from_str(alloc, "accepted\n")?;
        push_ranks(&mut ranks, self.program, self.ranks)?;
        let mut out = Rope::of(alloc, ranks);
        self.push_sections(alloc, &mut out, sources)?;
        Ok(out)
    }

    /// The text of `check`: that the program is accepted, the class of each rank, and for each section the points
    /// before which locks are acquired, each with its position in the text and its lock paths. The only error is a
    /// failed allocation.
    pub fn text(&self, alloc: Global) -> Result<Rope, NoMemory>
        ensures { IfOk result (λ text. rope_text text ≡ check_text_of self.now) }
    {
        self.told(alloc, None)
    }

    /// The text of `check` in which each position of a statement of one of these helpers has the helper's name after
    /// it, and the line of the source follows each point. The only error is a failed allocation.
    pub fn text_with_sources(&self, alloc: Global, helpers: &[Section]) -> Result<Rope, NoMemory>
        ensures { IfOk result (λ text. rope_text text ≡ sourced_check_text_of helpers.now self.now) }
    {
        let sources = Sources::of(alloc, self.text, helpers)?;
        self.told(alloc, Some(&sources))
    }
}
