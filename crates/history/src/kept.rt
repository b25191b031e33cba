//! A finished section whose lists are lent.

use core_lang::value::{Outcome, Value};
use std::marker::Model;

/// The number of a cell, and a value of the cell.
pub type CellValue = (u32, Value);

/// A borrowed finished section: its lists stand elsewhere, as those of a history's entry stand in the history's arrays.
/// Passing it on or entering it moves no list.
#[derive(Drop)]
pub struct EntryRef<'h> {
    /// The thread that ran the section.
    pub thread: u32,
    /// The number of the call among the thread's calls.
    pub step: usize,
    /// The section, an index into the program's sections.
    pub section: usize,
    /// The arguments of the call.
    pub arguments: &'h [Value],
    /// The length of the history when the section began.
    pub begun: usize,
    /// Each cell that it read before it wrote it, with the value that it found.
    pub reads: &'h [CellValue],
    /// Each cell that it wrote, with the value that it wrote last.
    pub writes: &'h [CellValue],
    /// How the section ended.
    pub outcome: Outcome,
    /// The numbers that it printed.
    pub prints: &'h [i64],
}

impl<'h> Model for EntryRef<'h> {
    ghost use Rattle.history.specs.Commits.{Commit};

    ghost Value = { Commit };

    ghost view = { λ e. record {
      thread = e.thread;
      step = e.step;
      section = e.section;
      arguments = e.arguments.now;
      begun = e.begun;
      reads = e.reads.now;
      writes = e.writes.now;
      outcome = e.outcome;
      prints = e.prints.now;
    } };
}

impl<'h> EntryRef<'h> {
    ghost use Rattle.std.specs.Prelude.{◌≡◌};

    /// The thread that ran the section.
    #[inline]
    pub fn thread(&self) -> u32
        ensures { result ≡ self.now.thread }
    {
        self.thread
    }

    /// The number of the call among the thread's calls.
    #[inline]
    pub fn step(&self) -> usize
        ensures { result ≡ self.now.step }
    {
        self.step
    }

    /// The section, an index into the program's sections.
    #[inline]
    pub fn section(&self) -> usize
        ensures { result ≡ self.now.section }
    {
        self.section
    }

    /// The arguments of the call.
    #[inline]
    pub fn arguments(&self) -> &'h [Value]
        ensures { result.now ≡ self.now.arguments }
    {
        self.arguments
    }

    /// The length of the history when the section began.
    #[inline]
    pub fn begun(&self) -> usize
        ensures { result ≡ self.now.begun }
    {
        self.begun
    }

    /// Each cell that it read before it wrote it, with the value that it found.
    #[inline]
    pub fn reads(&self) -> &'h [CellValue]
        ensures { result.now ≡ self.now.reads }
    {
        self.reads
    }

    /// Each cell that it wrote, with the value that it wrote last.
    #[inline]
    pub fn writes(&self) -> &'h [CellValue]
        ensures { result.now ≡ self.now.writes }
    {
        self.writes
    }

    /// How the section ended.
    #[inline]
    pub fn outcome(&self) -> Outcome
        ensures { result ≡ self.now.outcome }
    {
        self.outcome
    }

    /// The numbers that it printed.
    #[inline]
    pub fn prints(&self) -> &'h [i64]
        ensures { result.now ≡ self.now.prints }
    {
        self.prints
    }
}
