//! The texts of single instructions, as the listing has them. The one error is a refused growth.

ghost use Rattle.std.specs.Prelude.{◌≡◌, OnOk};
ghost use Rattle.std.specs.List.Sorted.{IsNonDecreasing};
ghost use Rattle.code.specs.Working.Listers.{program_of};
ghost use Rattle.locks.specs.Texts.{AddsText};

use code::instr::Instr;
use code::places::SectionPlaces;
use code::{Listed, Lister};
use core_lang::typed::Typed;
use locks::text::push_path;
use std::alloc::AllocError;

/// A section whose instructions are written.
#[derive(Clone, Copy)]
pub struct SectionTeller<'a> {
    /// The program.
    pub program: &'a Typed,
    /// The section.
    pub listed: Listed<'a>,
    /// The places of the section's points in the program's text.
    pub places: &'a SectionPlaces,
}

impl SectionTeller<'_> {
    ghost use Rattle.report_runs.specs.Working.Instructions.{HasPaths, path_told, paths_told};
    ghost use Rattle.report_runs.specs.Working.Instructions.{asked_told, instr_told, instr_at, begins_of};

    // Appends the lock path with the number `number`.
    fn push_numbered(&self, out: &mut String, number: usize) -> Result<(), AllocError>
        requires { HasPaths self.now }
        ensures { OnOk result (AddsText (path_told self.now number) out.old out.new) }
    {
        match self.listed.paths.get(number) {
            Some(path) => push_path(out, self.program, self.listed.section, path),
            None => Ok(()),
        }
    }

    // Appends lock paths, each after a space.
    fn push_paths(&self, out: &mut String, list: &[u8]) -> Result<(), AllocError>
        requires { HasPaths self.now }
        ensures { OnOk result (AddsText (paths_told self.now list.now) out.old out.new) }
    {
        for number in list {
            out.push_str(" ")?;
            self.push_numbered(out, *number as usize)?;
        }
        Ok(())
    }

    // Appends the lock paths that an instruction acquires.
    fn push_asked(&self, out: &mut String, instr: Instr) -> Result<(), AllocError>
        requires { HasPaths self.now }
        ensures { OnOk result (AddsText (asked_told self.now instr) out.old out.new) }
    {
        self.push_paths(out, self.listed.asked(instr))
    }

    // Appends an instruction that stands at `place` of the section, after its place in the text.
    fn push_instr(
        &self,
        lister: &Lister<'_>,
        out: &mut String,
        place: usize,
        instr: Instr,
    ) -> Result<(), AllocError>
        requires paths { HasPaths self.now }
        requires names { program_of lister.now ≡ self.now.program.now }
        requires rises { IsNonDecreasing (begins_of self.now) }
        ensures { OnOk result (AddsText (instr_told self.now place instr) out.old out.new) }
    {
        self.places.push(out, self.listed.code, place)?;
        lister.push_instr(out, place, instr)?;
        self.push_asked(out, instr)
    }

    /// Appends the instruction at `place` of the section, after its place in the text, if there is one.
    pub fn push_at(
        &self,
        lister: &Lister<'_>,
        out: &mut String,
        place: usize,
    ) -> Result<(), AllocError>
        requires paths { HasPaths self.now }
        requires names { program_of lister.now ≡ self.now.program.now }
        requires rises { IsNonDecreasing (begins_of self.now) }
        ensures { OnOk result (AddsText (instr_at self.now place) out.old out.new) }
    {
        match self.listed.code.instructions.get(place) {
            Some(instr) => self.push_instr(lister, out, place, *instr),
            None => Ok(()),
        }
    }
}
