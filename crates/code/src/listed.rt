//! What the listing of a section needs.

ghost use Rattle.std.specs.Prelude.{◌≡◌};
ghost use Rattle.code.specs.Working.Asked.{lists_of, list_at, asked};

use crate::instr::Instr;
use crate::section_code::SectionCode;
use core_lang::tree::Section;
use locks::path::LockPath;

/// A section, with what its listing needs.
#[derive(Clone, Copy)]
pub struct Listed<'a> {
    /// The section.
    pub section: &'a Section,
    /// Its code.
    pub code: &'a SectionCode,
    /// The lists of lock paths before its points, as indexes into the section's lock paths.
    pub lists: &'a [Vec<u8>],
    /// Its lock paths.
    pub paths: &'a [LockPath],
}

impl<'a> Listed<'a> {
    // The lock paths before a point, or none if the section has no such point.
    fn before(&self, point: usize) -> &'a [u8]
        ensures { result.now ≡ list_at (lists_of self.now) point }
    {
        match self.lists.get(point) {
            Some(list) => list,
            None => &[],
        }
    }

    /// The lock paths that an instruction of the section's code asks for, as indexes.
    pub fn asked(&self, instr: Instr) -> &'a [u8]
        ensures { result.now ≡ asked (lists_of self.now) instr }
    {
        match instr {
            Instr::Acquire(point) => self.before(point),
            _ => &[],
        }
    }
}
