//! The numbers of prints for which calls make room.

ghost use Rattle.std.specs.Prelude.{◌≡◌, ◌<◌, Some, length, map, slice_get, IfOk};
ghost use Rattle.core_lang_helpers.specs.Prints.{most_prints};

use core_lang::typed::Typed;
use core_lang_helpers::prints;
use source::memory::NoMemory;
use std::alloc::Global;
use std::marker::Model;

/// The number of prints for which a call of each section makes room: the most that one run of the section prints. Its
/// value is these numbers, by section.
#[derive(Drop)]
pub(crate) struct PrintRooms {
    rooms: Vec<usize>,
}

impl Model for PrintRooms {
    ghost use Rattle.std.specs.Prelude.{List, ℕ};

    ghost Value = { List ℕ };

    ghost view = { λ p. p.rooms.items };
}

impl PrintRooms {
    /// The numbers for the sections of a program.
    ///
    /// # Errors
    ///
    /// `NoMemory`: a growth was refused.
    pub fn of(alloc: Global, program: &Typed) -> Result<PrintRooms, NoMemory>
        ensures { IfOk result (λ rooms. rooms ≡ map most_prints program.now.sections.items) }
    {
        let mut rooms = Vec::with_capacity(alloc, program.sections.len())?;
        for section in &program.sections {
            rooms.push(prints::of_section(section))?;
        }
        Ok(PrintRooms { rooms })
    }

    /// The number for a call of `section`.
    pub fn room(&self, section: usize) -> usize
        requires { section < length self.now }
        ensures { slice_get self.now section ≡ Some result }
    {
        self.rooms[section]
    }
}
