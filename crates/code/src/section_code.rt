//! The code of a program.

use crate::instr::Instr;

/// The code of a section.
#[derive(Drop)]
pub struct SectionCode {
    /// Its instructions.
    pub instructions: Vec<Instr>,
    /// Its line table: for each point, the place of its first instruction.
    pub begins: Vec<usize>,
    /// The greatest number of operands on its stack.
    pub operands: usize,
}

impl SectionCode {
    ghost use Rattle.std.specs.Prelude.{◌≡◌, leb};
    ghost use Rattle.std.specs.List.Sorted.{IsNonDecreasing};
    ghost use Rattle.code.specs.LineTables as tables;

    /// The point of the instruction at `place`: the last one that begins there or before. `None` if none does.
    pub fn point_at(&self, place: usize) -> Option<usize>
        requires { IsNonDecreasing self.now.begins.items }
        ensures { result ≡ tables.point_at self.now.begins.items place }
    {
        let begun = self.begins.as_slice().partition_point(
            |begin: &usize| -> bool
                ensures { result ≡ leb begin.now place }
            { *begin <= place },
        );
        begun.checked_sub(1)
    }
}

/// The code of a program.
#[derive(Drop)]
pub struct ProgramCode {
    /// The code of each section.
    pub sections: Vec<SectionCode>,
}
