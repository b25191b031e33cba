//! The result of an instruction.

ghost use Rattle.std.specs.Prelude.{◌≡◌};
ghost use Rattle.runner_machine.specs.Working.Machines.{told};

use core_lang::value::{Failure, Outcome};

/// The result of an instruction of an open section.
#[derive(Clone, Copy, PartialEq, Eq, Debug)]
pub enum Progress {
    /// The machine moved.
    Moved,
    /// The section asks for the locks before this point next; then the machine moves on.
    Asks(usize),
    /// The section ends with this outcome.
    Finished(Outcome),
    /// The instruction has no case here.
    Undefined,
}

// The result for a failure: a trap ends the section.
#[inline(always)]
pub(crate) fn failed(failure: Failure) -> Progress
    ensures { result ≡ told failure }
{
    match failure {
        Failure::Trap(trap) => Progress::Finished(Outcome::Traps(trap)),
        Failure::Wrong => Progress::Undefined,
    }
}
