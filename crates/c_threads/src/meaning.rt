//! The meaning of a compiled program's sections in C.

ghost use Rattle.std.specs.List.{All};
ghost use Rattle.c_threads.specs.Meanings.{SectionsMean, ThreadsMean};
ghost use Rattle.c_threads.specs.Working.Codes.{IsShortCode};

use crate::laws::outside_calls_run_in_c;
use c_language::group_laws::sections_behave_in_c;
use c_language::numbers::{are_short, openings_fit};
use code::section_code::ProgramCode;
use lowering::compiled::Program;

// The numbers that the code of each section pushes have 64 bits.
fn all_are_short(code: &ProgramCode)
    ensures { All IsShortCode code.now.sections.items }
{
    for made in &code.sections {
        are_short(&made.instructions);
    }
}

/// A law: the C of each section, run alone, comes to an end exactly if the section does, with the same outcome, prints
/// and cells, and C defines all that it does, if numbers have 64 bits. They have them in the initial cells, and after
/// each section.
pub fn sections_mean(program: &Program)
    ensures { SectionsMean program.now }
{
    openings_fit(program.expanded());
    all_are_short(program.code());
    sections_behave_in_c::<u8>();
}

/// A law: threads that make any calls of the sections, with arguments of 64 bits, up to the limits of threads and
/// calls, run in C as a serial run of their calls, without a data race, a cycle of waiting, or undefined behavior.
pub fn threads_mean(program: &Program)
    ensures { ThreadsMean program.now }
{
    openings_fit(program.expanded());
    all_are_short(program.code());
    outside_calls_run_in_c();
}
