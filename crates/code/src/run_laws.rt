//! Laws of a section's code beside the section run whole: functions that do nothing, and whose contracts are the laws.

ghost use Rattle.code.specs.Working.RunLaws.{EndsAsSection, EndsOnlyAsSection, SectionsBehave};

use crate::point_laws::sections_go_on;

/// A law: alone, a section's code comes to an outcome exactly if the whole run of the section ends, and then to the
/// same outcome, prints and heap: on every heap, with all arguments, and whatever lock paths (`P`) stand before its
/// points.
pub fn sections_end_alike<P>()
    ensures ends { EndsAsSection P }
    ensures ends_only { EndsOnlyAsSection P }
{}

/// A law: the code of a section of a well-formed program behaves as the section. Alone it comes to the same end if
/// there is one, and has a next instruction until then, with at most as many operands as the section needs.
pub fn sections_behave<P>()
    ensures { SectionsBehave P }
{
    sections_end_alike::<P>();
    sections_go_on::<P>();
}
