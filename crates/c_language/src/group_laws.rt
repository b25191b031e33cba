//! Laws of groups of statements: functions that do nothing, and whose contracts are the laws.

ghost use Rattle.code.specs.Memory.{HeldCells};
ghost use Rattle.c_language.specs.Alike.{GroupsDoAlike};
ghost use Rattle.c_language.specs.InC.{SectionsBehaveInC, NumbersStayFitting};
ghost use Rattle.c_language.specs.Plans.{SectionsHavePlans};
ghost use Rattle.c_language.specs.Runs.{GroupsLeadOn, RunsStandAlike};

/// A law: each group does what its instruction does, over any memory and thus also over held cells, wherever numbers
/// have 64 bits. If the instruction has its case, C defines all that the group does.
pub fn groups_do_alike<M>()
    ensures alike { GroupsDoAlike M }
    ensures leads { GroupsLeadOn M }
    ensures on_held { GroupsLeadOn HeldCells }
{}

/// A law: the C of a section, run alone over any memory, is at each step in the state of its code.
pub fn runs_stand_alike<M>()
    ensures { RunsStandAlike M }
{}

/// A law: the operands known along each section's code are a plan of it, for all types of lock paths.
pub fn sections_have_plans<P>()
    ensures { SectionsHavePlans P }
{}

/// A law: a section in C that runs alone ends exactly if the whole run of the section ends, and then in the same way;
/// and C defines all that it does.
pub fn sections_behave_in_c<P>()
    ensures { SectionsBehaveInC P }
{
    code::run_laws::sections_behave::<P>();
}

/// A law: if numbers have 64 bits when a section is called, they have them on its operand stack, in its locals and in
/// its heap at each step of its code.
pub fn numbers_stay_fitting()
    ensures { NumbersStayFitting }
{}
