//! Laws of a compiled program: functions that do nothing, and whose contracts are the laws.

ghost use denote.Param.Send.{IsSync};
ghost use Rattle.lowering.specs.contracts.compiled.Program as program;
ghost use Rattle.lowering.specs.Plans.{CodesBehave, CompiledRunAlike};
ghost use Rattle.lowering.specs.Working.PlanLaws.{NothingIsTaken};

/// A law: the code of each section of a well-formed program behaves as the section, whatever lists stand before its
/// points. Alone it comes to an outcome exactly if the whole run of the section ends, and then to the same outcome,
/// prints and heap; and it has a next instruction until then, with at most as many operands as the section needs.
pub fn codes_behave()
    ensures { CodesBehave }
{
    code::run_laws::sections_behave::<u8>();
}

/// A law: calls of a compiled program, each with an argument for each parameter, run one after another as those of the
/// accepted program, whose helpers are not expanded.
pub fn compiled_run_alike()
    ensures { CompiledRunAlike }
{
    core_lang::laws::writing_out_changes_nothing();
}

/// A law: a section without accesses acquires nothing.
pub fn no_access_no_acquisition()
    ensures { NothingIsTaken }
{}

/// A law: a compiled program may be shared by many threads, by itself and as a part of a larger value.
pub fn programs_are_shared()
    ensures whole { IsSync program.the_row }
    ensures part { IsSync (program.the_field).row }
{
    core_lang::laws::programs_are_shared();
}
