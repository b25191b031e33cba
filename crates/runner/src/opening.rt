//! The locals of a section that begins.

ghost use Rattle.std.specs.Prelude.{◌≡◌, [], IfOk, OnOk};
ghost use Rattle.core_lang.specs.Whole.{opening};

use core_lang::opening::with_defaults;
use core_lang::tree::Section;
use core_lang::value::Value;
use source::memory::NoMemory;

// Sets `list` to a copy of `values`. Errors: out of memory.
pub(crate) fn refill(list: &mut Vec<Value>, values: &[Value]) -> Result<(), NoMemory>
    ensures { OnOk result (list.new.items ≡ values.now) }
{
    list.clear();
    list.extend_from_slice(values)?;
    Ok(())
}

// The initial locals of a section: the arguments, and 0 or null in the others. They use `memory`, which grows if it is
// too small. Errors: out of memory.
pub(crate) fn opening_locals(
    section: &Section,
    arguments: &[Value],
    memory: Vec<Value>,
) -> Result<Vec<Value>, NoMemory>
    ensures { IfOk result (λ locals. locals.items ≡ (opening section.now arguments.now []).locals) }
{
    let mut values = memory;
    refill(&mut values, arguments)?;
    let locals = with_defaults(values, &section.locals)?;
    Ok(locals)
}
