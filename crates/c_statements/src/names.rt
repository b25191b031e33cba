//! The names in the C text of a program, each appended to a text. The only error is a failed allocation.

ghost use Rattle.std.specs.Prelude.{OnOk};
ghost use Rattle.locks.specs.Texts.{AddsText, struct_name};
ghost use Rattle.c_statements.specs.Names as text;

use c_language::statement::Temporary;
use core_lang::tree::Local;
use core_lang::typed::Typed;
use core_lang::value::ValueType;
use std::alloc::AllocError;

/// Appends the initial value of a variable: `0` or `NULL`.
pub fn push_zero(out: &mut String, value_type: ValueType) -> Result<(), AllocError>
    ensures { OnOk result (AddsText (text.zero_text value_type) out.old out.new) }
{
    match value_type {
        ValueType::Integer => out.push_str("0"),
        ValueType::Reference(_) => out.push_str("NULL"),
    }
}

/// Appends a number, as `INT64_C(5)`. A negative one is written by the number above it, so that each fits.
pub fn push_number(out: &mut String, number: i64) -> Result<(), AllocError>
    ensures { OnOk result (AddsText (text.number_text number) out.old out.new) }
{
    let size = number.unsigned_abs();
    if number < 0 {
        let above = size - 1;
        return write!(out, "(-INT64_C({above}) - 1)");
    }
    write!(out, "INT64_C({size})")
}

/// Appends a parameter or local, as `v3_moved`.
pub fn push_local(out: &mut String, number: usize, local: &Local) -> Result<(), AllocError>
    ensures { OnOk result (AddsText (text.local_text number local.now) out.old out.new) }
{
    write!(out, "v{number}_{}", local.name)
}

/// Appends the name of a struct.
pub fn push_struct(out: &mut String, program: &Typed, structure: usize) -> Result<(), AllocError>
    ensures { OnOk result (AddsText (struct_name program.now structure) out.old out.new) }
{
    match program.structs.get(structure) {
        Some(structure) => out.push_str(structure.name.as_str()),
        None => Ok(()),
    }
}

/// Appends a temporary, as `n0` or `p0_S`.
pub fn push_temporary(
    out: &mut String,
    program: &Typed,
    temporary: Temporary,
) -> Result<(), AllocError>
    ensures { OnOk result (AddsText (text.temporary_text program.now temporary) out.old out.new) }
{
    let height = temporary.height;
    match temporary.holds {
        ValueType::Integer => write!(out, "n{height}"),
        ValueType::Reference(structure) => {
            write!(out, "p{height}_")?;
            push_struct(out, program, structure)
        }
    }
}
