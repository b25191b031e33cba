//! The calls that a program takes.

use core_lang::calls::can_call;
use core_lang::typed::Typed;
use core_lang::value::Value;
use std::alloc::Global;
use std::test::Fail;

/// Whether the program takes each of `calls`, each a section and its arguments; with a blank after each answer.
pub fn taken(alloc: Global, program: &Typed, calls: &[(usize, &[Value])]) -> Result<String, Fail> {
    let mut said = String::new(alloc);
    for (section, arguments) in calls {
        let taken = can_call(program, *section, arguments);
        write!(&mut said, "{taken} ")?;
    }
    Ok(said)
}
