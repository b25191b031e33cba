//! Writes the names of a program with a prefix. The only error is a failed allocation.

ghost use Rattle.std.specs.Prelude.{OnOk};
ghost use Rattle.locks.specs.Texts.{AddsText};
ghost use Rattle.c_statements.specs.Names as text;

use c_statements::names::push_struct;
use core_lang::typed::Typed;
use core_lang::value::ValueType;
use std::alloc::AllocError;

/// Writes C text with the names of a program.
#[derive(Clone, Copy)]
pub struct Writer<'a> {
    /// The program.
    pub program: &'a Typed,
    /// The prefix of each name in the text: a word of letters and digits.
    pub prefix: &'a str,
}

impl Writer<'_> {
    /// Appends a name of the program, as `al_NAME`.
    pub fn push_named(&self, out: &mut String, name: &str) -> Result<(), AllocError>
        ensures { OnOk result (AddsText (text.named self.now.prefix.now name.now) out.old out.new) }
    {
        out.push_str(self.prefix)?;
        out.push_str("_")?;
        out.push_str(name)
    }

    /// Appends a word of the file's own, as `alWORD`.
    pub fn push_own(&self, out: &mut String, word: &str) -> Result<(), AllocError>
        ensures { OnOk result (AddsText (text.own self.now.prefix.now word.now) out.old out.new) }
    {
        out.push_str(self.prefix)?;
        out.push_str(word)
    }

    /// Appends the type of a struct, as `struct al_S`.
    pub fn push_struct_type(&self, out: &mut String, structure: usize) -> Result<(), AllocError>
        ensures { OnOk result (AddsText (text.struct_type self.now.prefix.now self.now.program.now structure)
            out.old out.new) }
    {
        out.push_str("struct ")?;
        out.push_str(self.prefix)?;
        out.push_str("_")?;
        push_struct(out, self.program, structure)
    }

    /// Appends what precedes a variable of a type: `int64_t `, or as `struct al_S *`.
    pub fn push_type(&self, out: &mut String, value_type: ValueType) -> Result<(), AllocError>
        ensures { OnOk result (AddsText (text.type_text self.now.prefix.now self.now.program.now value_type)
            out.old out.new) }
    {
        match value_type {
            ValueType::Integer => out.push_str("int64_t "),
            ValueType::Reference(structure) => {
                self.push_struct_type(out, structure)?;
                out.push_str(" *")
            }
        }
    }
}
