//! Numbers have 64 bits: those that a code pushes, and those that cells have initially.

ghost use Rattle.std.specs.List.{All};
ghost use Rattle.core_lang.specs.Serial.{opening_heap};
ghost use Rattle.c_language.specs.Alike.{AreFitting, IsFitting};
ghost use Rattle.c_language.specs.InC.{AreShort, IsShort};
ghost use Rattle.c_language.specs.Working.Openings.{IsOpeningFitting};

use code::instr::Instr;
use core_lang::typed::{Cell, Typed};
use core_lang::value::Value;

// A number that the instruction pushes has 64 bits, as it is in memory.
fn is_short(instr: Instr)
    ensures { IsShort instr }
{
    match instr {
        Instr::PushNumber(_) => {}
        _ => {}
    }
}

/// All numbers that a code pushes have 64 bits: the code is in memory, and their type has no others.
pub fn are_short(code: &[Instr])
    ensures { AreShort code.now }
{
    for instr in code {
        is_short(*instr);
    }
}

// A value that is a number has 64 bits, as it is in memory.
fn is_fitting(value: Value)
    ensures { IsFitting value }
{
    match value {
        Value::Int(_) => {}
        Value::Ref(_) => {}
    }
}

// The initial numbers of cells have 64 bits.
fn are_fitting(cells: &[Cell])
    ensures { All IsOpeningFitting cells.now }
{
    for cell in cells {
        is_fitting(cell.opening);
    }
}

/// All initial numbers of a program's cells have 64 bits.
pub fn openings_fit(program: &Typed)
    ensures { AreFitting (opening_heap program.now) }
{
    are_fitting(&program.cells);
}
