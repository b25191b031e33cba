//! The targets of a code's jumps.

ghost use Rattle.std.specs.Prelude.{◌≡◌, IfOk};
ghost use Rattle.c_sections.specs.Instructions as text;
ghost use Rattle.c_sections.specs.Working.Codes.{AreTargets, Marks};

use code::instr::Instr;
use source::memory::NoMemory;
use std::alloc::Global;

/// The place to which the instruction at `place` jumps, if it is a jump.
fn jump_target(place: usize, instr: Instr) -> Option<u128>
    ensures { result ≡ text.jump_target place instr }
{
    match instr {
        Instr::Jump(over) | Instr::JumpIfFalse(over) | Instr::JumpIfTrue(over) => {
            // in 128 bits, so that every jump's target fits
            Some(place as u128 + 1 + over as u128)
        }
        Instr::JumpBack(back) => Some(place.saturating_sub(back) as u128),
        _ => None,
    }
}

/// Marks the place to which the instruction at `place` jumps, if the code has that place.
fn mark(flags: &mut [bool], place: usize, instr: Instr)
    ensures { Marks place instr flags.old flags.new }
{
    if let Some(target) = jump_target(place, instr) {
        if target < flags.len() as u128 {
            flags[target as usize] = true;
        }
    }
}

/// For each place of a code, whether some instruction of the code jumps to it.
pub fn jump_targets(alloc: Global, code: &[Instr]) -> Result<Vec<bool>, NoMemory>
    ensures { IfOk result (λ flags. AreTargets code.now flags.items) }
{
    let mut flags = vec![in alloc; false; code.len()]?;
    for (place, instr) in code.iter().enumerate() {
        mark(&mut flags, place, *instr);
    }
    Ok(flags)
}
