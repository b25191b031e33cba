//! The text on answers, and on a closed history.

ghost use Rattle.core_lang.specs.Typing.{HasCells};

use lowering::compiled::Program;
use std::test::Fail;
use workers::closed::Closed;
use workers::naming::Naming;
use workers::seat::{CallRefusal, Done, Seat};
use workers::shared::Shared;

/// Appends how a thread's call ended, and its position.
pub fn say_done(
    said: &mut String,
    thread: usize,
    done: Result<Done, CallRefusal>,
) -> Result<(), Fail> {
    let done = done?;
    write!(said, "{thread}: {:?} at {}\n", done.outcome, done.position)?;
    Ok(())
}

/// Appends that a thread's call was strange, or else how it ended.
pub fn say_refusal(
    said: &mut String,
    thread: usize,
    done: Result<Done, CallRefusal>,
) -> Result<(), Fail> {
    if let Err(CallRefusal::Strange) = done {
        said.push_str("strange\n")?;
        return Ok(());
    }
    say_done(said, thread, done)
}

/// Appends whether what a seat has seen is a prefix of what another has, both ways.
pub fn say_agreement<'p, 'r, J: Naming>(
    said: &mut String,
    one: &Seat<'p, 'r, J>,
    other: &Seat<'p, 'r, J>,
) -> Result<(), Fail> {
    let forth = Shared::agree(one, other);
    let back = Shared::agree(other, one);
    write!(said, "agree {forth} {back}\n")?;
    Ok(())
}

/// Appends the number of entries, and what they leave in the cells.
pub fn say_history(said: &mut String, program: &Program, closed: &Closed<'_>) -> Result<(), Fail>
    requires { HasCells program.now.program closed.now.values }
{
    write!(said, "{} entries, left", closed.history().len())?;
    for cell in 0..program.expanded().cells.len() {
        write!(said, " {:?}", closed.cell(cell))?;
    }
    said.push_str("\n")?;
    Ok(())
}
