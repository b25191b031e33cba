//! Writes the releases at the end of a section. The only error is a failed allocation.

ghost use Rattle.std.specs.Prelude.{OnOk, map, length};
ghost use Rattle.locks.specs.LockPaths.{lock_path_of};
ghost use Rattle.locks.specs.Texts.{AddsText};
ghost use Rattle.c_statements.specs.Acquires.{downward, class_loops};
ghost use Rattle.c_sections.specs.Sections as text;
ghost use Rattle.c_sections.specs.Working.Releases.{loops_text};

use c_statements::class_loops::ClassLoops;
use core_lang::typed::Typed;
use locks::path::{LockPath, Root};
use std::alloc::AllocError;

/// Appends the release of each lock of a class.
fn push_class(out: &mut String, loops: ClassLoops<'_>) -> Result<(), AllocError>
    ensures { OnOk result (AddsText (loops_text loops.entry) out.old out.new) }
{
    out.push_str("{")?;
    loops.push(out, "AL_UNLOCK")?;
    out.push_str(" }")
}

/// Appends the release of the lock of path `number`.
fn push_one(out: &mut String, number: usize) -> Result<(), AllocError>
    ensures { OnOk result (AddsText (text.release_one number) out.old out.new) }
{
    write!(out, "AL_UNLOCK(h[{number}]);")
}

/// Appends the release of the lock of path `number`, or of each lock of its class.
fn push_release(
    out: &mut String,
    program: &Typed,
    number: usize,
    path: &LockPath,
) -> Result<(), AllocError>
    ensures { OnOk result (AddsText (text.release_text program.now number path.now.class path.now.root)
        out.old out.new) }
{
    match path.root {
        Root::WholeClass(structure) => {
            let loops = ClassLoops {
                program,
                class: path.class,
                structure,
                number,
            };
            push_class(out, loops)
        }
        Root::GlobalLock | Root::Local(_) => push_one(out, number),
    }
}

/// Appends the release of what path `number` holds, if it holds a lock.
fn push_unlock(
    out: &mut String,
    program: &Typed,
    number: usize,
    path: &LockPath,
) -> Result<(), AllocError>
    ensures { OnOk result (AddsText (text.unlock_of program.now number (lock_path_of path.now)) out.old out.new) }
{
    write!(out, "  if (h[{number}] != NULL) ")?;
    push_release(out, program, number, path)?;
    out.push_str("\n")
}

/// Appends that release, for the path `number` of these.
fn push_unlock_at(
    out: &mut String,
    program: &Typed,
    paths: &[LockPath],
    number: usize,
) -> Result<(), AllocError>
    ensures { OnOk result (AddsText (text.unlock_line program.now (map lock_path_of paths.now) number) out.old out.new) }
{
    match paths.get(number) {
        Some(path) => push_unlock(out, program, number, path),
        None => Ok(()),
    }
}

/// Appends the release of every lock, that of the last path first.
pub fn push_unlocks(out: &mut String, program: &Typed, paths: &[LockPath]) -> Result<(), AllocError>
    ensures { OnOk result (AddsText (downward (text.unlock_line program.now (map lock_path_of paths.now))
        (length paths.now)) out.old out.new) }
{
    for number in (0..paths.len()).rev() {
        push_unlock_at(out, program, paths, number)?;
    }
    Ok(())
}
