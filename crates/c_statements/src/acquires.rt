//! Writes the acquires of a section as C text. The only error is a failed allocation.

ghost use Rattle.std.specs.Prelude.{◌≡◌, ◌<◌, ◌-◌, ◌^◌, OnOk, IfOk};
ghost use Rattle.std.specs.List.{flat_map};
ghost use Rattle.core_lang.specs.Typing as typing;
ghost use Rattle.locks.specs.Texts.{AddsText, struct_if_reference};
ghost use Rattle.c_language.specs.Groups.{member};
ghost use Rattle.c_statements.specs.Names.{final_text};
ghost use Rattle.c_statements.specs.Acquires as text;

use crate::class_loops::ClassLoops;
use crate::names::push_local;
use crate::operands::OperandScope;
use c_language::statement::StructMember;
use core_lang::tree::Local;
use core_lang::typed::Typed;
use core_lang::value::ValueType;
use locks::path::{LockPath, Root};
use locks::text::{push_last, push_path};
use source::memory::NoMemory;
use std::alloc::{AllocError, Global};

/// The struct of the objects that a local can refer to.
fn referenced(value_type: ValueType) -> Option<usize>
    ensures { result ≡ struct_if_reference value_type }
{
    match value_type {
        ValueType::Integer => None,
        ValueType::Reference(structure) => Some(structure),
    }
}

/// The struct that a final reference refers to.
fn final_target(program: &Typed, member: StructMember) -> Option<usize>
    ensures { result ≡ typing.final_target program.now member.structure member.number }
{
    let structure = program.structs.get(member.structure)?;
    let field = structure.finals.get(member.number as usize)?;
    Some(field.target)
}

/// Appends the test that the lock at `place` is that of one of these paths.
fn push_is_held(out: &mut String, place: usize, class: &[usize]) -> Result<(), AllocError>
    ensures { OnOk result (AddsText (text.is_held_text place class.now) out.old out.new) }
{
    let Some((first, rest)) = class.split_first() else {
        return Ok(());
    };
    write!(out, "m[{place}] == h[{first}]")?;
    for number in rest {
        write!(out, " || m[{place}] == h[{number}]")?;
    }
    Ok(())
}

/// Appends the alternative that the lock at `place` is that at `other`.
fn push_or_equals(out: &mut String, place: usize, other: usize) -> Result<(), AllocError>
    ensures { OnOk result (AddsText (text.or_equals_text place (text.asked other)) out.old out.new) }
{
    write!(out, " || m[{place}] == m[{other}]")
}

/// Appends the alternatives that the lock at `place` is that of a later place below `count`.
fn push_is_later(out: &mut String, place: usize, count: usize) -> Result<(), AllocError>
    requires { place < count }
    ensures { OnOk result (AddsText (text.is_later_text count place) out.old out.new) }
{
    for later in place + 1..count {
        push_or_equals(out, place, later)?;
    }
    Ok(())
}

/// Appends the drop of the lock at `place`, if it is held or asked for again later.
fn push_drop(
    out: &mut String,
    class: &[usize],
    count: usize,
    place: usize,
) -> Result<(), AllocError>
    requires { place < count }
    ensures { OnOk result (AddsText (text.drop_text class.now count place) out.old out.new) }
{
    out.push_str("  if (")?;
    push_is_held(out, place, class)?;
    push_is_later(out, place, count)?;
    write!(out, ") m[{place}] = NULL;\n")
}

/// Appends the drop of each lock that is held or asked for again, from the last place to the first.
fn push_drops(out: &mut String, class: &[usize], count: usize) -> Result<(), AllocError>
    ensures { OnOk result (AddsText (text.downward (text.drop_text class.now count) count) out.old out.new) }
{
    for place in (0..count).rev() {
        push_drop(out, class, count, place)?;
    }
    Ok(())
}

/// Appends that path `number` holds the lock at `place`, if that is not dropped.
fn push_keep(out: &mut String, place: usize, number: u8) -> Result<(), AllocError>
    ensures { OnOk result (AddsText (text.keep_text place number) out.old out.new) }
{
    write!(out, "  if (m[{place}] != NULL) h[{number}] = m[{place}];\n")
}

/// Appends that the paths of a run hold its locks that are not dropped.
fn push_kept(out: &mut String, run: &[u8]) -> Result<(), AllocError>
    ensures { OnOk result (AddsText (text.numbered text.keep_text 0 run.now) out.old out.new) }
{
    for (place, number) in run.iter().enumerate() {
        push_keep(out, place, *number)?;
    }
    Ok(())
}

/// Appends the exchange of the locks at `place` and the next place into order.
fn push_exchange(out: &mut String, place: usize) -> Result<(), AllocError>
    requires { place < 2 ^ 64 - 1 }
    ensures { OnOk result (AddsText (text.exchange_text place) out.old out.new) }
{
    let next = place + 1;
    write!(out, "  AL_ORDER(m[{place}], m[{next}]);\n")
}

/// Appends the move of the lock at `place` to its position among those after it.
fn push_insert(out: &mut String, count: usize, place: usize) -> Result<(), AllocError>
    requires { place < count - 1 }
    ensures { OnOk result (AddsText (text.insert_text count place) out.old out.new) }
{
    for left in place..count - 1 {
        push_exchange(out, left)?;
    }
    Ok(())
}

/// Appends the sort of a run's locks.
fn push_inserts(out: &mut String, count: usize) -> Result<(), AllocError>
    ensures { OnOk result (AddsText (text.downward (text.insert_text count) (count - 1)) out.old out.new) }
{
    for place in (0..count.saturating_sub(1)).rev() {
        push_insert(out, count, place)?;
    }
    Ok(())
}

/// Appends the call that acquires the lock at `place`, if it is not dropped.
fn push_lock(out: &mut String, place: usize) -> Result<(), AllocError>
    ensures { OnOk result (AddsText (text.lock_text place) out.old out.new) }
{
    write!(out, "  if (m[{place}] != NULL) AL_LOCK(m[{place}]);\n")
}

/// Appends the calls that acquire a run's locks.
fn push_locks(out: &mut String, count: usize) -> Result<(), AllocError>
    ensures { OnOk result (AddsText (text.upward text.lock_text 0 count) out.old out.new) }
{
    for place in 0..count {
        push_lock(out, place)?;
    }
    Ok(())
}

/// Appends a call of the function `name` on a run's locks, with `more` after their count.
fn push_call(out: &mut String, name: &str, count: usize, more: &str) -> Result<(), AllocError>
    ensures { OnOk result (AddsText (text.call_text name.now count more.now) out.old out.new) }
{
    write!(out, "  {name}(m, {count}{more});\n")
}

/// Appends the call that drops held locks from a run's locks.
fn push_drop_call(out: &mut String, count: usize, held: usize) -> Result<(), AllocError>
    ensures { OnOk result (AddsText (text.drop_call_text count held) out.old out.new) }
{
    write!(out, "  autolock_drop(m, {count}, h, {held});\n")
}

/// Writes the acquires of a section.
#[derive(Clone, Copy)]
pub struct Acquires<'a> {
    /// The program and the section.
    pub scope: OperandScope<'a>,
    /// The section's lock paths.
    pub paths: &'a [LockPath],
}

impl Acquires<'_> {
    ghost use Rattle.c_statements.specs.Working.Taken.{lock_of, address_of, tested_of, lock_one_of, locks_of, alone_of, or_null_of};
    ghost use Rattle.c_statements.specs.Working.Taken.{ask_of, asked_of, few_of, many_of, among_of, run_of, run_at, take_of};
    ghost use Rattle.c_statements.specs.Working.Taken.{Goes, paths_in, class_of, same_class_of, alone_at, ask_at};
    ghost use Rattle.c_statements.specs.Working.Taken.{path_at, paths_of, acquire_of};

    // Appends a final reference of a struct. Returns the struct that it refers to.
    fn push_final(
        &self,
        out: &mut String,
        structure: usize,
        number: u32,
    ) -> Result<Option<usize>, AllocError>
        ensures text { OnOk result (AddsText (final_text self.now.scope.program.now (member structure number))
            out.old out.new) }
        ensures next { IfOk result (λ next. next
            ≡ typing.final_target self.now.scope.program.now structure number) }
    {
        let member = StructMember { structure, number };
        self.scope.push_final(out, member)?;
        Ok(final_target(self.scope.program, member))
    }

    // Appends final references that lead on from a struct.
    fn push_finals(
        &self,
        out: &mut String,
        structure: Option<usize>,
        finals: &[u32],
    ) -> Result<(), AllocError>
        ensures { OnOk result (AddsText (text.finals_text self.now.scope.program.now structure finals.now)
            out.old out.new) }
    {
        let mut from = structure;
        for number in finals {
            match from {
                Some(structure) => from = self.push_final(out, structure, *number)?,
                None => return Ok(()),
            }
        }
        Ok(())
    }

    // Appends the lock of a path that begins at this local.
    fn push_lock_of(
        &self,
        out: &mut String,
        path: &LockPath,
        number: usize,
        local: &Local,
    ) -> Result<(), AllocError>
        ensures { OnOk result (AddsText (lock_of self.now path.now number local.now) out.old out.new) }
    {
        out.push_str("&")?;
        push_local(out, number, local)?;
        self.push_finals(out, referenced(local.value_type), &path.finals)?;
        out.push_str("->l_")?;
        push_last(out, self.scope.program, path.class)
    }

    // Appends the address of the lock that a path names.
    fn push_address(&self, out: &mut String, path: &LockPath) -> Result<(), AllocError>
        ensures { OnOk result (AddsText (address_of self.now path.now) out.old out.new) }
    {
        match path.root {
            Root::GlobalLock => {
                out.push_str("&")?;
                self.scope.push_lock_member(out, path.class)?;
                out.push_str(".lock")
            }
            Root::WholeClass(_) => Ok(()),
            Root::Local(number) => match self.scope.section.locals.get(number) {
                Some(local) => self.push_lock_of(out, path, number, local),
                None => Ok(()),
            },
        }
    }

    // Appends the test that the root is not null, if it can be.
    fn push_root_test(&self, out: &mut String, root: Root) -> Result<(), AllocError>
        ensures { OnOk result (AddsText (tested_of self.now root) out.old out.new) }
    {
        match root {
            Root::GlobalLock | Root::WholeClass(_) => Ok(()),
            Root::Local(number) => {
                out.push_str(" && ")?;
                self.scope.push_variable(out, number)?;
                out.push_str(" != NULL")
            }
        }
    }

    // Appends that a path acquires the one lock that it names.
    fn push_take_one(
        &self,
        out: &mut String,
        number: usize,
        path: &LockPath,
    ) -> Result<(), AllocError>
        ensures { OnOk result (AddsText (lock_one_of self.now number path.now) out.old out.new) }
    {
        write!(out, " h[{number}] = ")?;
        self.push_address(out, path)?;
        write!(out, "; AL_LOCK(h[{number}]);")
    }

    // Appends that a path acquires its lock, or each lock of its class.
    fn push_take(&self, out: &mut String, number: usize, path: &LockPath) -> Result<(), AllocError>
        ensures { OnOk result (AddsText (locks_of self.now number path.now) out.old out.new) }
    {
        match path.root {
            Root::WholeClass(structure) => {
                let loops = ClassLoops {
                    program: self.scope.program,
                    class: path.class,
                    structure,
                    number,
                };
                loops.push(out, "AL_LOCK")
            }
            Root::GlobalLock | Root::Local(_) => self.push_take_one(out, number, path),
        }
    }

    // Appends that the only path of its class acquires its lock, or each lock of its class.
    fn push_alone_of(
        &self,
        out: &mut String,
        number: usize,
        path: &LockPath,
    ) -> Result<(), AllocError>
        ensures { OnOk result (AddsText (alone_of self.now number path.now) out.old out.new) }
    {
        write!(out, "  if (AL_RARE(h[{number}] == NULL")?;
        self.push_root_test(out, path.root)?;
        out.push_str(")) {")?;
        self.push_take(out, number, path)?;
        out.push_str(" }\n")
    }

    // Appends that the path `number`, the only one of its class, acquires its lock.
    fn push_alone(&self, out: &mut String, number: u8) -> Result<(), AllocError>
        ensures { OnOk result (AddsText (alone_at self.now number) out.old out.new) }
    {
        match self.paths.get(number as usize) {
            Some(path) => self.push_alone_of(out, number as usize, path),
            None => Ok(()),
        }
    }

    // Appends the address of a lock, or `NULL` if the root is null.
    fn push_or_null(&self, out: &mut String, path: &LockPath) -> Result<(), AllocError>
        ensures { OnOk result (AddsText (or_null_of self.now path.now) out.old out.new) }
    {
        match path.root {
            Root::GlobalLock | Root::WholeClass(_) => self.push_address(out, path),
            Root::Local(number) => {
                self.scope.push_variable(out, number)?;
                out.push_str(" != NULL ? ")?;
                self.push_address(out, path)?;
                out.push_str(" : NULL")
            }
        }
    }

    // Appends that a path asks for its lock, at `place` of its run.
    fn push_ask_of(&self, out: &mut String, place: usize, path: &LockPath) -> Result<(), AllocError>
        ensures { OnOk result (AddsText (ask_of self.now place path.now) out.old out.new) }
    {
        write!(out, "  m[{place}] = ")?;
        self.push_or_null(out, path)?;
        out.push_str(";\n")
    }

    // Appends that the path `number` asks for its lock, at `place` of its run.
    fn push_ask(&self, out: &mut String, place: usize, number: u8) -> Result<(), AllocError>
        ensures { OnOk result (AddsText (ask_at self.now place number) out.old out.new) }
    {
        match self.paths.get(number as usize) {
            Some(path) => self.push_ask_of(out, place, path),
            None => Ok(()),
        }
    }

    // Appends that each path of a run asks for its lock.
    fn push_asked(&self, out: &mut String, run: &[u8]) -> Result<(), AllocError>
        ensures { OnOk result (AddsText (asked_of self.now run.now) out.old out.new) }
    {
        for (place, number) in run.iter().enumerate() {
            self.push_ask(out, place, *number)?;
        }
        Ok(())
    }

    // Appends a run of a class of few paths.
    fn push_few(&self, out: &mut String, class: &[usize], run: &[u8]) -> Result<(), AllocError>
        ensures { OnOk result (AddsText (few_of self.now class.now run.now) out.old out.new) }
    {
        let count = run.len();
        self.push_asked(out, run)?;
        push_drops(out, class, count)?;
        push_kept(out, run)?;
        push_inserts(out, count)?;
        push_locks(out, count)
    }

    // Appends a run of a class of many paths.
    fn push_many(&self, out: &mut String, run: &[u8]) -> Result<(), AllocError>
        ensures { OnOk result (AddsText (many_of self.now run.now) out.old out.new) }
    {
        let count = run.len();
        let held = self.paths.len();
        self.push_asked(out, run)?;
        push_drop_call(out, count, held)?;
        push_kept(out, run)?;
        push_call(out, "autolock_order", count, "")?;
        push_call(out, "autolock_lock", count, "")
    }

    // Appends the paths of a run, each of which is the only path of its class.
    fn push_each(&self, out: &mut String, run: &[u8]) -> Result<(), AllocError>
        ensures { OnOk result (AddsText (flat_map (alone_at self.now) run.now) out.old out.new) }
    {
        for number in run {
            self.push_alone(out, *number)?;
        }
        Ok(())
    }

    // Appends a run of a class that has these paths.
    fn push_among(&self, out: &mut String, class: &[usize], run: &[u8]) -> Result<(), AllocError>
        ensures { OnOk result (AddsText (among_of self.now class.now run.now) out.old out.new) }
    {
        if class.len() <= 1 {
            return self.push_each(out, run);
        }
        if class.len() <= 8 {
            return self.push_few(out, class, run);
        }
        self.push_many(out, run)
    }

    // The paths of a class, as indexes.
    fn of_class(&self, alloc: Global, class: usize) -> Result<Vec<usize>, NoMemory>
        ensures { IfOk result (λ numbers. numbers.items ≡ class_of self.now class) }
    {
        let mut numbers = Vec::new(alloc);
        for (number, path) in self.paths.iter().enumerate() {
            if path.class == class {
                numbers.push(number)?;
            }
        }
        Ok(numbers)
    }

    // Whether two paths have one class.
    fn is_same_class(&self, first: u8, second: u8) -> bool
        ensures { result ≡ same_class_of self.now first second }
    {
        match (
            self.paths.get(first as usize),
            self.paths.get(second as usize),
        ) {
            (Some(first), Some(second)) => second.class == first.class,
            _ => false,
        }
    }

    // Appends a run of the class of path `number`.
    fn push_run_at(
        &self,
        alloc: Global,
        out: &mut String,
        run: &[u8],
        number: u8,
    ) -> Result<(), NoMemory>
        ensures { OnOk result (AddsText (run_at self.now run.now number) out.old out.new) }
    {
        match self.paths.get(number as usize) {
            Some(path) => {
                let class = self.of_class(alloc, path.class)?;
                self.push_among(out, &class, run)?;
                Ok(())
            }
            None => Ok(()),
        }
    }

    // Appends a run of paths of one class.
    fn push_run(&self, alloc: Global, out: &mut String, run: &[u8]) -> Result<(), NoMemory>
        ensures { OnOk result (AddsText (run_of self.now run.now) out.old out.new) }
    {
        match run.split_first() {
            Some((first, _)) => self.push_run_at(alloc, out, run, *first),
            None => Ok(()),
        }
    }

    // Whether a run ends before this path, which is of another class.
    fn is_other(&self, run: &[u8], number: u8) -> bool
        ensures { result ≡ text.is_other (paths_in self.now) run.now number }
    {
        match run.split_first() {
            Some((first, _)) => !self.is_same_class(*first, number),
            None => false,
        }
    }

    // Appends a path to the current run, after writing that run if the path is of another class.
    fn push_next(
        &self,
        alloc: Global,
        out: &mut String,
        run: &mut Vec<u8>,
        number: u8,
    ) -> Result<(), NoMemory>
        ensures { OnOk result (Goes self.now number out.old out.new run.old.items run.new.items) }
    {
        if self.is_other(run, number) {
            self.push_run(alloc, out, run)?;
            run.clear();
            run.push(number)?;
            return Ok(());
        }
        run.push(number)?;
        Ok(())
    }

    // Appends a path as the program's text has it.
    fn push_path(&self, out: &mut String, number: u8) -> Result<(), AllocError>
        ensures { OnOk result (AddsText (path_at self.now number) out.old out.new) }
    {
        match self.paths.get(number as usize) {
            Some(path) => push_path(out, self.scope.program, self.scope.section, path),
            None => Ok(()),
        }
    }

    // Appends paths with a space before each.
    fn push_paths(&self, out: &mut String, list: &[u8]) -> Result<(), AllocError>
        ensures { OnOk result (AddsText (paths_of self.now list.now) out.old out.new) }
    {
        for number in list {
            out.push_str(" ")?;
            self.push_path(out, *number)?;
        }
        Ok(())
    }

    // Appends a comment that says which locks are acquired.
    fn push_taken(&self, out: &mut String, list: &[u8]) -> Result<(), AllocError>
        ensures { OnOk result (AddsText (take_of self.now list.now) out.old out.new) }
    {
        out.push_str("  /* take")?;
        self.push_paths(out, list)?;
        out.push_str(" */\n")
    }

    /// Appends an acquire of these paths, which are indexes.
    pub fn push(&self, alloc: Global, out: &mut String, list: &[u8]) -> Result<(), NoMemory>
        ensures { OnOk result (AddsText (acquire_of self.now list.now) out.old out.new) }
    {
        self.push_taken(out, list)?;
        let mut run: Vec<u8> = Vec::new(alloc);
        for number in list {
            self.push_next(alloc, out, &mut run, *number)?;
        }
        self.push_run(alloc, out, &run)
    }
}
