//! The cells that calls touch, computed from the accesses of their sections.

ghost use Rattle.std.specs.Prelude.{◌≡◌, ◌<◌, ◌≤◌, true, length, IfSome};
ghost use Rattle.core_lang.specs.declared.value.Value.{Value as Held};
ghost use Rattle.outcomes.specs.Footprints.{MayHold, MayGive};
ghost use Rattle.outcomes.specs.Working.Listing.{touch_at, touches};
ghost use Rattle.outcomes.specs.Working.Marking.{MayReach, Targets, ElementIsMarked, FieldIsMarked, StepIsMarked};
ghost use Rattle.outcomes.specs.Working.Marking.{PathIsMarked, TouchIsMarked, EachIsMarked, CallIsMarked};
ghost use Rattle.outcomes.specs.Working.Marking.{CallsAreMarked, AllAreMarked, MarksMore, TouchedMore};

use crate::accesses::{Access, AccessWalk};
use crate::marks::{TouchMarks, mark};
use core_lang::access::{cell_of_element, cell_of_field, value_of_final};
use core_lang::shape::Shape;
use core_lang::tree::{Expr, FieldStep, Path};
use core_lang::typed::{Call, Thread};
use core_lang::value::Value;

/// The possible value at a step of a path.
#[derive(Clone, Copy)]
pub enum Reached {
    /// No value: the section has ended.
    Nothing,
    /// This value.
    Known(Value),
    /// Any value.
    Unknown,
}

/// A call, and the thread that makes it.
#[derive(Clone, Copy)]
pub struct Caller<'a> {
    /// The layout of arrays, pools and objects.
    pub shape: &'a Shape,
    /// The arguments of the call.
    pub arguments: &'a [Value],
    /// The thread's number.
    pub thread: usize,
}

impl Caller<'_> {
    // The value of `local`: an argument is known.
    fn local(&self, local: usize) -> Reached
        ensures { (v : Held) → MayHold self.now.arguments.now local v → MayReach result v }
    {
        match self.arguments.get(local) {
            Some(value) => Reached::Known(*value),
            None => Reached::Unknown,
        }
    }

    // The value of an index, which is known for a number or a parameter.
    fn index(&self, e: &Expr) -> Reached
        ensures { (v : Held) → MayGive self.now.arguments.now e.now v → MayReach result v }
    {
        match e {
            Expr::Number(n) => Reached::Known(Value::Int(*n)),
            Expr::Place(path) => {
                if path.fields.is_empty() {
                    self.local(path.local)
                } else {
                    Reached::Unknown
                }
            }
            _ => Reached::Unknown,
        }
    }

    // Marks the element, or the array if the index is not known. Returns whether the mark has a place.
    fn element(&self, array: usize, index: &Expr, marks: &mut TouchMarks) -> bool
        requires { self.now.thread < 128 }
        ensures more { MarksMore marks.old marks.new }
        ensures marked { result ≡ true → ElementIsMarked self.now marks.new array index.now }
    {
        match self.index(index) {
            Reached::Nothing => true,
            Reached::Known(value) => match cell_of_element(self.shape, array, value) {
                Ok(cell) => mark(&mut marks.cells, cell, self.thread),
                Err(_) => true,
            },
            Reached::Unknown => mark(&mut marks.arrays, array, self.thread),
        }
    }

    // Marks a field of `base`. Returns false if `base` is not known.
    fn field(&self, base: Reached, field: u32, marks: &mut TouchMarks) -> bool
        requires { self.now.thread < 128 }
        ensures more { MarksMore marks.old marks.new }
        ensures marked { result ≡ true → FieldIsMarked self.now marks.new base field }
    {
        match base {
            Reached::Nothing => true,
            Reached::Known(value) => match cell_of_field(self.shape, value, field) {
                Ok(cell) => mark(&mut marks.cells, cell, self.thread),
                Err(_) => true,
            },
            Reached::Unknown => false,
        }
    }

    // The target of a final reference of `base`.
    fn target(&self, base: Reached, number: u32) -> Reached
        ensures { Targets self.now.shape.now base number result }
    {
        match base {
            Reached::Nothing => Reached::Nothing,
            Reached::Known(value) => match value_of_final(self.shape, value, number) {
                Ok(target) => Reached::Known(target),
                Err(_) => Reached::Nothing,
            },
            Reached::Unknown => Reached::Unknown,
        }
    }
}

/// The threads that read and that write each cell.
#[derive(Drop)]
pub struct Touched {
    /// The threads that read.
    pub reads: TouchMarks,
    /// The threads that write.
    pub writes: TouchMarks,
}

impl Touched {
    // The value after a further step of a path, and the mark of the field that is read, unless it is final. `None` if
    // the field is not known.
    fn step(&mut self, caller: &Caller, base: Reached, step: FieldStep) -> Option<Reached>
        requires { caller.now.thread < 128 }
        ensures more { TouchedMore self.old self.new }
        ensures marked { IfSome result (StepIsMarked caller.now self.new base step) }
    {
        match step {
            FieldStep::Final { number, .. } => Some(caller.target(base, number)),
            FieldStep::Field { number, .. } => {
                if caller.field(base, number, &mut self.reads) {
                    Some(Reached::Unknown)
                } else {
                    None
                }
            }
        }
    }

    // The value of a path, and the marks of the fields that are read on it. `None` if one of the fields is not known.
    fn path(&mut self, caller: &Caller, path: &Path) -> Option<Reached>
        requires { caller.now.thread < 128 }
        ensures more { TouchedMore self.old self.new }
        ensures marked { IfSome result (PathIsMarked caller.now self.new path.now) }
    {
        let mut reached = caller.local(path.local);
        for field in &path.fields {
            reached = self.step(caller, reached, *field)?;
        }
        Some(reached)
    }

    // Marks the cells of an access. Returns false if they are not known.
    fn touch(&mut self, caller: &Caller, access: Access) -> bool
        requires { caller.now.thread < 128 }
        ensures more { TouchedMore self.old self.new }
        ensures marked { result ≡ true → TouchIsMarked caller.now self.new (touch_at access.entry) }
    {
        match access {
            Access::Path(path) => self.path(caller, path).is_some(),
            Access::Cell(cell) => mark(&mut self.reads.cells, cell as usize, caller.thread),
            Access::Element(array, index) => caller.element(array, index, &mut self.reads),
            Access::Local(local) => local >= caller.arguments.len(),
            Access::SetCell(cell) => mark(&mut self.writes.cells, cell as usize, caller.thread),
            Access::SetElement(array, index) => caller.element(array, index, &mut self.writes),
            Access::SetField(path, field) => match self.path(caller, path) {
                Some(base) => caller.field(base, field, &mut self.writes),
                None => false,
            },
            Access::Call => false,
        }
    }

    // Marks the cells that a call touches. Returns false if they are not known.
    fn call(&mut self, caller: &Caller, body: &AccessWalk) -> bool
        requires { caller.now.thread < 128 }
        ensures more { TouchedMore self.old self.new }
        ensures marked { result ≡ true → EachIsMarked caller.now self.new (touches body.now.accesses.items) }
    {
        for access in &body.accesses {
            if !self.touch(caller, *access) {
                return false;
            }
        }
        true
    }

    // Marks the cells that a call touches, if its section exists. Returns false if they are not known.
    fn call_of(&mut self, shape: &Shape, bodies: &[AccessWalk], thread: usize, call: &Call) -> bool
        requires { thread < 128 }
        ensures more { TouchedMore self.old self.new }
        ensures marked { result ≡ true → CallIsMarked shape.now bodies.now self.new thread call.now }
    {
        match bodies.get(call.section) {
            Some(body) => {
                let caller = Caller {
                    shape,
                    arguments: &call.arguments,
                    thread,
                };
                call.arguments.len() == body.parameters && self.call(&caller, body)
            }
            None => true,
        }
    }

    // Marks the cells that the calls of a thread touch. Returns false if they are not known.
    fn calls(&mut self, shape: &Shape, bodies: &[AccessWalk], thread: usize, calls: &[Call]) -> bool
        requires { thread < 128 }
        ensures more { TouchedMore self.old self.new }
        ensures marked { result ≡ true → CallsAreMarked shape.now bodies.now self.new thread calls.now }
    {
        for call in calls {
            if !self.call_of(shape, bodies, thread, call) {
                return false;
            }
        }
        true
    }

    /// Marks the cells that the calls of all threads touch. Returns false if they are not known.
    pub fn threads(&mut self, shape: &Shape, bodies: &[AccessWalk], threads: &[Thread]) -> bool
        requires { length threads.now ≤ 64 }
        ensures more { TouchedMore self.old self.new }
        ensures marked { result ≡ true → AllAreMarked shape.now bodies.now self.new threads.now }
    {
        for number in 0..threads.len() {
            if !self.calls(shape, bodies, number, &threads[number].calls) {
                return false;
            }
        }
        true
    }
}
