//! Values of cells, noted at the cells' places.

ghost use Rattle.std.specs.Prelude.{◌≡◌, ◌<◌, ◌≤◌, [], length, None, OnOk, slice_get, slice_index_or, vec_capacity};
ghost use Rattle.runner_machine.specs.Working.Noted.{in_order, number_of, with_note, if_of, EachOnce, IsFilled};

use core_lang::value::Value;
use history::kept::CellValue;
use source::memory::NoMemory;
use std::alloc::Global;
use std::marker::Model;

/// Values of cells, noted at the cells' places. Its value is the notes, and the marks of the places.
#[derive(Drop)]
pub struct Notes {
    // By place: the index of its cell's note in the list. A mark counts only if the note there is of this cell, so that
    // the marks of former sections need no clearing. The marks after the last one that was ever set are 0, and are not
    // stored: if few of many cells are noted, little of the memory for the marks is touched.
    marks: Vec<usize>,
    // The number of marks, stored or not.
    long: usize,
    // In the order in which the cells were first noted; at the end, in order of the cells' numbers.
    list: Vec<CellValue>,
    // The number of places that can be noted. If it is 0, nothing can be noted, and the list is in order.
    room: usize,
}

impl Model for Notes {
    ghost use Rattle.std.specs.Prelude.{◌≡◌, ◌≤◌, length, vec_capacity};
    ghost use Rattle.runner_machine.specs.Working.Noted.{NotesOf, in_order, padded};

    ghost Value = { NotesOf };

    ghost view = { λ n. record { marks = padded n.marks.items n.long; list = n.list.items; room = n.room } };

    ghost invariant = { λ n.
        (n.room ≤ n.long)
        × (n.long ≤ vec_capacity n.marks)
        × (length n.marks.items ≤ n.long)
        × (n.room ≤ vec_capacity n.list)
        × (n.room ≡ 0 → in_order n.list.items ≡ n.list.items) };
}

impl Notes {
    /// No notes, and no room.
    pub fn new(alloc: Global) -> Notes
        ensures list { result.list ≡ [] }
        ensures room { result.room ≡ 0 }
    {
        Notes {
            marks: Vec::new(alloc),
            long: 0,
            list: Vec::new(alloc),
            room: 0,
        }
    }

    /// Removes the notes and the room. The memory stays.
    pub fn clear(&mut self)
        ensures list { self.new.list ≡ [] }
        ensures room { self.new.room ≡ 0 }
    {
        self.list.clear();
        self.room = 0;
    }

    /// Removes the notes, and makes room for `room` places. The memory grows if it is too small.
    ///
    /// # Errors
    ///
    /// Out of memory. The notes and the room are then empty.
    pub fn renew(&mut self, room: usize) -> Result<(), NoMemory>
        ensures list { OnOk result (self.new.list ≡ []) }
        ensures room { OnOk result (self.new.room ≡ room) }
        ensures marks { OnOk result (room ≤ length self.new.marks) }
    {
        self.clear();
        if self.long < room {
            self.marks.reserve(room - self.marks.len())?;
            self.long = room;
        }
        self.list.reserve(room)?;
        self.room = room;
        Ok(())
    }

    /// The index of the note of `cell`, whose place is `place`, if it is noted.
    #[inline]
    pub fn number(&self, place: usize, cell: u32) -> Option<usize>
        requires { place < self.now.room }
        ensures { result ≡ number_of self.now place cell }
    {
        led_by(&self.list, mark_at(&self.marks, place), cell)
    }

    /// Notes `value` for `cell`, whose place is `place`.
    #[inline]
    pub fn note(&mut self, place: usize, cell: u32, value: Value)
        requires place { place < self.old.room }
        requires more { number_of self.old place cell ≡ None → length self.old.list < self.old.room }
        ensures { self.new ≡ with_note self.old place cell value }
    {
        match self.number(place, cell) {
            Some(number) => self.list[number] = (cell, value),
            None => {
                fill(&mut self.marks, place);
                self.marks[place] = self.list.len();
                self.list.push((cell, value)).unwrap();
            }
        }
    }

    /// Puts the notes in order of the cells' numbers, and removes the room, since the marks no longer hold.
    pub fn finish(&mut self)
        requires { EachOnce self.old.list }
        ensures list { self.new.list ≡ in_order self.old.list }
        ensures room { self.new.room ≡ 0 }
    {
        self.list.sort_unstable_by_key(|noted| noted.0);
        self.room = 0;
    }

    /// The notes, in order of the cells' numbers.
    pub fn list(&self) -> &[CellValue]
        requires { self.now.room ≡ 0 }
        ensures { result.now ≡ in_order self.now.list }
    {
        self.list.as_slice()
    }
}

// The mark at `place`; 0 if none is stored.
#[inline]
fn mark_at(marks: &[usize], place: usize) -> usize
    ensures { result ≡ slice_index_or marks.now place 0 }
{
    if place < marks.len() { marks[place] } else { 0 }
}

// The mark, if it leads to a note of `cell`.
#[inline]
fn led_by(list: &[CellValue], mark: usize, cell: u32) -> Option<usize>
    ensures { result ≡ if_of cell mark (slice_get list.now mark) }
{
    match list.get(mark) {
        Some(noted) if noted.0 == cell => Some(mark),
        _ => None,
    }
}

// Stores marks of 0 up to `place`, for which there is room.
fn fill(marks: &mut Vec<usize>, place: usize)
    requires { place < vec_capacity marks.old }
    ensures filled { IsFilled marks.old.items place marks.new.items }
    ensures capacity { vec_capacity marks.old ≤ vec_capacity marks.new }
{
    while marks.len() <= place {
        marks.push(0).unwrap();
    }
}
