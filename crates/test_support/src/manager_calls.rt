//! Calls of a lock manager, and the lines that report them.

ghost use Rattle.std.specs.Prelude.{◌≡◌, ◌<◌, length, IfOk, IsTrue};
ghost use Rattle.history.specs.Working.Histories.{IsWithin};

use core_lang::value::{Outcome, Value};
use history::kept::{CellValue, EntryRef};
use layout::room::Room;
use lock_manager::answer::Answer;
use lock_manager::manager::Manager;
use lock_manager::ticket::{Spare, Ticket};
use locks::lock::Lock;
use moved_cells::grant::Grant;
use std::alloc::Global;
use std::test::Fail;

/// The room that a section needs at most in these tests.
const ROOM: Room = Room {
    locks: 2,
    cells: 4,
    operands: 0,
    locals: 0,
};

/// An open section with its grants.
struct Session {
    ticket: Ticket,
    grants: Vec<Grant>,
    ghost cells: { ticket.session.room.cells ≡ 4 },
}

/// The entry of an open section that read nothing and wrote `writes`.
fn entry_of<'w>(session: &Session, writes: &'w [CellValue]) -> EntryRef<'w> {
    EntryRef {
        thread: session.ticket.thread(),
        step: 0,
        section: 0,
        arguments: &[],
        begun: session.ticket.begun(),
        reads: &[],
        writes,
        outcome: Outcome::Ends,
        prints: &[],
    }
}

// Whether the lists of an entry have the lengths for which room was made.
fn is_within(entry: &EntryRef<'_>) -> bool
    ensures { IsTrue result → IsWithin 4 entry.now }
{
    entry.arguments.len() <= 8
        && entry.reads.len() <= ROOM.cells
        && entry.writes.len() <= ROOM.cells
        && entry.prints.len() <= 256
}

/// A manager, the open sections, and the text on the calls so far.
pub struct Calls<'p> {
    alloc: Global,
    manager: Manager<'p>,
    sessions: Vec<Session>,
    said: String,
}

impl<'p> Calls<'p> {
    /// The calls of a manager, before the first call.
    pub fn of(alloc: Global, manager: Manager<'p>) -> Calls<'p> {
        Calls {
            alloc,
            manager,
            sessions: Vec::new(alloc),
            said: String::new(alloc),
        }
    }

    /// Gives up all open sections, and returns the text.
    pub fn into_said(self) -> String {
        let Calls {
            alloc: _,
            mut manager,
            mut sessions,
            said,
        } = self;
        while let Some(Session { ticket, mut grants }) = sessions.pop() {
            manager.give_up(ticket, &mut grants);
            grants.destroy_empty();
        }
        sessions.destroy_empty();
        said
    }

    // The index of the thread's section among the open ones.
    fn place(&self, thread: u32) -> Result<usize, Fail>
        ensures { IfOk result (λ place. place < length self.now.sessions.items) }
    {
        for (place, session) in self.sessions.iter().enumerate() {
            if session.ticket.thread() == thread {
                return Ok(place);
            }
        }
        Err(Fail::from("no section of the thread is open"))
    }

    /// Begins a section of the thread.
    pub fn begin(&mut self, thread: u32) -> Result<(), Fail> {
        if thread >= 64 || self.manager.is_open(thread) {
            write!(&mut self.said, "{thread} may not begin\n")?;
            return Ok(());
        }
        self.sessions.reserve(1)?;
        let grants = Vec::with_capacity(self.alloc, ROOM.locks)?;
        let spare = Spare::new();
        match self.manager.begin(self.alloc, thread, ROOM, spare) {
            Ok(ticket) => {
                self.sessions.push(Session { ticket, grants }).unwrap();
                write!(&mut self.said, "{thread} begins\n")?;
                Ok(())
            }
            Err(refused) => {
                grants.destroy_empty();
                Err(refused.into())
            }
        }
    }

    /// Asks for a lock for the thread's section.
    pub fn ask(&mut self, thread: u32, lock: Lock) -> Result<(), Fail> {
        let place = self.place(thread)?;
        let session = &mut self.sessions[place];
        if !self.manager.knows(&session.ticket) || !self.manager.can_ask(&session.ticket, lock) {
            write!(&mut self.said, "{thread} may not ask\n")?;
            return Ok(());
        }
        session.grants.reserve(1)?;
        match self.manager.request(&mut session.ticket, lock) {
            Answer::Granted(grant) => {
                session.grants.push(grant).unwrap();
                write!(&mut self.said, "{thread} is granted the lock\n")?;
            }
            Answer::Held(holder) => {
                write!(&mut self.said, "{thread} waits for {holder}\n")?;
            }
        }
        Ok(())
    }

    /// Sets a cell of the lock that was granted first to the thread's section.
    pub fn set(&mut self, thread: u32, offset: u32, value: i64) -> Result<(), Fail> {
        let place = self.place(thread)?;
        let Some(grant) = self.sessions[place].grants.get_mut(0) else {
            return Err(Fail::from("nothing is granted"));
        };
        if offset as usize >= grant.values().len() {
            return Err(Fail::from("no such cell"));
        }
        grant.write(offset, Value::Int(value));
        Ok(())
    }

    /// Appends what the cells of the thread's first lock hold.
    pub fn say_values(&mut self, thread: u32) -> Result<(), Fail> {
        let place = self.place(thread)?;
        for grant in &self.sessions[place].grants {
            for value in grant.values() {
                write!(&mut self.said, "{value:?} ")?;
            }
        }
        write!(&mut self.said, "are with {thread}\n")?;
        Ok(())
    }

    /// Gives up the thread's section.
    pub fn give_up(&mut self, thread: u32) -> Result<(), Fail> {
        let place = self.place(thread)?;
        let Session { ticket, mut grants } = self.sessions.swap_remove(place);
        self.manager.give_up(ticket, &mut grants);
        grants.destroy_empty();
        write!(&mut self.said, "{thread} gives up\n")?;
        Ok(())
    }

    /// Ends the thread's section, which has written `writes`.
    pub fn release(&mut self, thread: u32, writes: &[CellValue]) -> Result<(), Fail> {
        let place = self.place(thread)?;
        let session = &self.sessions[place];
        let entry = entry_of(session, writes);
        if !is_within(&entry) || !self.manager.fits(&session.ticket, &session.grants, &entry) {
            write!(&mut self.said, "{thread} may not end\n")?;
            return Ok(());
        }
        let Session { ticket, mut grants } = self.sessions.swap_remove(place);
        let receipt = self.manager.release(ticket, &mut grants, &entry);
        grants.destroy_empty();
        let position = receipt.position();
        write!(
            &mut self.said,
            "{thread} ends at {position}, wakes {:?} {:?}\n",
            receipt.wake(0),
            receipt.wake(1)
        )?;
        Ok(())
    }

    /// Appends who holds a lock, and who waits for it.
    pub fn say_lock(&mut self, lock: Lock) -> Result<(), Fail> {
        let holder = self.manager.holder(lock);
        let first = self.manager.waiting(lock, 0);
        let second = self.manager.waiting(lock, 1);
        let third = self.manager.waiting(lock, 2);
        write!(
            &mut self.said,
            "held by {holder:?}, waiting {first:?} {second:?} {third:?}\n"
        )?;
        Ok(())
    }

    /// Appends what a cell holds, and the number of entries.
    pub fn say_cell(&mut self, cell: usize) -> Result<(), Fail> {
        let value = self.manager.cell(cell);
        let entries = self.manager.history().len();
        write!(
            &mut self.said,
            "cell {cell} holds {value:?}, {entries} entries\n"
        )?;
        Ok(())
    }
}
