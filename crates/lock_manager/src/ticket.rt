//! Tickets and receipts, and their memory.

ghost use Rattle.std.specs.Prelude.{◌≡◌, ◌<◌, ◌≤◌, ◌↔◌, length, slice_get, IfOk, IsTrue, OnOk, vec_len, vec_capacity};
ghost use Rattle.history.specs.{IsWithin};
ghost use Rattle.lock_manager.specs.Working.Sessions.{fresh, with_lock, with_ask};
ghost use Rattle.layout.specs.Layouts.{AreDistinct};
ghost use Rattle.lock_manager.specs.Working.Ties.{HasWakingRoom, awaiting as awaiting_in};
ghost use Rattle.lock_manager.specs.Working.Calls.{ticket_with, first_waiters};

use crate::queue::Queue;
use crate::session::Session;
use history::kept::EntryRef;
use layout::room::Room;
use locks::lock::Lock;
use source::memory::NoMemory;
use std::alloc::Global;
use std::marker::Model;

// The contents of a ticket, in one block that is passed from one section to the next. The contents of a kept block
// don't matter.
#[derive(Drop)]
pub(crate) struct TicketBlock {
    pub(crate) thread: u32,
    pub(crate) session: Session,
    // The threads to wake at the end.
    pub(crate) wake: Vec<u32>,
}

/// Memory for a ticket. Its contents don't matter.
#[derive(Drop)]
pub struct Spare {
    pass: Option<Box<TicketBlock>>,
}

impl Spare {
    /// No memory yet.
    pub fn new() -> Spare {
        Spare { pass: None }
    }

    // The block of a ticket for a section that begins, with room for the threads to wake.
    pub(crate) fn pass(
        self,
        alloc: Global,
        thread: u32,
        begun: usize,
        room: Room,
    ) -> Result<Box<TicketBlock>, NoMemory>
        ensures thread { IfOk result (λ p. p.value.thread ≡ thread) }
        ensures session { IfOk result (λ p. p.value.session ≡ fresh begun room) }
        ensures waking { IfOk result
            (λ p. HasWakingRoom p.value.session (vec_len p.value.wake) (vec_capacity p.value.wake)) }
    {
        match self.pass {
            Some(pass) => renewed(pass, thread, begun, room),
            None => {
                let session = Session::new(begun, room, Vec::new(alloc))?;
                let wake = waking_room(room.locks, Vec::new(alloc))?;
                Ok(Box::new(
                    alloc,
                    TicketBlock {
                        thread,
                        session,
                        wake,
                    },
                )?)
            }
        }
    }
}

// The same, in the block of the last section.
fn renewed(
    mut pass: Box<TicketBlock>,
    thread: u32,
    begun: usize,
    room: Room,
) -> Result<Box<TicketBlock>, NoMemory>
    ensures thread { IfOk result (λ p. p.value.thread ≡ thread) }
    ensures session { IfOk result (λ p. p.value.session ≡ fresh begun room) }
    ensures waking { IfOk result
        (λ p. HasWakingRoom p.value.session (vec_len p.value.wake) (vec_capacity p.value.wake)) }
{
    renew(&mut pass, thread, begun, room)?;
    Ok(pass)
}

fn renew(pass: &mut TicketBlock, thread: u32, begun: usize, room: Room) -> Result<(), NoMemory>
    ensures thread { pass.new.thread ≡ thread }
    ensures session { OnOk result (pass.new.session ≡ fresh begun room) }
    ensures waking { OnOk result (HasWakingRoom pass.new.session (vec_len pass.new.wake) (vec_capacity pass.new.wake)) }
{
    pass.thread = thread;
    pass.session.renew(begun, room)?;
    empty_for(room.locks, &mut pass.wake)
}

// Empties the list of threads to wake, and makes room for `locks` threads. Errors: out of memory.
fn empty_for(locks: usize, wake: &mut Vec<u32>) -> Result<(), NoMemory>
    ensures none { vec_len wake.new ≡ 0 }
    ensures room { OnOk result (locks ≤ vec_capacity wake.new) }
{
    wake.clear();
    wake.reserve(locks)?;
    Ok(())
}

// An empty list of threads to wake, with room for `locks` threads, in the memory of `wake`.
fn waking_room(locks: usize, mut wake: Vec<u32>) -> Result<Vec<u32>, NoMemory>
    ensures none { IfOk result (λ woken. vec_len woken ≡ 0) }
    ensures room { IfOk result (λ woken. locks ≤ vec_capacity woken) }
{
    empty_for(locks, &mut wake)?;
    Ok(wake)
}

/// The right to ask for locks for a thread's section and to end it. It can't be copied, and must be used up.
pub struct Ticket {
    pub(crate) pass: Box<TicketBlock>,
}

impl Model for Ticket {
    ghost use Rattle.std.specs.Prelude.{vec_len, vec_capacity};
    ghost use Rattle.lock_manager.specs.Working.Sessions.{TicketOf};

    ghost Value = { TicketOf };

    ghost view = { λ t. record { thread = t.pass.value.thread; session = t.pass.value.session } };

    ghost use Rattle.lock_manager.specs.Working.Ties.{HasWakingRoom};

    ghost invariant = { λ t.
        HasWakingRoom t.pass.value.session (vec_len t.pass.value.wake) (vec_capacity t.pass.value.wake) };
}

impl Ticket {
    /// The thread.
    #[inline]
    pub fn thread(&self) -> u32
        ensures { result ≡ self.now.thread }
    {
        self.pass.thread
    }

    /// The length of the history when the section began.
    #[inline]
    pub fn begun(&self) -> usize
        ensures { result ≡ self.now.session.begun }
    {
        self.pass.session.begun()
    }

    /// The locks that its section holds, the oldest first.
    #[inline]
    pub fn held(&self) -> &[Lock]
        ensures { result.now ≡ self.now.session.held }
    {
        self.pass.session.held()
    }

    /// Whether the begin of the section made room for `entry`. With [`crate::manager::Manager::fits`] this is all that
    /// [`crate::manager::Manager::release`] requires.
    pub fn has_room_for(&self, entry: &EntryRef<'_>) -> bool
        ensures { IsTrue result ↔ IsWithin self.now.session.room.cells entry.now }
    {
        let cells = self.pass.session.room().cells;
        entry.arguments().len() <= 8
            && entry.reads().len() <= cells
            && entry.writes().len() <= cells
            && entry.prints().len() <= 256
    }
}

impl Ticket {
    // The lock that the section has asked for and not yet been granted.
    pub(crate) fn ask(&self) -> Option<Lock>
        ensures { result ≡ self.now.session.ask }
    {
        self.pass.session.ask()
    }

    // Notes that `lock` is granted.
    pub(crate) fn grant(&mut self, lock: Lock)
        requires { length self.old.session.held < self.old.session.room.locks }
        ensures { self.new ≡ ticket_with self.old (with_lock self.old.session lock) }
    {
        self.pass.session.grant(lock);
    }

    // Notes that `lock` is asked for.
    pub(crate) fn note(&mut self, lock: Lock)
        ensures { self.new ≡ ticket_with self.old (with_ask self.old.session lock) }
    {
        self.pass.session.note(lock);
    }

    // The record of the section.
    pub(crate) fn session(&self) -> &Session
        ensures { result.now ≡ self.now.session }
    {
        &self.pass.session
    }

    // Drops the ticket, and returns its thread.
    pub(crate) fn into_thread(self) -> u32
        ensures { result ≡ self.thread }
    {
        let Ticket { pass } = self;
        pass.thread
    }

    // Ends the ticket: returns its thread and its block, with the first waiter for each of its locks. At most `awaiting`
    // threads wait for one of these.
    pub(crate) fn woken(self, queue: &Queue, awaiting: usize) -> (u32, Box<TicketBlock>)
        requires distinct { AreDistinct self.session.held }
        requires awaiting { awaiting_in queue.now self.session.held ≤ awaiting }
        ensures thread { result.0 ≡ self.thread }
        ensures wake { result.1.value.wake.items ≡ first_waiters queue.now self.session.held }
    {
        let Ticket { mut pass } = self;
        let block = &mut *pass;
        let thread = block.thread;
        wake_first(block.session.held(), queue, awaiting, &mut block.wake);
        (thread, pass)
    }
}

// Appends to `wake` the first waiter for each lock in `held` that has one. After the last lock for which a thread waits
// there is nothing to find: mostly none waits, or all wait for one lock, among thousands.
fn wake_first(held: &[Lock], queue: &Queue, awaiting: usize, wake: &mut Vec<u32>)
    requires none { vec_len wake.old ≡ 0 }
    requires room { length held.now ≤ vec_capacity wake.old }
    requires distinct { AreDistinct held.now }
    requires awaiting { awaiting_in queue.now held.now ≤ awaiting }
    ensures { wake.new.items ≡ first_waiters queue.now held.now }
{
    let mut left = awaiting;
    for lock in held {
        if left == 0 {
            return;
        }
        if let Some(first) = queue.nth(*lock, 0) {
            wake.push(first).unwrap();
            left -= queue.count(*lock);
        }
    }
}

/// The result of ending a section: the position of its entry, and the threads to wake.
#[derive(Drop)]
pub struct Receipt {
    pub(crate) position: usize,
    pub(crate) pass: Box<TicketBlock>,
}

impl Model for Receipt {
    ghost use Rattle.lock_manager.specs.Working.Sessions.{ReceiptOf};

    ghost Value = { ReceiptOf };

    ghost view = { λ r. record { position = r.position; wake = r.pass.value.wake.items } };
}

impl Receipt {
    /// The position of the entry in the history.
    #[inline]
    pub fn position(&self) -> usize
        ensures { result ≡ self.now.position }
    {
        self.position
    }

    /// The thread at place `i`, from 0, of the threads to wake.
    #[inline]
    pub fn wake(&self, i: usize) -> Option<u32>
        ensures { result ≡ slice_get self.now.wake i }
    {
        self.pass.wake.get(i).copied()
    }

    /// The memory of the ticket, for the thread's next section.
    pub fn into_spare(self) -> Spare {
        let Receipt { position: _, pass } = self;
        Spare { pass: Some(pass) }
    }
}
