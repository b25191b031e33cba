//! The lock manager.

ghost use Rattle.std.specs.Prelude.{◌≡◌, ◌↔◌, ◌<◌, ◌≤◌, [], length, slice_get, Some, IfOk, OnErr, IsTrue, is_some};
ghost use Rattle.std.specs.List.{Contains, All};
ghost use Rattle.locks.specs.Waiting.{HasNoCycle};
ghost use Rattle.history.specs.Working.Histories.{IsWithin};
ghost use Rattle.lock_manager.specs.Manager.{session_of, IsQuiet};
ghost use Rattle.lock_manager.specs.Working.Managers.{IsLayout, IsKept, opened, waiting_for, holder_of, cell_of, askers_of};
ghost use Rattle.lock_manager.specs.Working.Ties.{awaiting as awaiting_in};
ghost use Rattle.lock_manager.specs.Working.Calls.{Begins, Answers, CanAsk, Knows, Fits, CanRelease, Releases, GivesUp, AreOf, AreItsGrants, IsOwnWrite};

use crate::answer::Answer;
use crate::asking::comes_after;
use crate::committed::Committed;
use crate::fitting::{all_granted, all_held};
use crate::giving::{let_go, take};
use crate::places::LockPlace;
use crate::queue::{Queue, Waiter};
use crate::sections::Sections;
use crate::ticket::{Receipt, Spare, Ticket};
use core_lang::value::Value;
use history::entries::History;
use history::kept::{CellValue, EntryRef};
use layout::room::Room;
use layout::table::Layout;
use locks::lock::Lock;
use moved_cells::grant::Grant;
use source::memory::NoMemory;
use std::alloc::Global;
use std::marker::Model;

/// The most locks of a section that are compared with all waiters at its end.
const FEW: usize = 8;

/// The lock manager: the places of each lock's cells, the waiting threads, the open sections and the history. Its value
/// is all of these.
///
/// A section begins with [`Manager::begin`], which makes every allocation that the section can need in the manager.
/// Later calls of the section allocate nothing.
#[derive(Drop)]
pub struct Manager<'p> {
    // The rank of each lock class.
    ranks: &'p [u32],
    // The place of each lock's cells, by the lock's number.
    places: Vec<LockPlace>,
    queue: Queue,
    sections: Sections,
    history: History,
    committed: Committed<'p>,
}

impl<'p> Model for Manager<'p> {
    ghost use Rattle.lock_manager.specs.Manager.{Managed};
    ghost use Rattle.lock_manager.specs.Working.Managers.{managed, IsKept};
    ghost use Rattle.lock_manager.specs.Working.Ties.{IsTied};

    ghost Value = { Managed };

    ghost view = { λ m. managed m.committed m.ranks.now m.places.items m.queue m.sections m.history.commits };

    ghost invariant = { λ m.
        let value = managed m.committed m.ranks.now m.places.items m.queue m.sections m.history.commits in
        IsKept value × IsTied value m.history.promised };
}

impl<'p> Manager<'p> {
    /// The initial manager, for 64 threads. It has all cells; no section is open, and the history is empty.
    ///
    /// # Errors
    ///
    /// Out of memory.
    pub fn open(
        alloc: Global,
        layout: &'p Layout,
        ranks: &'p [u32],
    ) -> Result<Manager<'p>, NoMemory>
        requires { IsLayout layout.now }
        ensures { IfOk result (λ manager. manager ≡ opened layout.now ranks.now) }
    {
        let committed = Committed::open(alloc, layout)?;
        let places = committed.free_places(alloc)?;
        let queue = Queue::new(alloc)?;
        let sections = Sections::new(alloc)?;
        Ok(Manager {
            ranks,
            places,
            queue,
            sections,
            history: History::new(alloc),
            committed,
        })
    }

    /// Opens a section of `thread` that needs at most `room`, and makes all allocations that it can need. The memory of
    /// `spare` is used again.
    ///
    /// # Errors
    ///
    /// Out of memory. The manager is then unchanged.
    pub fn begin(
        &mut self,
        alloc: Global,
        thread: u32,
        room: Room,
        spare: Spare,
    ) -> Result<Ticket, NoMemory>
        requires thread { thread < 64 }
        requires closed { session_of self.old thread ≡ None }
        ensures ok { IfOk result (λ ticket. Begins self.old thread room ticket self.new) }
        ensures err { OnErr result (self.new ≡ self.old) }
    {
        let begun = self.history.len();
        let pass = spare.pass(alloc, thread, begun, room)?;
        let slot = self.sections.session(alloc, thread, begun, room)?;
        self.history.promise(room.cells)?;
        self.sections.open(thread, slot);
        Ok(Ticket { pass })
    }

    /// Requests `lock` for the section of `ticket`. The lock is granted with its cells if it is free. Otherwise the
    /// request is noted and the thread waits in the queue; the answer has the thread that holds the lock.
    pub fn request(&mut self, ticket: &mut Ticket, lock: Lock) -> Answer
        requires known { Knows self.old ticket.old }
        requires asks { CanAsk self.old ticket.old lock }
        ensures { Answers self.old ticket.old lock result self.new ticket.new }
    {
        locks::laws::precedes_is_strict();
        let thread = ticket.thread();
        let number = self.committed.number_of(lock);
        match take(&mut self.places, number, thread) {
            Ok(cells) => {
                self.queue.leave(thread);
                self.sections.grant(thread, lock);
                ticket.grant(lock);
                Answer::Granted(Grant::new(lock, cells))
            }
            Err(holder) => {
                self.queue.wait(ticket.ask(), Waiter { thread, lock });
                self.sections.note(thread, lock);
                ticket.note(lock);
                Answer::Held(holder)
            }
        }
    }

    /// Ends the section of `ticket`: its cells come back, and its entry is appended to the history. The list of grants
    /// is left empty, and the history copies the lists of `entry`, so that the caller can use the memory of both again.
    pub fn release(
        &mut self,
        ticket: Ticket,
        grants: &mut Vec<Grant>,
        entry: &EntryRef<'_>,
    ) -> Receipt
        requires known { Knows self.old ticket }
        requires fits { Fits self.old ticket grants.old.items entry.now }
        requires within { IsWithin ticket.session.room.cells entry.now }
        ensures released { Releases self.old ticket grants.old.items entry.now result self.new }
        ensures none { grants.new.items ≡ [] }
    {
        history::laws::one_entry_more();
        history::laws::commuting();
        let position = self.history.len();
        let awaiting = self.awaiting(&ticket);
        let (thread, pass) = ticket.woken(&self.queue, awaiting);
        self.committed.overwrite(entry.writes());
        let cells = self.sections.cells(thread);
        self.history.enter(cells, entry);
        self.committed.put_back(&mut self.places, grants);
        self.sections.close(thread);
        Receipt { position, pass }
    }

    // At least the number of threads that wait for a lock that the section of `ticket` holds. If it holds few locks, all
    // waiters are counted, which is faster.
    fn awaiting(&self, ticket: &Ticket) -> usize
        requires { Knows self.now ticket.now }
        ensures { awaiting_in self.now.waiters ticket.now.session.held ≤ result }
    {
        let waiters = self.queue.waiters();
        if ticket.held().len() <= FEW {
            return waiters.len();
        }
        let mut count = 0;
        for waiter in waiters {
            if self.has(ticket, waiter.lock) {
                count += 1;
            }
        }
        count
    }

    // Whether the section of `ticket` holds `lock`.
    fn has(&self, ticket: &Ticket, lock: Lock) -> bool
        requires { Knows self.now ticket.now }
        ensures { IsTrue result ↔ Contains ticket.now.session.held lock }
    {
        if self.committed.has_lock(lock) {
            self.is_taken(ticket, lock)
        } else {
            false
        }
    }

    /// Ends the section of `ticket` without an entry, if `grants` are exactly those of its thread's slot. Otherwise the
    /// manager is unchanged. The list is left empty in either case.
    pub fn give_up(&mut self, ticket: Ticket, grants: &mut Vec<Grant>)
        ensures given_up { GivesUp self.old ticket grants.old.items self.new }
        ensures none { grants.new.items ≡ [] }
    {
        let thread = ticket.into_thread();
        if self.are_its_grants(thread, grants) {
            let cells = self.sections.cells(thread);
            self.committed.restore(&mut self.places, grants);
            self.queue.leave(thread);
            self.sections.close(thread);
            self.history.forgo(cells);
        } else {
            let_go(grants);
        }
    }

    /// Whether the slot of the ticket's thread equals the section of the ticket.
    #[inline(always)]
    pub fn knows(&self, ticket: &Ticket) -> bool
        ensures { IsTrue result ↔ Knows self.now ticket.now }
    {
        match self.sections.of(ticket.thread()) {
            Some(session) => session.says(ticket.session()),
            None => false,
        }
    }

    /// Whether the section of `ticket` may ask for `lock`.
    pub fn can_ask(&self, ticket: &Ticket, lock: Lock) -> bool
        ensures { IsTrue result ↔ CanAsk self.now ticket.now lock }
    {
        let session = ticket.session();
        if !session.may_take(lock) {
            return false;
        }
        if !comes_after(self.ranks, session.held(), lock) {
            return false;
        }
        self.committed.has_lock(lock)
    }

    /// Whether [`Manager::release`] may be called with these arguments, for an entry that the ticket's room holds: the
    /// ticket is known, and the section may end with `grants` and `entry`.
    pub fn fits(&self, ticket: &Ticket, grants: &[Grant], entry: &EntryRef<'_>) -> bool
        ensures { IsTrue result ↔ CanRelease self.now ticket.now grants.now entry.now }
    {
        if !self.knows(ticket) {
            return false;
        }
        let _shown = &self.places;
        let session = ticket.session();
        if session.ask().is_some() {
            return false;
        }
        if !self.are_of(session.held(), grants) {
            return false;
        }
        if entry.thread() != ticket.thread() || entry.begun() != session.begun() {
            return false;
        }
        if !self.committed.agrees(entry.reads()) {
            return false;
        }
        if !self.are_own(ticket, entry.writes()) {
            return false;
        }
        self.committed.are_now(grants, entry.writes())
    }

    // Whether `grants` are exactly those of the open section of `thread`.
    fn are_its_grants(&self, thread: u32, grants: &[Grant]) -> bool
        ensures { IsTrue result ↔ AreItsGrants self.now thread grants.now }
    {
        match self.sections.of(thread) {
            Some(session) => self.are_of(session.held(), grants),
            None => false,
        }
    }

    // Whether each write is of a cell whose lock the section of `ticket` holds.
    #[inline(always)]
    fn are_own(&self, ticket: &Ticket, writes: &[CellValue]) -> bool
        requires { Knows self.now ticket.now }
        ensures { IsTrue result ↔ All (IsOwnWrite self.now.layout.cell_locks ticket.now.session.held) writes.now }
    {
        for write in writes {
            if !self.is_own(ticket, *write) {
                return false;
            }
        }
        true
    }

    // Whether `write` is of a cell whose lock the section of `ticket` holds: the place of the lock's cells tells it.
    fn is_own(&self, ticket: &Ticket, write: CellValue) -> bool
        requires { Knows self.now ticket.now }
        ensures { IsTrue result ↔ IsOwnWrite self.now.layout.cell_locks ticket.now.session.held write }
    {
        match self.committed.lock_of(write.0 as usize) {
            Some(lock) => self.is_taken(ticket, lock),
            None => false,
        }
    }

    // Whether the cells of `lock` are with the section of `ticket`.
    fn is_taken(&self, ticket: &Ticket, lock: Lock) -> bool
        requires known { Knows self.now ticket.now }
        requires listed { Contains self.now.layout.locks lock }
        ensures { IsTrue result ↔ Contains ticket.now.session.held lock }
    {
        match &self.places[self.committed.number_of(lock)] {
            LockPlace::Free(_) => false,
            LockPlace::Taken(thread) => *thread == ticket.thread(),
        }
    }

    // Whether `grants` are of exactly the locks in `held`. They mostly are, in the order of the locks: one pass tells.
    fn are_of(&self, held: &[Lock], grants: &[Grant]) -> bool
        requires { All (Contains self.now.layout.locks) held.now }
        ensures { IsTrue result ↔ AreOf self.now.layout.cell_locks held.now grants.now }
    {
        if grants.len() != held.len() {
            return false;
        }
        if self.committed.are_in_step(held, grants) {
            return true;
        }
        if !all_granted(held, grants) {
            return false;
        }
        if !all_held(grants, held) {
            return false;
        }
        self.committed.are_whole(grants)
    }

    /// Whether `thread` has an open section.
    pub fn is_open(&self, thread: u32) -> bool
        ensures { result ≡ is_some (session_of self.now thread) }
    {
        self.sections.of(thread).is_some()
    }

    /// Whether no thread has an open section.
    pub fn is_quiet(&self) -> bool
        ensures { IsTrue result ↔ IsQuiet self.now }
    {
        self.sections.are_none()
    }

    /// The thread at place `i`, from 0, of the queue for `lock`.
    pub fn waiting(&self, lock: Lock, i: usize) -> Option<u32>
        ensures { result ≡ slice_get (waiting_for self.now lock) i }
    {
        self.queue.nth(lock, i)
    }

    /// The thread whose open section holds `lock`.
    pub fn holder(&self, lock: Lock) -> Option<u32>
        ensures { result ≡ holder_of self.now lock }
    {
        self.sections.holder(lock)
    }

    /// The value of `cell`, if no section holds its lock.
    pub fn cell(&self, cell: usize) -> Option<Value>
        ensures { result ≡ cell_of self.now cell }
    {
        history::laws::one_entry_more();
        let lock = self.committed.lock_of(cell)?;
        match &self.places[self.committed.number_of(lock)] {
            LockPlace::Free(_) => Some(self.committed.value(cell)),
            LockPlace::Taken(_) => None,
        }
    }

    /// The value that the entries leave in `cell`.
    pub fn committed(&self, cell: usize) -> Value
        requires { cell < length self.now.values }
        ensures { slice_get self.now.values cell ≡ Some result }
    {
        self.committed.value(cell)
    }

    /// The entries in order.
    pub fn history(&self) -> &History
        ensures { result.now.commits ≡ self.now.history }
    {
        &self.history
    }

    /// A law: the manager keeps its invariant, and no threads wait in a cycle.
    pub fn keeps_its_rules(&self)
        ensures rules_kept { IsKept self.now }
        ensures no_circle { HasNoCycle (askers_of self.now) }
    {
        locks::laws::no_circle();
        let _shown = &self.places;
    }
}
