//! The open sections.

ghost use Rattle.std.specs.Prelude.{◌≡◌, ◌≢◌, ◌↔◌, ◌<◌, ℕ, IsTrue, length, replicate, slice_get, slice_set, Some, None, IfOk, MatchOption};
ghost use Rattle.std.specs.List.{Contains};
ghost use Rattle.lock_manager.specs.Manager.{SessionOf};
ghost use Rattle.lock_manager.specs.Working.Sessions.{fresh, with_lock, with_ask};
ghost use Rattle.lock_manager.specs.Manager.{session_in};
ghost use Rattle.lock_manager.specs.Working.Managers.{Holds};
ghost use Rattle.lock_manager.specs.Working.Ties.{HasRoom, IsChanged, cells_if_open};

use crate::session::Session;
use layout::room::Room;
use locks::lock::Lock;
use source::memory::NoMemory;
use std::alloc::Global;
use std::marker::Model;
use std::mem;

/// The open section of each thread.
#[derive(Drop)]
pub struct Sections {
    slots: Vec<Option<Session>>,
    // For each thread, the memory for its next section. Its contents don't matter.
    spare: Vec<Vec<Lock>>,
}

impl Model for Sections {
    ghost use Rattle.std.specs.Prelude.{◌≡◌, List, Option, length};
    ghost use Rattle.lock_manager.specs.Manager.{SessionOf};

    ghost Value = { List (Option SessionOf) };

    ghost view = { λ s. s.slots.items };

    ghost invariant = { λ s. (length s.slots.items ≡ 64) × (length s.spare.items ≡ 64) };
}

impl Sections {
    /// No open sections, with a slot for each of 64 threads.
    ///
    /// # Errors
    ///
    /// Out of memory.
    pub fn new(alloc: Global) -> Result<Sections, NoMemory>
        ensures { IfOk result (λ sections. sections ≡ replicate 64 None) }
    {
        let mut slots = Vec::with_capacity(alloc, 64)?;
        let mut spare = Vec::with_capacity(alloc, 64)?;
        for _ in 0..64usize {
            slots.push(None)?;
            spare.push(Vec::new(alloc))?;
        }
        Ok(Sections { slots, spare })
    }

    /// The open section of `thread`, if it has one.
    pub fn of(&self, thread: u32) -> Option<&Session>
        ensures { MatchOption result (session_in self.now thread ≡ None)
            (λ s. session_in self.now thread ≡ Some s.now) }
    {
        match self.slots.get(thread as usize)? {
            Some(session) => Some(session),
            None => None,
        }
    }

    /// The number of cells that the open section of `thread` can touch; 0 without an open section.
    pub fn cells(&self, thread: u32) -> usize
        ensures { result ≡ cells_if_open (session_in self.now thread) }
    {
        match self.of(thread) {
            Some(session) => session.cells(),
            None => 0,
        }
    }

    /// Whether no section is open.
    pub fn are_none(&self) -> bool
        ensures { IsTrue result ↔ ((t : ℕ) → session_in self.now t ≡ None) }
    {
        let _shown = &self.slots;
        for thread in 0..64u32 {
            if self.of(thread).is_some() {
                return false;
            }
        }
        true
    }

    /// A session for the next section of `thread`, in the memory of the thread's last one.
    ///
    /// # Errors
    ///
    /// Out of memory.
    pub fn session(
        &mut self,
        alloc: Global,
        thread: u32,
        begun: usize,
        room: Room,
    ) -> Result<Session, NoMemory>
        requires { thread < 64 }
        ensures ok { IfOk result (λ session. session ≡ fresh begun room) }
        ensures same { self.new ≡ self.old }
    {
        let held = mem::replace(&mut self.spare[thread as usize], Vec::new(alloc));
        Session::new(begun, room, held)
    }

    /// Sets the open section of `thread`.
    pub fn open(&mut self, thread: u32, session: Session)
        requires { thread < 64 }
        ensures { self.new ≡ slice_set self.old thread (Some session) }
    {
        self.slots[thread as usize] = Some(session);
    }

    /// Notes that the open section of `thread` is granted `lock`.
    pub fn grant(&mut self, thread: u32, lock: Lock)
        requires { HasRoom self.old thread }
        ensures { IsChanged (λ s. with_lock s lock) self.old thread self.new }
    {
        match &mut self.slots[thread as usize] {
            Some(session) => session.grant(lock),
            None => unreachable!(),
        }
    }

    /// Notes that the open section of `thread` asks for `lock`.
    pub fn note(&mut self, thread: u32, lock: Lock)
        requires { session_in self.old thread ≢ None }
        ensures { IsChanged (λ s. with_ask s lock) self.old thread self.new }
    {
        match &mut self.slots[thread as usize] {
            Some(session) => session.note(lock),
            None => unreachable!(),
        }
    }

    /// The thread whose open section holds `lock`.
    pub fn holder(&self, lock: Lock) -> Option<u32>
        ensures { MatchOption result ((t : ℕ) → Holds self.now t lock → ⊥) (λ t. Holds self.now t lock) }
    {
        let _shown = &self.slots;
        for thread in 0..64u32 {
            if self.holds(thread, lock) {
                return Some(thread);
            }
        }
        None
    }

    // Whether the open section of `thread` holds `lock`.
    fn holds(&self, thread: u32, lock: Lock) -> bool
        ensures { IsTrue result ↔ Holds self.now thread lock }
    {
        match self.of(thread) {
            Some(session) => lock.is_among(session.held()),
            None => false,
        }
    }

    /// Removes the open section of `thread`, and keeps its memory.
    pub fn close(&mut self, thread: u32)
        requires { thread < 64 }
        ensures { self.new ≡ slice_set self.old thread None }
    {
        let thread = thread as usize;
        if let Some(session) = mem::replace(&mut self.slots[thread], None) {
            self.spare[thread] = session.into_memory();
        }
    }
}
