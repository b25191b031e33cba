//! The manager's record of an open section.

ghost use Rattle.std.specs.Prelude.{◌≡◌, ◌<◌, ◌↔◌, length, IfOk, IsTrue, OnOk};
ghost use Rattle.lock_manager.specs.Working.Sessions.{fresh, with_lock, with_ask};
ghost use Rattle.lock_manager.specs.Working.Ties.{MayTake};

use layout::room::Room;
use locks::lock::Lock;
use source::memory::NoMemory;
use std::marker::Model;

/// The record of an open section: the length of the history when it began, the locks that it holds, the lock that it
/// asks for, and the most that it can need.
#[derive(Drop)]
pub struct Session {
    begun: usize,
    held: Vec<Lock>,
    ask: Option<Lock>,
    room: Room,
}

impl Model for Session {
    ghost use Rattle.std.specs.Prelude.{◌≤◌, vec_len, vec_capacity};
    ghost use Rattle.lock_manager.specs.Manager.{SessionOf};

    ghost Value = { SessionOf };

    ghost view = { λ s. record { begun = s.begun; held = s.held.items; ask = s.ask; room = s.room } };

    ghost invariant = { λ s. (vec_len s.held ≤ s.room.locks) × (s.room.locks ≤ vec_capacity s.held) };
}

impl Session {
    /// The record of a section that begins, with room for the locks that it can hold. It uses the memory of `held`,
    /// which grows if it is too small.
    ///
    /// # Errors
    ///
    /// Out of memory.
    pub fn new(begun: usize, room: Room, mut held: Vec<Lock>) -> Result<Session, NoMemory>
        ensures { IfOk result (λ session. session ≡ fresh begun room) }
    {
        held.clear();
        held.reserve(room.locks)?;
        Ok(Session {
            begun,
            held,
            ask: None,
            room,
        })
    }

    /// Begins the next section in the same memory.
    ///
    /// # Errors
    ///
    /// Out of memory.
    pub fn renew(&mut self, begun: usize, room: Room) -> Result<(), NoMemory>
        ensures { OnOk result (self.new ≡ fresh begun room) }
    {
        self.held.clear();
        self.held.reserve(room.locks)?;
        self.begun = begun;
        self.ask = None;
        self.room = room;
        Ok(())
    }

    /// The most that the section can need.
    pub fn room(&self) -> Room
        ensures { result ≡ self.now.room }
    {
        self.room
    }

    /// The memory of the record.
    pub fn into_memory(self) -> Vec<Lock> {
        let Session {
            begun: _,
            held,
            ask: _,
            room: _,
        } = self;
        held
    }

    /// Notes that `lock` is granted.
    pub fn grant(&mut self, lock: Lock)
        requires { length self.old.held < self.old.room.locks }
        ensures { self.new ≡ with_lock self.old lock }
    {
        self.held.push(lock).unwrap();
        self.ask = None;
    }

    /// Notes that `lock` is asked for.
    pub fn note(&mut self, lock: Lock)
        ensures { self.new ≡ with_ask self.old lock }
    {
        self.ask = Some(lock);
    }

    /// The length of the history when the section began.
    pub fn begun(&self) -> usize
        ensures { result ≡ self.now.begun }
    {
        self.begun
    }

    /// The number of cells that the section can touch.
    pub fn cells(&self) -> usize
        ensures { result ≡ self.now.room.cells }
    {
        self.room.cells
    }

    /// The locks that the section holds, the oldest first.
    pub fn held(&self) -> &[Lock]
        ensures { result.now ≡ self.now.held }
    {
        self.held.as_slice()
    }

    /// The lock that the section has asked for and not yet been granted.
    pub fn ask(&self) -> Option<Lock>
        ensures { result ≡ self.now.ask }
    {
        self.ask
    }

    /// Whether the section has room for one more lock, and has not asked for a lock other than `lock`.
    pub fn may_take(&self, lock: Lock) -> bool
        ensures { IsTrue result ↔ MayTake self.now lock }
    {
        if self.held.len() >= self.room.locks {
            return false;
        }
        match self.ask {
            Some(other) => other == lock,
            None => true,
        }
    }

    /// Whether both records are equal.
    pub fn says(&self, other: &Session) -> bool
        ensures { IsTrue result ↔ (self.now ≡ other.now) }
    {
        self.begun == other.begun
            && same_locks(&self.held, &other.held)
            && same_ask(self.ask, other.ask)
            && same_room(self.room, other.room)
    }
}

// Whether both lists are equal. The last locks are compared first: sections that began alike differ in these.
fn same_locks(a: &[Lock], b: &[Lock]) -> bool
    ensures { IsTrue result ↔ (a.now ≡ b.now) }
{
    if a.len() != b.len() {
        return false;
    }
    let mut left = a.len();
    while left > 0 {
        left -= 1;
        if a[left] != b[left] {
            return false;
        }
    }
    true
}

fn same_ask(a: Option<Lock>, b: Option<Lock>) -> bool
    ensures { IsTrue result ↔ (a ≡ b) }
{
    a == b
}

fn same_room(a: Room, b: Room) -> bool
    ensures { IsTrue result ↔ (a ≡ b) }
{
    a == b
}
