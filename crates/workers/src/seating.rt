//! The making of seats.

ghost use Rattle.std.specs.Prelude.{◌≡◌, ◌<◌, ◌≤◌, ◌++◌, ◌∷◌, [], IfOk, OnOk};
ghost use Rattle.workers.specs.Seats.{new_seat, new_seats};

use crate::front::Front;
use crate::naming::Naming;
use crate::parking::{Parking, Waking};
use crate::seat::Seat;
use source::memory::NoMemory;
use std::alloc::Global;

/// Seats of the threads from 0 on, which have seen nothing, and the handles that wake their threads.
#[derive(Drop)]
pub(crate) struct Seating<'p, 'r, J: Naming> {
    alloc: Global,
    front: Front<'r, J>,
    pub(crate) seats: Vec<Seat<'p, 'r, J>>,
    pub(crate) wakings: Vec<Waking>,
    ghost none: { front ≡ [] },
}

impl<'p, 'r, J: Naming> Seating<'p, 'r, J> {
    // The seats of the first `count` threads.
    pub(crate) fn of(
        alloc: Global,
        front: Front<'r, J>,
        count: u32,
    ) -> Result<Seating<'p, 'r, J>, NoMemory>
        requires none { front ≡ [] }
        requires few { count ≤ 64 }
        ensures { IfOk result (λ s. s.seats.items ≡ new_seats count) }
    {
        let mut seating = Seating {
            alloc,
            front,
            seats: Vec::new(alloc),
            wakings: Vec::new(alloc),
        };
        for thread in 0..count {
            seating.add(thread)?;
        }
        Ok(seating)
    }

    // Adds the seat of `thread`.
    fn add(&mut self, thread: u32) -> Result<(), NoMemory>
        requires { thread < 64 }
        ensures { OnOk result (self.new.seats.items ≡ self.old.seats.items ++ new_seat thread ∷ []) }
    {
        let parking = Parking::new(self.alloc)?;
        self.wakings.push(parking.waking()?)?;
        let seat = Seat::new(thread, parking, self.front.again());
        self.seats.push(seat)?;
        Ok(())
    }
}
