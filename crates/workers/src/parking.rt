//! The places where threads wait for locks, and what ends the waiting.

use crossbeam_utils::sync::{Parker, Unparker};
use std::alloc::{AllocError, Global};
use std::hint::spin_loop;
use std::sync::atomic::{AtomicBool, Ordering};
use std::sync::{Arc, Wait};

/// The number of times that a thread looks whether it was woken before it sleeps. To sleep and to be woken are two
/// system calls, which take longer than most sections hold their locks.
const LOOKS: u32 = 200;

/// The place where one thread waits.
#[derive(Drop)]
pub struct Parking {
    parker: Parker,
    // Whether it was woken. This decides when to stop looking; the parker decides whether the thread goes on.
    woken: Arc<AtomicBool, Global>,
}

unsafe impl Send for Parking {}

impl Parking {
    /// A place where no thread waits.
    ///
    /// # Errors
    ///
    /// An allocation fails.
    pub fn new(alloc: Global) -> Result<Parking, AllocError> {
        let parker = Parker::new(alloc)?;
        let woken = Arc::new(alloc, AtomicBool::new(false))?;
        Ok(Parking { parker, woken })
    }

    /// The handle that wakes the thread.
    ///
    /// # Errors
    ///
    /// An allocation fails.
    pub fn waking(&self) -> Result<Waking, AllocError> {
        let unparker = self.parker.unparker().clone()?;
        let woken = Arc::try_clone(&self.woken)?;
        Ok(Waking { unparker, woken })
    }

    /// Waits until the thread is woken, or returns at once if it was woken after its last wait.
    pub fn wait<R: Wait>(&self, rt: &R) {
        for _ in 0..LOOKS {
            if self.woken.load(Ordering::SeqCst) {
                break;
            }
            spin_loop();
        }
        self.parker.park(rt);
        self.woken.store(false, Ordering::SeqCst);
    }
}

/// The handle that wakes one thread.
#[derive(Drop)]
pub struct Waking {
    unparker: Unparker,
    woken: Arc<AtomicBool, Global>,
}

unsafe impl Send for Waking {}

unsafe impl Sync for Waking {}

impl Waking {
    fn wake(&self) {
        self.woken.store(true, Ordering::SeqCst);
        self.unparker.unpark();
    }
}

/// The handles that wake the threads.
#[derive(Drop)]
pub struct Wakings {
    // The handles, by thread.
    all: Vec<Waking>,
}

unsafe impl Send for Wakings {}

unsafe impl Sync for Wakings {}

impl Wakings {
    /// The handles, by thread.
    pub fn new(all: Vec<Waking>) -> Wakings {
        Wakings { all }
    }

    /// Wakes `thread`.
    pub fn wake(&self, thread: u32) {
        if let Some(waking) = self.all.get(thread as usize) {
            waking.wake();
        }
    }

    /// Wakes all threads.
    pub fn wake_all(&self) {
        for waking in &self.all {
            waking.wake();
        }
    }
}
