//! The order in which threads go on.

use crate::scene::{Hold, Mark, Scene, SeatCall};
use std::sync::atomic::Ordering::SeqCst;
use std::sync::atomic::{AtomicBool, AtomicU32};
use std::thread;
use workers::gate::Gate;

/// The limit of turns for which a thread waits for another.
const PATIENCE: u32 = 10_000_000;

/// A scene that threads play. It records the progress of the first three threads.
#[derive(Drop)]
pub struct Stage<'a> {
    scene: &'a Scene<'a>,
    come: [AtomicU32; 3],
    gave_up: AtomicBool,
}

impl<'a> Stage<'a> {
    /// The scene before any thread has come to a mark.
    pub fn new(scene: &'a Scene<'a>) -> Stage<'a> {
        Stage {
            scene,
            come: [AtomicU32::new(0), AtomicU32::new(0), AtomicU32::new(0)],
            gave_up: AtomicBool::new(false),
        }
    }

    /// The call of a seat, if it has one.
    pub fn call_of(&self, thread: u32) -> Option<SeatCall<'a>> {
        self.scene.calls.get(thread as usize).copied()
    }

    /// Records that a thread has come to a mark, and holds it as the scene says.
    pub fn come(&self, thread: u32, mark: Mark) {
        if let Some(come) = self.come.get(thread as usize) {
            come.store(mark.number(), SeqCst);
        }
        for hold in self.scene.holds {
            if hold.thread == thread && hold.at == mark {
                self.wait(hold);
            }
        }
    }

    /// Whether a thread has waited in vain.
    pub fn gave_up(&self) -> bool {
        self.gave_up.load(SeqCst)
    }

    fn wait(&self, hold: &Hold) {
        for _ in 0..PATIENCE {
            if self.has_come(hold.other, hold.until) {
                for _ in 0..hold.turns {
                    thread::yield_now();
                }
                return;
            }
            thread::yield_now();
        }
        self.gave_up.store(true, SeqCst);
    }

    fn has_come(&self, thread: u32, mark: Mark) -> bool {
        match self.come.get(thread as usize) {
            Some(come) => come.load(SeqCst) >= mark.number(),
            None => false,
        }
    }
}

impl Gate for Stage<'_> {
    fn pass(&self, thread: u32, step: u32) {
        self.come(thread, Mark::Passed(step));
    }
}
