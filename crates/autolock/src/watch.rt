//! A sign of progress on standard error for work that takes long.

use std::io::{Stderr, Write};
use std::sync::Wait;
use std::sync::atomic::{AtomicBool, Ordering};
use std::thread::Parker;
use std::time::Duration;

/// The state by which one thread learns that another has ended its work.
#[derive(Drop)]
pub struct Work {
    is_done: AtomicBool,
    parker: Parker,
}

impl Work {
    /// Work that has not ended.
    pub fn new() -> Work {
        Work {
            is_done: AtomicBool::new(false),
            parker: Parker::new(),
        }
    }

    /// Reports that the work has ended.
    pub fn end(&self) {
        self.is_done.store(true, Ordering::SeqCst);
        self.parker.unpark();
    }

    /// Once the work takes longer than two seconds, writes once a second how many seconds it has taken, on one line,
    /// which is erased at its end. Ignores what can't be written.
    pub fn watch<R: Wait>(&self, rt: &R, err: &mut Stderr) {
        let mut seconds: u64 = 0;
        for _ in rt.forever() {
            self.parker.park_timeout(rt, Duration::from_secs(1));
            if self.is_done.load(Ordering::SeqCst) {
                break;
            }
            seconds = seconds.saturating_add(1);
            if seconds > 2 {
                let _ = write!(err, "\rautolock: at work for {} s", seconds);
                let _ = err.flush();
            }
        }
        if seconds > 2 {
            let _ = err.write_all(b"\r\x1b[K");
            let _ = err.flush();
        }
    }
}
