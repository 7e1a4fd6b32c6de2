//! A gate that counts who arrives, at which two shares may wait for each other.

use lam_io::Gate;
use std::alloc::{AllocError, Global};
use std::sync::atomic::{AtomicBool, AtomicU64, Ordering};
use std::thread;

// How often one of two that meet looks for the other.
const TURNS: u32 = 1 << 24;

/// A gate that counts how often share 0 arrived, share 1, and any other. Where it is told to, the first two wait for
/// each other, each for so many turns, and it counts how often one saw the other.
#[derive(Drop)]
pub struct Meeting {
    waits: bool,
    doors: [AtomicBool; 2],
    arrivals: [AtomicU64; 3],
    meetings: AtomicU64,
}

impl Meeting {
    /// A gate at which nobody has arrived.
    pub fn new(waits: bool) -> Meeting {
        Meeting {
            waits,
            doors: [AtomicBool::new(false), AtomicBool::new(false)],
            arrivals: [AtomicU64::new(0), AtomicU64::new(0), AtomicU64::new(0)],
            meetings: AtomicU64::new(0),
        }
    }

    // Whether the other of two shares came.
    fn meets(&self, own: usize) -> bool {
        let own = own % 2;
        self.doors[own].store(true, Ordering::SeqCst);
        for _ in 0..TURNS {
            if self.doors[1 - own].load(Ordering::SeqCst) {
                return true;
            }
            thread::yield_now();
        }
        false
    }

    /// The counts.
    pub fn told(&self, alloc: Global) -> Result<String, AllocError> {
        let [first, second, others] = &self.arrivals;
        format!(in alloc;
            "{} {} {} {}",
            first.load(Ordering::SeqCst),
            second.load(Ordering::SeqCst),
            others.load(Ordering::SeqCst),
            self.meetings.load(Ordering::SeqCst)
        )
    }
}

impl Gate for Meeting {
    fn arrive(&self, share: u32) {
        let own = share.min(2) as usize;
        self.arrivals[own].fetch_add(1, Ordering::SeqCst);
        if self.waits && own < 2 && self.meets(own) {
            self.meetings.fetch_add(1, Ordering::SeqCst);
        }
    }
}
