// What comes between the Take of a plan and its Publish.
use std::hint::spin_loop;
use std::sync::atomic::{AtomicU32, Ordering};

/// How often a hold turns at most.
const MOST_TURNS: u32 = 100_000_000;

/// Holds caller 1 until caller 0 has taken what is to be planned first, and caller 0 there until caller 1 has its reply.
#[derive(Drop)]
pub struct Between {
    pub taken: AtomicU32,
    pub replied: AtomicU32,
    /// How many holds ran out of turns.
    pub late: AtomicU32,
}

impl Between {
    /// Nothing has come yet.
    pub fn new() -> Between {
        Between {
            taken: AtomicU32::new(0),
            replied: AtomicU32::new(0),
            late: AtomicU32::new(0),
        }
    }

    /// Waits until a count has risen.
    pub fn wait(&self, count: &AtomicU32) {
        for _ in 0..MOST_TURNS {
            if count.load(Ordering::SeqCst) > 0 {
                return;
            }
            spin_loop();
        }
        self.late.fetch_add(1, Ordering::SeqCst);
    }
}
