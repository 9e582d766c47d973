//! A count that threads wait on.
ghost use Rattle.std.specs.Prelude.{◌≢◌};

use std::hint::spin_loop;
use std::sync::Wait;
use std::sync::atomic::{AtomicU64, Ordering};

/// How often a thread looks at the count before it sleeps.
const MAX_LOOKS: u32 = 1_000;

/// A thread sleeps as long as the low 32 bits of the count stay the same: one past them.
const LOW_END: u64 = 1 << 32;

/// A count of rings, which threads wait on.
#[derive(Drop)]
pub struct Bell {
    rings: AtomicU64,
}

impl Bell {
    /// A bell that has not rung.
    pub fn new() -> Bell {
        Bell {
            rings: AtomicU64::new(0),
        }
    }

    /// Rings once more, and wakes all that wait.
    pub fn ring(&self) {
        self.rings.fetch_add(1, Ordering::SeqCst);
        self.rings.wake_all();
    }

    /// The count, as soon as it isn't `heard`, or as it is after some looks.
    fn look(&self, heard: u64) -> u64 {
        for _ in 0..MAX_LOOKS {
            let rings = self.rings.load(Ordering::SeqCst);
            if rings != heard {
                return rings;
            }
            spin_loop();
        }
        heard
    }

    /// Waits until it has not rung `heard` times, and returns how often it has.
    pub fn wait<R: Wait>(&self, rt: &R, heard: u64) -> u64
        ensures { result ≢ heard }
    {
        for _ in rt.forever() {
            let rings = self.look(heard);
            if rings != heard {
                return rings;
            }
            self.rings.park(rt, (heard % LOW_END) as u32);
        }
        unreachable!()
    }
}
