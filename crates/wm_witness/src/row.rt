//! How many events of each thread come before an event.
ghost use Rattle.std.specs.Prelude.{◌≡◌, ◌↔◌, ◌⊎◌, ◌<◌, ◌≤◌, IsTrue, get_or};
ghost use Rattle.wm_event.specs.declared.event.EventKey.{EventKey};

use wm_event::{EventKey, MAX_THREADS};

/// An event, with how many events of each thread come before it: the first ones of the thread. No event of a thread from
/// `MAX_THREADS` on is counted.
#[derive(Clone, Copy)]
pub(crate) struct Row {
    pub key: EventKey,
    pub before: [u32; MAX_THREADS],
}

impl Row {
    ghost use Rattle.wm_witness.specs.Relations.{Covers};

    /// The row of an event before which no event is counted.
    pub(crate) fn new(key: EventKey) -> Self
        ensures key { result.key ≡ key }
        ensures none { (a : EventKey) → Covers result a → ⊥ }
    {
        Row {
            key,
            before: [0; MAX_THREADS],
        }
    }

    /// How many events of a thread it counts.
    pub(crate) fn count(&self, thread: u32) -> u32
        ensures { result ≡ get_or self.now.before thread 0 }
    {
        match self.before.get(thread as usize) {
            Some(count) => *count,
            None => 0,
        }
    }

    /// Whether it counts an event.
    pub(crate) fn covers(&self, event: EventKey) -> bool
        ensures { IsTrue result ↔ Covers self.now event }
    {
        event.number < self.count(event.thread)
    }

    /// Whether it counts all that another counts of the first threads, and the event of that one. Nothing rests on it.
    pub(crate) fn includes(&self, other: &Row, threads: usize) -> bool {
        for lane in 0..threads.min(MAX_THREADS) {
            if self.before[lane] < other.before[lane] {
                return false;
            }
        }
        self.covers(other.key)
    }

    /// The row that counts also what another counts of the first threads, and the event of that one with those before it in its
    /// thread.
    pub(crate) fn joined(&self, other: &Row, threads: usize) -> Self
        ensures key { result.key ≡ self.now.key }
        ensures covers { (a : EventKey) → Covers result a →
            Covers self.now a ⊎ (Covers other.now a ⊎ ((a.thread ≡ other.now.key.thread) × (a.number ≤ other.now.key.number))) }
    {
        let mut before = self.before;
        for lane in 0..threads.min(MAX_THREADS) {
            if before[lane] < other.before[lane] {
                before[lane] = other.before[lane];
            }
        }
        let EventKey { thread, number } = other.key;
        let lane = thread as usize;
        if lane < MAX_THREADS && number < u32::MAX && before[lane] <= number {
            before[lane] = number + 1;
        }
        Row {
            key: self.key,
            before,
        }
    }
}
