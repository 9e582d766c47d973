//! How many events of each thread come before an event.
ghost use Rattle.std.specs.Prelude.{◌≡◌, ◌↔◌, ◌⊎◌, ◌≤◌, IsTrue};
ghost use Rattle.wm_event.specs.declared.event.EventKey.{EventKey};

use wm_event::{EventKey, MAX_THREADS};

/// How many events of each thread come before an event or are it: the first ones of the thread. An event of a higher number
/// than an exploration has is not counted.
#[derive(Clone, Copy)]
pub(crate) struct Clock {
    pub per_thread: [u16; MAX_THREADS],
}

impl Clock {
    ghost use Rattle.wm_explore.specs.Clocks.{Counts};

    /// No event.
    pub(crate) fn zero() -> Self
        ensures { (a : EventKey) → Counts result a → ⊥ }
    {
        Clock {
            per_thread: [0; MAX_THREADS],
        }
    }

    /// Whether an event is counted.
    pub(crate) fn counts(&self, event: EventKey) -> bool
        ensures { IsTrue result ↔ Counts self.now event }
    {
        match self.per_thread.get(event.thread as usize) {
            Some(count) => event.number < u32::from(*count),
            None => false,
        }
    }

    /// Counts an event too, and those before it in its thread.
    pub(crate) fn with(&self, event: EventKey) -> Self
        ensures { (a : EventKey) → Counts result a → Counts self.now a ⊎ ((a.thread ≡ event.thread) × (a.number ≤ event.number)) }
    {
        let mut per_thread = self.per_thread;
        let lane = event.thread as usize;
        if lane < MAX_THREADS && event.number < u32::from(u16::MAX) {
            per_thread[lane] = event.number as u16 + 1;
        }
        Clock { per_thread }
    }

    /// The events that one or the other counts.
    pub(crate) fn joined(&self, other: &Self) -> Self
        ensures { (a : EventKey) → Counts result a → Counts self.now a ⊎ Counts other.now a }
    {
        let mut per_thread = [0; MAX_THREADS];
        for lane in 0..MAX_THREADS {
            per_thread[lane] = self.per_thread[lane].max(other.per_thread[lane]);
        }
        Clock { per_thread }
    }

    /// The events that both count.
    pub(crate) fn met(&self, other: &Self) -> Self
        ensures { (a : EventKey) → Counts result a → Counts self.now a × Counts other.now a }
    {
        let mut per_thread = [0; MAX_THREADS];
        for lane in 0..MAX_THREADS {
            per_thread[lane] = self.per_thread[lane].min(other.per_thread[lane]);
        }
        Clock { per_thread }
    }
}
