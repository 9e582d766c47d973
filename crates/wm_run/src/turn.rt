//! The turns of a script.
ghost use Rattle.std.specs.Prelude.{◌≡◌};
ghost use Rattle.wm_run.specs.Plan.{thread_of};

/// A turn of a script.
#[derive(Clone, Copy)]
pub enum Turn {
    /// The thread makes its next step.
    Step(u32),
    /// The oldest waiting store leaves the thread's buffer.
    Drain(u32),
    /// The store at this index, counted from 0 at the oldest, leaves the thread's buffer.
    DrainAt(u32, u32),
}

impl Turn {
    /// The thread whose turn it is.
    pub fn thread(self) -> u32
        ensures { result ≡ thread_of self }
    {
        match self {
            Turn::Step(thread) | Turn::Drain(thread) | Turn::DrainAt(thread, _) => thread,
        }
    }
}
