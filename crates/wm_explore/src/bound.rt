//! How far an exploration goes.
ghost use Rattle.std.specs.Prelude.{◌≡◌, ◌⊎◌, ℕ, List};
ghost use Rattle.wm_event.specs.declared.log.ThreadLog.{ThreadLog};
ghost use Rattle.wm_explore.specs.Bounds.{Excuses};

/// How far an exploration goes.
#[derive(Clone, Copy)]
pub struct Limits {
    /// The most events of a thread, at most 1,024.
    pub events: u32,
    /// Once this number of graphs has been extended, no further states are shared out.
    pub graphs: u64,
    /// The most nodes of a search for a witness.
    pub nodes: u64,
}

/// Why an exploration is not complete. Of several reasons the first one here is given, and of several threads the least.
#[derive(Clone, Copy, PartialEq, Eq)]
pub enum Bound {
    /// States were left when as many graphs had been extended as may be.
    Graphs,
    /// A search for a witness of a finished execution gave up.
    Nodes,
    /// This thread made [`MAX_STEPS`](wm_event::MAX_STEPS) steps.
    Steps(usize),
    /// This thread has more events than a thread may have.
    Events(usize),
}

impl Bound {
    /// The earlier of two bounds.
    pub(crate) fn earlier(self, other: Self) -> Self
        ensures one { (result ≡ self) ⊎ (result ≡ other) }
        ensures mine { (events : ℕ) (log : List ThreadLog) → Excuses events self log → Excuses events result log }
        ensures others { (events : ℕ) (log : List ThreadLog) → Excuses events other log → Excuses events result log }
    {
        match (self, other) {
            (Bound::Graphs, _) => self,
            (_, Bound::Graphs) => other,
            (Bound::Nodes, _) => self,
            (_, Bound::Nodes) => other,
            (Bound::Steps(thread), Bound::Steps(another)) => {
                if another < thread { other } else { self }
            }
            (Bound::Steps(_), Bound::Events(_)) => self,
            (Bound::Events(_), Bound::Steps(_)) => other,
            (Bound::Events(thread), Bound::Events(another)) => {
                if another < thread { other } else { self }
            }
        }
    }
}
