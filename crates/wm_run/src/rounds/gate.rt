//! What holds threads back.
ghost use Rattle.std.specs.Prelude.{◌≡◌, Bool, true};

/// Each worker asks it before each access, and the drainer before each of its turns, while no lock is held.
pub trait Gate {
    /// Whether the gate is open. An open gate always answers true.
    ghost is_open: { Self → Bool };

    /// Whether a thread that has made this number of events may make its access; if not, the thread is cut there.
    fn before(&self, thread: u32, event_number: usize) -> bool
        ensures { is_open self.now ≡ true → result ≡ true };

    /// Whether the drainer may take this turn; if not, it ends there.
    fn before_drain(&self, turn: u32) -> bool
        ensures { is_open self.now ≡ true → result ≡ true };
}

/// The gate that is always open.
#[derive(Clone, Copy)]
pub struct OpenGate;

impl Gate for OpenGate {
    ghost is_open = { λ _. true };

    fn before(&self, _thread: u32, _event_number: usize) -> bool {
        true
    }

    fn before_drain(&self, _turn: u32) -> bool {
        true
    }
}
