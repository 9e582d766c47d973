//! Why an access isn't made.
ghost use Rattle.std.specs.Prelude.{◌≡◌, Some};
ghost use Rattle.wm_recorder.specs.Texts.{access_fault_text};

use std::fmt;
use thiserror::Error;

/// Why a recorder doesn't make an access.
#[derive(Clone, Copy, Debug, PartialEq, Eq, Error)]
pub enum AccessFault {
    /// There is no such thread.
    NoThread,
    /// The range ends past the memory.
    OutOfBounds,
    /// An allocation failed.
    OutOfMemory,
    /// [`wm_event::MAX_EVENTS`] events are held.
    Full,
}

/// The name of a fault, as it prints.
fn access_fault_name(fault: AccessFault) -> &'static str
    ensures { result.now ≡ access_fault_text fault }
{
    match fault {
        AccessFault::NoThread => "NoThread",
        AccessFault::OutOfBounds => "OutOfBounds",
        AccessFault::OutOfMemory => "OutOfMemory",
        AccessFault::Full => "Full",
    }
}

impl fmt::Display for AccessFault {
    ghost output = { λ fault. Some (access_fault_text fault) };

    fn fmt<W: fmt::Write>(&self, f: &mut fmt::Formatter<W>) -> fmt::Result {
        f.write_str(access_fault_name(*self))
    }
}
