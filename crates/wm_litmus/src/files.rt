//! Files, as a trait, so that a test can provide its own.
ghost use Rattle.std.specs.Prelude.{ℕ, ◌≡◌, ◌+◌, ◌^◌, ◌<◌, ◌≤◌, IfErr, IfOk, IfSome, List, OnOk, Option, take, vec_len};
ghost use Rattle.wm_litmus.specs.declared.files.FileFault.TheVariants.{Device, OutOfMemory};

use std::alloc::AllocError;
use thiserror::Error;

/// Why a file or the input was not read.
#[derive(Clone, Copy, Debug, Error)]
pub enum FileFault {
    /// It couldn't be opened, or a read of it failed.
    #[error("the device failed")]
    Device,
    /// An allocation failed.
    #[error("out of memory")]
    OutOfMemory,
}

impl From<AllocError> for FileFault {
    ghost from_gives = { λ _ fault. fault ≡ OutOfMemory };

    fn from(_refused: AllocError) -> FileFault {
        FileFault::OutOfMemory
    }
}

/// Files by name, and a count of the calls that failed because of a device.
pub trait Files {
    ghost failures_of: { Self → ℕ };

    // The contents of the file of a name, if they are known.
    ghost content_of: { Self → List ℕ → Option (List ℕ) };

    /// At most the first `limit` bytes of the file `name`.
    ///
    /// # Errors
    ///
    /// `Device` if the file couldn't be opened or a read of it failed, and then the count is higher than before;
    /// `OutOfMemory` if an allocation fails.
    fn read(&mut self, name: &str, limit: usize) -> Result<Vec<u8>, FileFault>
        requires { failures_of self.old + 1 < 2 ^ 64 }
        ensures bound { IfOk result (λ bytes. vec_len bytes ≤ limit) }
        ensures known { IfOk result (λ bytes. IfSome (content_of self.old name.now)
            (λ all. bytes.items ≡ take limit all)) }
        ensures same { (file : List ℕ) → content_of self.new file ≡ content_of self.old file }
        ensures device { IfErr result (λ fault. fault ≡ Device
            → failures_of self.old < failures_of self.new) }
        ensures monotone { failures_of self.old ≤ failures_of self.new }
        ensures no_failure { OnOk result (failures_of self.new ≡ failures_of self.old) };

    /// How many calls have failed so far because of a device.
    fn failures(&self) -> u64
        ensures { result ≡ failures_of self.now };
}
