//! The files of the system.
ghost use Rattle.std.specs.Prelude.{◌≡◌, ◌≤◌, IfOk, None, vec_len};

use std::fs;
use std::fs::Files as FileSystem;
use std::io::ErrorKind;
use wm_litmus::{FileFault, Files, read_limited};

/// The system's files, and how many times the system failed to read one.
#[derive(Drop)]
pub struct Disk<'a, R> {
    rt: &'a R,
    failures: u64,
}

impl<'a, R: FileSystem + AllocGlobal> Disk<'a, R> {
    /// The files, before any is read.
    pub fn new(rt: &'a R) -> Disk<'a, R>
        ensures { result.failures ≡ 0 }
    {
        Disk { rt, failures: 0 }
    }

    /// At most the first `limit` bytes of a file.
    fn read_once(&self, name: &str, limit: usize) -> Result<Vec<u8>, FileFault>
        ensures { IfOk result (λ bytes. vec_len bytes ≤ limit) }
    {
        match fs::open(self.rt, name) {
            Ok(mut file) => read_limited(self.rt.alloc(), &mut file, limit),
            Err(error) if error.kind() == ErrorKind::OutOfMemory => Err(FileFault::OutOfMemory),
            Err(_) => Err(FileFault::Device),
        }
    }
}

impl<R: FileSystem + AllocGlobal> Files for Disk<'_, R> {
    ghost failures_of = { λ disk. disk.failures };

    // No clause states the contents of the system's files.
    ghost content_of = { λ _ _. None };

    fn read(&mut self, name: &str, limit: usize) -> Result<Vec<u8>, FileFault> {
        let result = self.read_once(name, limit);
        if let Err(FileFault::Device) = &result {
            self.failures += 1;
        }
        result
    }

    fn failures(&self) -> u64 {
        self.failures
    }
}
