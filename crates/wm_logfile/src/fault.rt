//! Why a document was not read.
ghost use Rattle.std.specs.Prelude.{◌≡◌, Some};
ghost use Rattle.wm_logfile.specs.declared.fault.DocFault.TheVariants.{OutOfMemory};
ghost use Rattle.wm_logfile.specs.declared.fault.ReadFault.TheVariants as read_faults;
ghost use Rattle.wm_logfile.specs.Faults.{as_document};
ghost use Rattle.wm_logfile.specs.Texts.{doc_fault_text};

use crate::path::Path;
use std::alloc::{AllocError, AllocFailed};
use std::fmt;
use thiserror::Error;

/// Why a document was not read: its first fault. The limit of bytes comes first, then the JSON text, then the
/// document's length, its name and its version, and then the values from left to right, a list before its items. For an
/// end and an event, a length that no form has is reported first, then a fault of the first item, and then a length
/// that differs from this form's.
///
/// It prints as `BadShape at /2/0/1`, and without a path as `NotJson`.
#[derive(Debug, Drop, Error)]
pub enum DocFault {
    /// The bytes are not JSON text: not UTF-8, truncated, against the grammar, nested more than 127 deep, or with a
    /// number that is too large for a float.
    NotJson,
    /// The value at this path is of the wrong kind, is a list of the wrong length, or isn't a word of the format.
    BadShape(Path),
    /// The version is a number other than 1 and 2.
    BadVersion,
    /// The number at this path is out of its range, or has a sign, a fraction or an exponent.
    NumberRange(Path),
    /// There are more than [`crate::MAX_DOCUMENT_BYTES`] bytes or more than [`wm_event::MAX_THREADS`] threads.
    TooLarge,
    /// An allocation failed.
    OutOfMemory,
    /// The witness doesn't fit the log: it doesn't have a list of writers for each event, or it has writers for a
    /// write. Only [`crate::migrate`] reports it, after all faults of reading.
    Misplaced,
}

impl fmt::Display for DocFault {
    ghost output = { λ fault. Some (doc_fault_text fault) };

    fn fmt<W: fmt::Write>(&self, f: &mut fmt::Formatter<W>) -> fmt::Result {
        match self {
            DocFault::NotJson => f.write_str("NotJson"),
            DocFault::BadShape(path) => write!(f, "BadShape at {path}"),
            DocFault::BadVersion => f.write_str("BadVersion"),
            DocFault::NumberRange(path) => write!(f, "NumberRange at {path}"),
            DocFault::TooLarge => f.write_str("TooLarge"),
            DocFault::OutOfMemory => f.write_str("OutOfMemory"),
            DocFault::Misplaced => f.write_str("Misplaced"),
        }
    }
}

impl From<AllocError> for DocFault {
    ghost from_gives = { λ _ e. e ≡ OutOfMemory };

    fn from(_refused: AllocError) -> DocFault {
        DocFault::OutOfMemory
    }
}

impl<T: Drop> From<AllocFailed<T>> for DocFault {
    ghost from_gives = { λ _ e. e ≡ OutOfMemory };

    fn from(_refused: AllocFailed<T>) -> DocFault {
        DocFault::OutOfMemory
    }
}

/// A fault of a value inside a document.
#[derive(Drop)]
pub(crate) enum ReadFault {
    /// A wrong kind or length, or an unknown word.
    Shape(Path),
    /// A number out of its range.
    Range(Path),
    /// An allocation failed.
    Memory,
}

impl From<AllocError> for ReadFault {
    ghost from_gives = { λ _ e. e ≡ read_faults.Memory };

    fn from(_refused: AllocError) -> ReadFault {
        ReadFault::Memory
    }
}

impl<T: Drop> From<AllocFailed<T>> for ReadFault {
    ghost from_gives = { λ _ e. e ≡ read_faults.Memory };

    fn from(_refused: AllocFailed<T>) -> ReadFault {
        ReadFault::Memory
    }
}

impl From<ReadFault> for DocFault {
    ghost from_gives = { λ f e. e ≡ as_document f };

    fn from(fault: ReadFault) -> DocFault {
        match fault {
            ReadFault::Shape(path) => DocFault::BadShape(path),
            ReadFault::Range(path) => DocFault::NumberRange(path),
            ReadFault::Memory => DocFault::OutOfMemory,
        }
    }
}
