//! Why a module is refused.
ghost use Rattle.std.specs.Prelude.{◌≡◌, Some};
ghost use Rattle.wm_valid.specs.Texts.{fault_text, kind_text, place_text};
ghost use Rattle.wm_valid.specs.declared.fault.ValidFault.TheVariants.{OutOfMemory as no_room};
ghost use Rattle.wm_valid.specs.declared.fault.InstrFault.TheVariants.{OutOfMemory as refused, Breaks as breaks};

use std::alloc::{AllocError, AllocFailed};
use std::fmt;
use thiserror::Error;

/// Which rule a module breaks.
#[derive(Clone, Copy, Debug, PartialEq, Eq)]
pub enum FaultKind {
    /// Operands, labels, a global or a data segment's offset don't have the expected types, or a constant global is set
    /// (Core 1.0, section 3.3).
    BadType,
    /// There is no type, function, local, global or memory of this index.
    Index,
    /// Fewer blocks enclose the instruction than its label counts.
    Label,
    /// The alignment of a plain access is more than its width, or that of an atomic access isn't its width.
    Alignment,
    /// A data segment isn't within the initial memory.
    DataOutOfRange,
    /// An instruction or a data segment needs a memory, and there is none.
    MemoryAbsent,
    /// A memory's maximum is below its minimum, or above 65,536 pages.
    MemoryLimits,
}

/// The place where a rule is broken.
#[derive(Clone, Copy, Debug, PartialEq, Eq)]
pub enum Location {
    /// Outside the functions' instructions.
    Module,
    /// At an instruction of a function. Functions count from 0, and so do the instructions of each, in the order of
    /// their opcodes, including each `else` and `end`; a number above the greatest usize is given as that.
    Instr { func: usize, instr: usize },
}

/// Why a module is refused. It prints as `Label in function 0 instruction 2`, as `Index in module`, or as
/// `OutOfMemory`.
#[derive(Clone, Copy, Debug, PartialEq, Eq, Error)]
pub enum ValidFault {
    /// The module breaks this rule at this place.
    At(FaultKind, Location),
    /// An allocation failed.
    OutOfMemory,
}

impl From<AllocError> for ValidFault {
    ghost from_gives = { λ _ e. e ≡ no_room };

    fn from(_refused: AllocError) -> ValidFault {
        ValidFault::OutOfMemory
    }
}

/// Why a function is refused, without the place.
#[derive(Clone, Copy)]
pub(crate) enum InstrFault {
    /// It breaks this rule.
    Breaks(FaultKind),
    /// An allocation failed.
    OutOfMemory,
}

impl InstrFault {
    ghost use Rattle.wm_valid.specs.declared.fault.ValidFault.{ValidFault};
    ghost use Rattle.wm_valid.specs.Blame.{placed};

    /// The fault at an instruction.
    pub(crate) fn at(self, func: usize, instr: usize) -> ValidFault
        ensures { result ≡ placed self func instr }
    {
        match self {
            InstrFault::Breaks(kind) => ValidFault::At(kind, Location::Instr { func, instr }),
            InstrFault::OutOfMemory => ValidFault::OutOfMemory,
        }
    }
}

impl From<FaultKind> for InstrFault {
    ghost from_gives = { λ kind e. e ≡ breaks kind };

    fn from(kind: FaultKind) -> InstrFault {
        InstrFault::Breaks(kind)
    }
}

impl From<AllocError> for InstrFault {
    ghost from_gives = { λ _ e. e ≡ refused };

    fn from(_refused: AllocError) -> InstrFault {
        InstrFault::OutOfMemory
    }
}

impl<T: Drop> From<AllocFailed<T>> for InstrFault {
    ghost from_gives = { λ _ e. e ≡ refused };

    fn from(_refused: AllocFailed<T>) -> InstrFault {
        InstrFault::OutOfMemory
    }
}

/// The name of a rule, as a fault prints it.
fn kind_name(kind: FaultKind) -> &'static str
    ensures { result.now ≡ kind_text kind }
{
    match kind {
        FaultKind::BadType => "BadType",
        FaultKind::Index => "Index",
        FaultKind::Label => "Label",
        FaultKind::Alignment => "Alignment",
        FaultKind::DataOutOfRange => "DataOutOfRange",
        FaultKind::MemoryAbsent => "MemoryAbsent",
        FaultKind::MemoryLimits => "MemoryLimits",
    }
}

impl fmt::Display for FaultKind {
    ghost output = { λ kind. Some (kind_text kind) };

    fn fmt<W: fmt::Write>(&self, f: &mut fmt::Formatter<W>) -> fmt::Result {
        f.write_str(kind_name(*self))
    }
}

impl fmt::Display for Location {
    ghost output = { λ place. Some (place_text place) };

    fn fmt<W: fmt::Write>(&self, f: &mut fmt::Formatter<W>) -> fmt::Result {
        match self {
            Location::Module => f.write_str("in module"),
            Location::Instr { func, instr } => write!(f, "in function {func} instruction {instr}"),
        }
    }
}

impl fmt::Display for ValidFault {
    ghost output = { λ fault. Some (fault_text fault) };

    fn fmt<W: fmt::Write>(&self, f: &mut fmt::Formatter<W>) -> fmt::Result {
        match self {
            ValidFault::At(kind, place) => write!(f, "{kind} {place}"),
            ValidFault::OutOfMemory => f.write_str("OutOfMemory"),
        }
    }
}
