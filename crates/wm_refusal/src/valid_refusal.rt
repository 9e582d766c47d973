//! Why a module is not valid.

use crate::instr_at::{InstrAt, find_instr};
use crate::type_fault::{section_fault, type_fault};
use std::alloc::{AllocError, Global};
use std::fmt;
use wm_ast::{InstrText, Module};
use wm_decode::{DecodeFault, decode};
use wm_valid::{FaultKind, Location, ValidFault};

/// Which rule a module breaks.
fn rule(kind: FaultKind) -> &'static str {
    match kind {
        FaultKind::BadType =>
            "The operands, a label, a global or an offset don't have the types that are expected there, or an immutable global is set.",
        FaultKind::Index => "An index names no type, function, local, global or memory.",
        FaultKind::Label =>
            "A branch names a label that is greater than the number of blocks around it.",
        FaultKind::Alignment =>
            "The alignment of a plain access may not be greater than its width, and that of an atomic access has to be its width.",
        FaultKind::DataOutOfRange => "A data segment isn't inside the initial memory.",
        FaultKind::MemoryAbsent =>
            "An instruction or a data segment needs a memory, and the module has none.",
        FaultKind::MemoryLimits =>
            "The memory's maximum is below its minimum, or above 65536 pages.",
    }
}

/// The place where a module breaks a rule.
#[derive(Clone, Copy)]
struct LocationPhrase(Location);

impl fmt::Display for LocationPhrase {
    fn fmt<W: fmt::Write>(&self, f: &mut fmt::Formatter<W>) -> fmt::Result {
        match self.0 {
            Location::Module => f.write_str("outside the functions' instructions"),
            Location::Instr { func, instr } => write!(
                f,
                "at instruction {instr} of function {func} (both counted from 0, else and end included)"
            ),
        }
    }
}

/// What is wrong at an opcode of a function.
fn fault_at(
    alloc: Global,
    kind: FaultKind,
    module: &Module,
    found: &InstrAt,
) -> Result<String, AllocError> {
    if kind == FaultKind::BadType {
        return type_fault(alloc, module, found);
    }
    let sentence = rule(kind);
    match found.instr {
        Some(instr) => {
            let opcode = InstrText(instr);
            format!(in alloc; "The instruction is {opcode}. {sentence}")
        }
        None => String::from_str(alloc, sentence),
    }
}

/// What is wrong at a place of a module.
fn fault_text(
    alloc: Global,
    kind: FaultKind,
    location: Location,
    module: &Module,
) -> Result<String, AllocError> {
    match location {
        Location::Instr { func, instr } => {
            if let Some(found) = find_instr(alloc, module, func, instr)? {
                return fault_at(alloc, kind, module, &found);
            }
        }
        Location::Module if kind == FaultKind::BadType => {
            if let Some(text) = section_fault(alloc, module)? {
                return Ok(text);
            }
        }
        Location::Module => {}
    }
    String::from_str(alloc, rule(kind))
}

/// What is wrong at a place of the module of these bytes; only the rule if the bytes spell no module.
fn broken_rule(
    alloc: Global,
    kind: FaultKind,
    location: Location,
    bytes: &[u8],
) -> Result<String, AllocError> {
    match decode(alloc, bytes) {
        Ok(module) => fault_text(alloc, kind, location, &module),
        Err(DecodeFault::OutOfMemory) => Err(AllocError),
        Err(DecodeFault::At(_, _)) => String::from_str(alloc, rule(kind)),
    }
}

/// Why the module of these bytes isn't valid. It is decoded again, since the fault doesn't keep it.
///
/// # Errors
///
/// Only if an allocation fails.
pub fn valid_reason(alloc: Global, fault: &ValidFault, bytes: &[u8]) -> Result<String, AllocError> {
    match *fault {
        ValidFault::OutOfMemory => Err(AllocError),
        ValidFault::At(kind, location) => {
            let text = broken_rule(alloc, kind, location, bytes)?;
            let place = LocationPhrase(location);
            format!(in alloc; "The module isn't valid, {place}. {text}\n")
        }
    }
}
