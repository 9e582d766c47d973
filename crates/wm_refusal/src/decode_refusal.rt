//! Why bytes are not a module within the limits.

use crate::feature::Part;
use crate::module_count::{number_at, parameters_and_locals};
use crate::survey::Location;
use crate::unsupported::{UnsupportedSentence, unsupported_reason};
use std::alloc::{AllocError, Global};
use std::fmt;
use wm_decode::{
    DecodeFault, FaultKind, Limit, MAX_FUNCTIONS, MAX_INITIAL_PAGES, MAX_LOCALS, MAX_MODULE_BYTES,
    MAX_NESTING,
};

/// How many bytes are shown before a faulty byte, and how many from that byte on.
const AROUND: usize = 8;

/// A number that is over a limit, if it is known.
#[derive(Clone, Copy)]
struct Found(Option<u64>);

impl fmt::Display for Found {
    fn fmt<W: fmt::Write>(&self, f: &mut fmt::Formatter<W>) -> fmt::Result {
        match self.0 {
            Some(number) => write!(f, "{number}"),
            None => f.write_str("too many"),
        }
    }
}

/// The quantity that is over a limit.
#[derive(Clone, Copy)]
struct LimitSentence {
    limit: Limit,
    found: Found,
}

impl fmt::Display for LimitSentence {
    fn fmt<W: fmt::Write>(&self, f: &mut fmt::Formatter<W>) -> fmt::Result {
        let found = self.found;
        match self.limit {
            Limit::ModuleBytes => write!(
                f,
                "The module has more than {MAX_MODULE_BYTES} bytes, the most that are supported."
            ),
            Limit::Pages => write!(
                f,
                "The memory has {found} initial pages. At most {MAX_INITIAL_PAGES} are supported."
            ),
            Limit::Functions => write!(
                f,
                "The module has {found} functions. At most {MAX_FUNCTIONS} are supported."
            ),
            Limit::Locals => write!(
                f,
                "A function has {found} parameters and locals up to here. At most {MAX_LOCALS} are supported."
            ),
            Limit::Nesting => write!(
                f,
                "This block has a nesting depth of {}. At most {MAX_NESTING} is supported.",
                MAX_NESTING + 1
            ),
        }
    }
}

/// What is wrong with the bytes of a module.
#[derive(Clone, Copy)]
pub(crate) struct DecodeSentence {
    pub kind: FaultKind,
    /// The number that is over a limit, if it is known.
    pub found: Option<u64>,
}

impl fmt::Display for DecodeSentence {
    fn fmt<W: fmt::Write>(&self, f: &mut fmt::Formatter<W>) -> fmt::Result {
        let text = match self.kind {
            FaultKind::Magic => "A binary module begins with the bytes 00 61 73 6d.",
            FaultKind::Version => {
                "After its first four bytes a binary module has 01 00 00 00, the version."
            }
            FaultKind::Truncated => "The bytes end too early.",
            FaultKind::BadNumber =>
                "A number is too long or too large here, or a byte isn't one of those that are allowed here.",
            FaultKind::BadName => "A name isn't UTF-8.",
            FaultKind::SectionOrder => {
                "A section comes twice, or after one that it has to precede."
            }
            FaultKind::SectionSize =>
                "An item runs past the size of its section or body, or bytes are left over there.",
            FaultKind::CountMismatch => "Two counts that have to be equal differ.",
            FaultKind::DuplicateExport => "Two exports have one name.",
            FaultKind::UnknownOpcode(0x05) => {
                "An else is outside of every if, or is the second one of its if."
            }
            FaultKind::UnknownOpcode(0xfe) => {
                "No instruction of the threads proposal has this code after the prefix fe."
            }
            FaultKind::UnknownOpcode(opcode) => {
                return write!(
                    f,
                    "No instruction that is known here has the opcode {opcode:02x}."
                );
            }
            FaultKind::Unsupported(feature) => {
                let (part, location) = (Part::of(feature), Location::Module);
                return write!(f, "{}", UnsupportedSentence { part, location });
            }
            FaultKind::Limit(limit) => {
                let found = Found(self.found);
                return write!(f, "{}", LimitSentence { limit, found });
            }
        };
        f.write_str(text)
    }
}

/// The number that is over a limit, if the bytes contain it.
fn found_at(kind: FaultKind, bytes: &[u8], offset: usize) -> Option<u64> {
    match kind {
        FaultKind::Limit(Limit::ModuleBytes) => Some(bytes.len() as u64),
        FaultKind::Limit(Limit::Pages | Limit::Functions) => number_at(bytes, offset),
        FaultKind::Limit(Limit::Locals) => parameters_and_locals(bytes, offset),
        _ => None,
    }
}

/// The words before the bytes around an offset, with the number of bytes.
#[derive(Clone, Copy)]
struct Heading(usize, usize);

impl fmt::Display for Heading {
    fn fmt<W: fmt::Write>(&self, f: &mut fmt::Formatter<W>) -> fmt::Result {
        let Heading(offset, size) = *self;
        if offset < size {
            return write!(f, "The bytes there, the one at {offset} in brackets:");
        }
        if size == 0 {
            return f.write_str("The bytes there: none");
        }
        f.write_str("The last bytes:")
    }
}

/// The bytes around an offset, with the byte there in brackets.
#[derive(Clone, Copy)]
struct BytesAround<'a>(&'a [u8], usize);

impl fmt::Display for BytesAround<'_> {
    fn fmt<W: fmt::Write>(&self, f: &mut fmt::Formatter<W>) -> fmt::Result {
        let BytesAround(bytes, offset) = *self;
        for (position, byte) in bytes.iter().enumerate() {
            if position.saturating_add(AROUND) < offset
                || position > offset.saturating_add(AROUND)
            {
                continue;
            }
            if position == offset {
                write!(f, " [{byte:02x}]")?;
            } else {
                write!(f, " {byte:02x}")?;
            }
        }
        Ok(())
    }
}

/// How many bytes a module has, as it prints. Of one that is too large no more than the limit and a byte are read.
#[derive(Clone, Copy)]
struct ModuleSize(usize);

impl fmt::Display for ModuleSize {
    fn fmt<W: fmt::Write>(&self, f: &mut fmt::Formatter<W>) -> fmt::Result {
        if self.0 > MAX_MODULE_BYTES {
            write!(f, "more than {MAX_MODULE_BYTES}")
        } else {
            write!(f, "{}", self.0)
        }
    }
}

/// A fault at an offset of a module in a sentence, the bytes there, and what else there is to say.
fn fault_text<S: fmt::Display>(
    alloc: Global,
    sentence: &S,
    offset: usize,
    bytes: &[u8],
    more: &str,
) -> Result<String, AllocError> {
    let size = ModuleSize(bytes.len());
    let heading = Heading(offset, bytes.len());
    let around = BytesAround(bytes, offset);
    format!(in alloc;
        "The module can't be decoded at byte {offset} of {size}. {sentence}\n{heading}{around}\n{more}"
    )
}

/// Why bytes are not a module within the limits.
///
/// # Errors
///
/// Only if an allocation fails.
pub fn decode_reason(
    alloc: Global,
    fault: &DecodeFault,
    bytes: &[u8],
) -> Result<String, AllocError> {
    match *fault {
        DecodeFault::OutOfMemory => Err(AllocError),
        DecodeFault::At(FaultKind::Unsupported(feature), offset) => {
            let (sentence, more) = unsupported_reason(alloc, feature, offset, bytes)?;
            fault_text(alloc, &sentence, offset, bytes, more.as_str())
        }
        DecodeFault::At(kind, offset) => {
            let found = found_at(kind, bytes, offset);
            fault_text(alloc, &DecodeSentence { kind, found }, offset, bytes, "")
        }
    }
}
