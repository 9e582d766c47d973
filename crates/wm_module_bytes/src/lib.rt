//! Reading the bytes of a module without judging them: numbers, sections, instructions of any part of WebAssembly, and
//! the names of functions. It is for explanations: no verdict is based on it.
#![tactic(auto)]

mod byte_reader;
mod instruction;
mod name_section;

pub use byte_reader::{ByteReader, Section};
pub use instruction::{Immediates, Opcode, immediates_of, skip_immediates};
pub use name_section::section_names;
