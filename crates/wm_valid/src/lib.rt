//! Which modules are valid (Core 1.0, chapter 3, and the threads proposal), and the initial bytes of their memory.
#![tactic(auto)]

mod body;
mod checker;
mod fault;
mod image;
mod instr_types;
mod labels;
mod scope;
mod sections;
mod stack;
mod valid;

pub use fault::{FaultKind, Location, ValidFault};
pub use instr_types::{InstrType, Operands};
pub use scope::{Scope, instr_type};
pub use valid::{ValidModule, validate};
