//! Modules from bytes (Core 1.0, chapter 5, and the threads proposal).
#![tactic(auto)]

mod body;
mod bounds;
mod code;
mod data_count;
mod exports;
mod fault;
mod function_types;
mod globals;
mod imports;
mod initial_values;
mod memories;
mod module;
mod no_items;
mod number;
mod opcode;
mod section;
mod segments;
mod type_indices;
mod types;
mod vectors;

pub use bounds::{MAX_FUNCTIONS, MAX_INITIAL_PAGES, MAX_LOCALS, MAX_MODULE_BYTES, MAX_NESTING};
pub use fault::{DecodeFault, FaultKind, Feature, Limit};
pub use module::{decode, spelled_once};
