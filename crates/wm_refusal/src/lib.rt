//! Why a module, a document, or a log with its witness is refused: where the fault is, what was found, what was expected,
//! and what to do about it.
#![tactic(auto)]

mod decode_refusal;
mod document_part;
mod document_refusal;
mod expected;
mod feature;
mod instr_at;
mod module_count;
mod shape_refusal;
mod survey;
mod type_fault;
mod type_stack;
mod unsupported;
mod valid_refusal;

pub use decode_refusal::decode_reason;
pub use document_refusal::document_reason;
pub use shape_refusal::shape_reason;
pub use valid_refusal::valid_reason;
