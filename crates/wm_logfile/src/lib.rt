//! The document of a log with a witness: JSON text (RFC 8259) of arrays, strings and integers.
//!
//! - document: `["wasm-litmus-log",2,THREADS,ORDER]`
//! - thread: `[NAME,[ARG..],END,STEPS,[EVENT..]]`
//! - end: `["done",[V]]`, `["done",[]]`, `["trap",TRAP]` or `["cut"]`, where TRAP is `"unreachable"`,
//!   `"divide-by-zero"`, `"overflow"`, `"out-of-bounds"`, `"unaligned"` or `"exhausted"`
//! - event: `["r",ORD,ADDR,WIDTH,V,BY]`, `["w",ORD,ADDR,WIDTH,V]` or
//!   `["x","sc",ADDR,WIDTH,READ,WRITTEN,BY]`, where ORD is `"un"` or `"sc"`
//! - BY: for each byte read `[THREAD,NUMBER]`, or `[]` for Init
//! - ORDER: a list of `[THREAD,NUMBER]`
//!
//! ARG, V, READ and WRITTEN are at most 2^64 - 1, ADDR, THREAD and NUMBER at most 2^32 - 1, STEPS is at most
//! 1,000,000, and WIDTH is 1, 2, 4 or 8.
//!
//! Version 1 is also read, but never written. It is `["wasm-litmus-log",1,THREADS,[WRITERS,ORDER]]`: its events have no
//! BY, and WRITERS has, for each thread and each event, the list that would be BY; for a write it is empty.
#![tactic(auto)]

/// The most bytes of a document.
pub const MAX_DOCUMENT_BYTES: usize = 8_388_608;

mod document;
mod event;
mod fault;
mod fields;
mod items;
mod law;
mod migration;
mod path;
mod quick;
mod text;
mod thread;
mod witness;
mod words;

pub use document::{one_pair, read_document};
pub use fault::DocFault;
pub use law::fault_paths_lead_to_values;
pub use migration::{migrate, write_and_read};
pub use path::Path;
pub use text::write_document;
