//! The syntax of modules: the abstract syntax of WebAssembly's integer part with threads
//! (Core 1.0, chapter 2, and the threads proposal).
#![tactic(auto)]

mod access;
mod exports;
mod instr;
mod instr_text;
mod module;
mod types;

pub use access::{AccessKind, Narrow, Storage};
pub use exports::{Export, ExportKind, Exports};
pub use instr::{Block, Else, Instr, MemArg};
pub use instr_text::InstrText;
pub use module::{ConstExpr, DataSegment, Func, Global, ImportName, Memory, Module};
pub use types::{BlockType, FuncType, Limits, Mutability, ValType};
