//! The instructions of a module that make the events of a log: their functions, their numbers in code order, and their
//! byte offsets in the module.
#![tactic(auto)]

mod code_map;
mod law;
mod module_code;
mod opcode_numbers;
mod sites;

pub use code_map::CodeMap;
pub use law::{made_at_opcodes, made_events_have_sites};
pub use module_code::ModuleCode;
pub use sites::{RunSites, event_sites, position_sites};
