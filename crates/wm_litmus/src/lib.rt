//! The program over a reader, two writers and the files: the commands, and the lines that they print.
//!
//! | Answer | Line | Status |
//! |---|---|---|
//! | the memory rules permit the run | `allowed` | 0 |
//! | a rule is broken | `broken V5 case 3 at 1.0 byte 0 writer init other 0.0` | 1 |
//! | the module and the memory rules permit the run | `allowed threads=2 events=4` | 0 |
//! | a thread's log isn't its run | `broken replay thread 0 event 0` | 1 |
//! | the document in version 2 | `["wasm-litmus-log",2,[["a",[],["cut"],0,[]]],[]]` | 0 |
//! | the same with its steps and ends | `["wasm-litmus-log",2,[["a",[],["done",[]],1,[]]],[]]` | 0 |
//! | a witness of the log that makes it allowed | `["wasm-litmus-log",2,[["a",[],["cut"],0,[]]],[]]` | 0 |
//! | there is none | `no witness threads=2 events=4` | 1 |
//! | the search for one took its number of nodes | `gave up nodes=100000` | 2 |
//! | the bytes are not a module | `refused decode Truncated at 42` | 2 |
//! | the module isn't valid | `refused valid Alignment in function 0 instruction 2` | 2 |
//! | the document is refused | `refused document BadShape at /2/0/1` | 2 |
//! | its log and witness are not a candidate | `refused shape WriterCount at 0.1` | 2 |
//! | how the program is used, its version | the text of `help`, of `version` | 0 |
//! | the words are refused | `refused command words` | 2 |
//! | an allocation failed | `out of memory`, on standard error | 3 |
//! | a device failed | `cannot read NAME` or `cannot write`, on standard error | 3 |
#![tactic(auto)]

/// The initial pages of zeros in the memory of a run under the command `rules`.
pub const INITIAL_PAGES: usize = 16;

mod answer;
mod check;
mod completion;
mod drive;
mod event_explanation;
mod explanation;
mod explore;
mod files;
mod help;
mod input;
mod line;
mod line_witness;
mod migration;
mod outcomes;
mod own;
mod program;
mod races;
mod rounds;
mod rules;
mod stream;
mod table;
mod task;
mod trace;
mod witness;
mod witness_task;

pub use files::{FileFault, Files};
pub use input::read_limited;
pub use line::{rules_line, verdict_line};
pub use outcomes::outcome;
pub use program::serve;
pub use table::report;
