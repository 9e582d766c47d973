//! The command line: which command the words are, by clap's own model of the parse, and what the words of a script, of
//! rounds, of a search and of an exploration spell.
//!
//! What a word spells is defined separately from the reading (`specs/`): a script is items between commas, an item a
//! turn with how often it is taken, a start a name and its arguments between colons, a number decimal digits.
#![tactic(auto)]

mod command;
mod fault;
mod nodes;
mod number;
mod reason;
mod start;
mod turns;
mod usage;
mod words;

pub use command::{
    Command, CommandFault, DocumentTask, LineTask, RunTask, WitnessWords, read_command,
};
pub use fault::WordFault;
pub use nodes::read_nodes;
pub use number::is_number;
pub use reason::refusal_reason;
pub use words::{Exploration, Rounds, Script, read_exploration, read_rounds, read_script};
