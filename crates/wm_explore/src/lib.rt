//! The outcomes that the memory model permits of a module.
#![tactic(auto)]

mod asking;
mod bound;
mod cache;
mod clock;
mod copies;
mod exploration;
mod hint;
mod idle;
mod interleaving;
mod judge;
mod law;
mod moved;
mod past;
mod search;
mod standing;
mod state;
mod subtrees;
mod turn;
mod uniform;
mod values;
mod writing;

pub use bound::{Bound, Limits};
pub use exploration::{Exploration, Finished};
pub use law::{causal_is_standard, explored_is_standard, uniform_is_causal};
pub use search::explore;
pub use uniform::{is_uniform, uniform_is_not_mixed};
