//! Whether any writers and any order of the events make a log valid by the memory rules, and which.
#![tactic(auto)]

mod answer;
mod arcs;
mod assumption;
mod atomic;
mod buckets;
mod cells;
mod choice;
mod copies;
mod decision;
mod grounds;
mod guess;
mod guessed;
mod halt;
mod leaf;
mod likely;
mod links;
mod named;
mod new_split;
mod node;
mod offers;
mod relation;
mod row;
mod rules;
mod schedule;
mod search;
mod split;
mod stack;
mod step;
mod tearing;
mod turns;
mod unknown;
mod whole;

pub use answer::Answer;
pub use assumption::Assumption;
pub use search::{find, find_keeping};
pub use unknown::unknown_witness;
