//! The checker for programs in C: one call, which takes the bytes of a module and of a log, and writes the line of `verify`.
//!
//! It keeps nothing from call to call, so threads may call it at the same time. `library/wmlab.h` is what C sees.
#![tactic(auto)]

mod answer;
mod export;

pub use export::wmlab_answer;
