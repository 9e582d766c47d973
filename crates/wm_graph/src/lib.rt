//! An execution as a picture: its data, and its text for Graphviz.
#![tactic(auto)]

mod caption;
mod columns;
mod cycle;
mod cycle_edge;
mod dot;
mod drawn;
mod edges;
mod fault_edges;
mod forced;
mod frame;
mod label;
mod lines;
mod picture;
mod shown;
mod ways;

pub use caption::Caption;
pub use dot::Sketch;
