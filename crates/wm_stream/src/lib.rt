//! The lines of a stream, answered at the same time and printed in order.
#![tactic(auto)]

mod answer;
mod batch;
mod lines;
mod output;
mod stream;

pub use answer::{AnswersLines, LineAnswer, LineStatus};
pub use output::write_text;
pub use stream::{StreamFault, answer_lines};
