//! A log against its module: each thread is run again on the values that it read, to compare the log with its runs to
//! complete it from them, or to see what it does next.
#![tactic(auto)]

mod answer;
mod by_log;
mod compare;
mod completing;
mod continuing;
mod law;
mod parallel;

pub use answer::{Place, ReplayAnswer};
pub use by_log::{Followed, end_of, follow, follow_on};
pub use compare::{Replayed, replay, replay_with_positions};
pub use completing::{Completion, complete, without_run};
pub use continuing::{Next, next_after, next_of};
pub use law::one_position;
