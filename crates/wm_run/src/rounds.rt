//! Rounds: the threads of a module run at the same time over one memory, with a drainer beside them. Only what is here may
//! wait for another thread.

mod assigned;
mod bell;
mod board;
mod crew;
mod drains;
mod ended;
mod ends;
mod gate;
mod gathering;
mod round;
mod series;
mod spread;
mod taker;
mod worker;

pub use assigned::Assigned;
pub use drains::drainer;
pub use ended::{Stop, ThreadEnd};
pub use gate::{Gate, OpenGate};
pub use gathering::gather;
pub use round::{WorkPromise, run_round};
pub use series::run_rounds;
pub use taker::Taker;
pub use worker::work;
