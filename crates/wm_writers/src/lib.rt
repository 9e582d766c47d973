//! Whether a fault of a memory rule depends on the witness: which events fit the bytes that the fault rests on.
#![tactic(auto)]

mod fit;
mod law;
mod need;
mod source;
mod writers;

pub use law::forced_fault_stays;
pub use need::Need;
pub use source::{ByteFit, Source};
pub use writers::{FaultWriters, Writers, writers_that_fit};
