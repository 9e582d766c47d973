//! Each crate below the program, through its public calls, and several of them together.
mod accesses;
mod buffered_memory;
mod calls;
mod candidates;
mod closure;
mod decoding;
mod documents;
mod driving;
mod gathering;
mod instructions;
mod integers;
mod lists;
mod modules;
mod output;
mod reading;
mod recorder;
mod recordings;
mod refusals;
mod rounds;
mod shared;
mod thread;
mod validation;
mod witnesses;

use std::fmt::Debug;
use std::process::Abort;

// At each exit of a function the prover writes out how each owned value is dropped, field by field. So a value with many
// parts (a module, a recorder, a candidate) is dropped by one call of `drop`, and the steps over it are in a function that
// borrows it.

/// Stops the test if the two differ. Each `assert_eq!` of a test would lengthen its proof by some seconds.
fn same<R: Abort, T: PartialEq + Debug + Drop>(rt: &R, got: T, wanted: T) {
    assert_eq!(rt; got, wanted);
}

/// The same for one case of a table, which the message names.
fn same_in<R: Abort, C: Debug, T: PartialEq + Debug + Drop>(rt: &R, case: &C, got: T, wanted: T) {
    assert_eq!(rt; got, wanted, "{case:?}");
}
