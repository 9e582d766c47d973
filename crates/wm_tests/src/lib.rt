//! The tests of the calls of the crates below the program. They are in a crate that holds nothing else, since a crate with
//! tests is proved twice. What the program prints is tested by rows.
#![tactic(auto)]

#[cfg(test)]
mod tests;
