//! The memory model of ECMA-262, and that the rules V1 to V5 agree with it. The definitions in `specs/` have the numbers of
//! the standard's sections, to be read beside its text. The functions compute nothing: the contract of each is a law.
#![tactic(auto)]

mod law;

pub use law::{
    agrees_by_bytes, agrees_in_some_order, agrees_looking_back, agrees_with_the_standard,
    has_operations, is_allowed_by_bytes, letter_allows_more, order_is_needed, recorded_is_standard,
    recorded_is_standard_by_bytes, values_out_of_thin_air,
};
