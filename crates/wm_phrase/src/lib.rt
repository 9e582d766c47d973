//! Events, accesses, writers, ends and names in words.
#![tactic(auto)]

mod json_text;
mod phrase;
mod writing;

pub use json_text::{JsonText, ShortText};
pub use phrase::{AndEndPhrase, Count, EndPhrase, EventPhrase, OpPhrase, ValueForm, WritersPhrase};
pub use writing::{write_id, write_key};
