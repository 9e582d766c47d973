//! A log against its module and the memory rules: from the bytes of both to the verdict.
#![tactic(auto)]

mod checker;
mod completed;
mod judged;
mod law;
mod verdict;
mod verified;

pub use checker::{
    CheckedLog, Unread, check, check_log, count_events, judged_verdict, read_module,
};
pub use completed::{CompletedDocument, complete_document};
pub use judged::{JudgedDocument, judge_document};
pub use law::{one_verdict, one_verified_verdict, same_verdict, verify_is_check_of_completed};
pub use verdict::{Breach, Certificate, Refusal, Verdict};
pub use verified::{verify, verify_log};
