//! Why a check gives its answer, in sentences and tables.
#![tactic(auto)]

mod allowed;
mod compared;
mod explanation;
mod function_name;
mod named_site;
mod other_witness;
mod part;
mod position;
mod reasons;
mod remedy;
mod replay;
mod row;
mod rule;
mod some_sites;
mod start_refusal;

pub use explanation::Explanation;
pub use part::Part;
pub use reasons::{
    explain_difference, explain_document, explain_events, explain_judged, explain_refusal,
    explain_shape,
};
pub use replay::{PictureNotes, difference_notes, judged_notes};
