//! A list and a string that contracts see as lists, for types that contracts compare as a whole, and a vector whose
//! capacity is reserved up front.
#![tactic(auto)]

mod growing;
mod list;
mod text;

pub use growing::Growing;
pub use list::List;
pub use text::Text;
