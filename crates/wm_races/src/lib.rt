//! The data races of a candidate, counted by the sites of their events, or the first of them one by one.
#![tactic(auto)]

mod begins;
mod block;
mod bounds;
mod classes;
mod first;
mod group;
mod groups;
mod law;
mod near;
mod pair;
mod part;
mod remainders;
mod report;
mod scan;
mod site;
mod window;

pub use first::{FirstRaces, first_races};
pub use law::one_race_report;
pub use pair::RacingPair;
pub use scan::races;
pub use site::{Site, SiteRace};
