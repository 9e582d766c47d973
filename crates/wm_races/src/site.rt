//! Where in the code the events of a race come from.
ghost use Rattle.std.specs.Prelude.{◌≡◌, IsSome};
ghost use Rattle.wm_races.specs.Report.{site_at, site_in};

use wm_event::EventKey;
use wm_list::List;

/// An instruction of a module. Where races are listed by their events, all events have the same one.
#[derive(Clone, Copy, PartialEq, Eq, Hash)]
pub struct Site {
    /// The function, by its index.
    pub function: u32,
    /// The number of the instruction among the opcodes of the function, from 0 in code order.
    pub instruction: u32,
    /// The byte offset of the instruction in the module.
    pub offset: u32,
}

/// The two sites of a race.
#[derive(Clone, Copy, PartialEq, Eq, Hash)]
pub(crate) struct SitePair {
    /// The site of the event that only reads, or that also writes and comes later in the order.
    pub site: Site,
    /// The site of the write.
    pub other: Site,
}

/// The races between two sites.
#[derive(Clone, Copy)]
pub struct SiteRace {
    /// The site of `event`.
    pub site: Site,
    /// The site of `write`.
    pub other: Site,
    /// In the first race between these sites, the event that only reads, or that also writes and comes later in the
    /// order.
    pub event: EventKey,
    /// In the first race between these sites, the write.
    pub write: EventKey,
    /// How many pairs of events race between these sites, at least 1.
    pub count: u64,
}

/// The site of an event.
pub(crate) fn site_of(sites: &[List<Site>], key: EventKey) -> Site
    requires { IsSome (site_in sites.now key) }
    ensures { result ≡ site_at sites.now key }
{
    let Some(thread) = sites.get(key.thread as usize) else {
        unreachable!()
    };
    match thread.get(key.number as usize) {
        Some(site) => *site,
        None => unreachable!(),
    }
}
