//! The first data races of a candidate, and how many it has.
ghost use Rattle.std.specs.Prelude.{◌≡◌, ◌<◌, ◌≤◌, List, IfOk, length, map, sum_by};
ghost use Rattle.wm_event.specs.LoggedRun.{execution};
ghost use Rattle.wm_races.specs.Classes.{HasClassSites, HasClasses};
ghost use Rattle.wm_races.specs.First.{AreFirstRaces, AreRacesAt, IsRaceCount, one_site_table};
ghost use Rattle.wm_races.specs.Gathering.{count_of};
ghost use Rattle.wm_races.specs.Groups.{first_pair};
ghost use Rattle.wm_races.specs.Window.{HasBegins};
ghost use Rattle.wm_races.specs.declared.site.Site.{Site};

use crate::begins::Begins;
use crate::classes::ClassTable;
use crate::group::Group;
use crate::groups::groups_of;
use crate::pair::RacingPair;
use crate::scan::races;
use crate::site::{Site, SiteRace};
use std::alloc::{AllocError, Global};
use std::thread::Threads;
use wm_event::Log;
use wm_hb::HappensBefore;
use wm_list::List;

/// The first races of a candidate, and how many it has.
#[derive(Drop)]
pub struct FirstRaces {
    /// The first ones, in the order of the event's place, then of the first byte that both access, then of the write's
    /// place.
    pub pairs: List<RacingPair>,
    /// How many races there are.
    pub total: u64,
}

/// A site that represents all events.
const ONE_SITE: Site = Site {
    function: 0,
    instruction: 0,
    offset: 0,
};

/// The same site for all events of a log.
fn one_site(alloc: Global, log: &Log) -> Result<Vec<List<Site>>, AllocError>
    ensures { IfOk result (λ sites. sites.items ≡ one_site_table log.now) }
{
    let mut sites = Vec::new(alloc);
    for thread in log.threads() {
        sites.push(List::from_vec(vec![in alloc; ONE_SITE; thread.events.len()]?))?;
    }
    Ok(sites)
}

/// How many races the only line of a report has, 0 without a line.
fn count_in(lines: &[SiteRace]) -> u64
    requires { length lines.now ≤ 1 }
    ensures { result ≡ sum_by count_of lines.now }
{
    match lines {
        [line, ..] => line.count,
        [] => 0,
    }
}

/// The first pairs of some groups.
fn first_pairs(alloc: Global, groups: &[Group]) -> Result<List<RacingPair>, AllocError>
    ensures { IfOk result (λ pairs. pairs ≡ map first_pair groups.now) }
{
    let mut pairs = Vec::new(alloc);
    for group in groups {
        pairs.push(group.pair)?;
    }
    Ok(List::from_vec(pairs))
}

/// The races of the event at a place of the order, one by one. An event without races takes little time.
fn races_at(
    alloc: Global,
    before: &HappensBefore,
    begins: &Begins,
    table: &ClassTable,
    place: usize,
) -> Result<List<RacingPair>, AllocError>
    requires place { place < length before.now.witness.order }
    requires begins { HasBegins before.now begins.now }
    requires classes { HasClasses before.now table.now }
    requires sites { (sites : List (List Site)) × HasClassSites before.now sites table.now }
    ensures { IfOk result (AreRacesAt before.now place) }
{
    let _log = before.candidate().log();
    if groups_of(alloc, before, begins, table, place)?.is_empty() {
        return Ok(List::new(alloc));
    }
    let no_classes = ClassTable::none(alloc);
    let groups = groups_of(alloc, before, begins, &no_classes, place)?;
    first_pairs(alloc, groups.as_slice())
}

/// How many races a candidate has. All events have the same site in `sites`.
fn count_races(
    rt: &(impl Threads + Sync),
    alloc: Global,
    before: &HappensBefore,
    sites: &[List<Site>],
) -> Result<u64, AllocError>
    requires { sites.now ≡ one_site_table before.now.log }
    ensures { IfOk result (IsRaceCount (execution before.now)) }
{
    let lines = races(rt, alloc, before, sites)?;
    let total = count_in(lines.as_slice());
    Ok(total)
}

/// The first of the `total` races of a candidate, at most `limit` of them, event by event.
fn collect_races(
    alloc: Global,
    before: &HappensBefore,
    begins: &Begins,
    table: &ClassTable,
    limit: usize,
    total: u64,
) -> Result<FirstRaces, AllocError>
    requires begins { HasBegins before.now begins.now }
    requires classes { HasClasses before.now table.now }
    requires sites { (sites : List (List Site)) × HasClassSites before.now sites table.now }
    requires total { IsRaceCount (execution before.now) total }
    ensures { IfOk result (AreFirstRaces (execution before.now) limit) }
{
    let candidate = before.candidate();
    let events = candidate.witness().order.len();
    let mut pairs = Vec::new(alloc);
    let mut place = 0usize;
    while place < events && pairs.len() < limit && (pairs.len() as u64) < total {
        let more = races_at(alloc, before, begins, table, place)?;
        pairs.extend_from_slice(more.as_slice())?;
        place += 1;
    }
    pairs.truncate(limit);
    Ok(FirstRaces {
        pairs: List::from_vec(pairs),
        total,
    })
}

/// The first races of a candidate, and how many there are. All events have the same site in `sites`.
fn first_races_by(
    rt: &(impl Threads + Sync),
    alloc: Global,
    before: &HappensBefore,
    sites: &[List<Site>],
    limit: usize,
) -> Result<FirstRaces, AllocError>
    requires { sites.now ≡ one_site_table before.now.log }
    ensures { IfOk result (AreFirstRaces (execution before.now) limit) }
{
    let total = count_races(rt, alloc, before, sites)?;
    let candidate = before.candidate();
    let begins = Begins::of(alloc, candidate)?;
    let table = ClassTable::of_candidate(alloc, candidate, sites)?;
    collect_races(alloc, before, &begins, &table, limit, total)
}

/// The first races of a candidate whose order agrees with happens-before, at most `limit` of them, and how many there
/// are. Races and their order are defined as for [`races`].
///
/// # Errors
///
/// Only if an allocation fails.
pub fn first_races(
    rt: &(impl Threads + Sync),
    alloc: Global,
    before: &HappensBefore,
    limit: usize,
) -> Result<FirstRaces, AllocError>
    ensures { IfOk result (AreFirstRaces (execution before.now) limit) }
{
    let sites = one_site(alloc, before.candidate().log())?;
    first_races_by(rt, alloc, before, sites.as_slice(), limit)
}
