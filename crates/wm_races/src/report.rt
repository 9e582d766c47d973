//! Groups of racing pairs, gathered by the sites of their events.
ghost use Rattle.std.specs.Prelude.{◌≡◌, ◌+◌, ◌<◌, ◌^◌, [], List, OnOk, IsTrue, length, sum_by};
ghost use Rattle.wm_races.specs.Gathering.{AddsGroup, CountsIn, HasGroupSites, HasSitesOf, IsGathered, ReportsMore, count_of};
ghost use Rattle.wm_races.specs.Groups.{size_of};

use crate::group::Group;
use crate::site::{Site, SitePair, SiteRace, site_of};
use indexmap::IndexSet;
use std::alloc::{AllocError, Global};
use wm_list::List;

/// The lines of a report with an index of their sites.
#[derive(Drop)]
pub(crate) struct Report {
    lines: List<SiteRace>,
    /// The sites of each line.
    index: IndexSet<SitePair>,
    /// The line that counted the group before.
    last: usize,
    /// For each line the one that came after it before: where a loop races, it mostly comes again.
    followers: List<usize>,
}

impl Report {
    /// The empty report.
    pub fn new(alloc: Global) -> Self
        ensures gathered { IsGathered result }
        ensures empty { result.lines ≡ [] }
    {
        Report {
            lines: List::new(alloc),
            index: IndexSet::new(alloc),
            last: 0,
            followers: List::new(alloc),
        }
    }

    /// The lines.
    pub fn into_lines(self) -> List<SiteRace>
        ensures { result ≡ self.lines }
    {
        self.lines
    }

    /// Whether a line is the line of two sites.
    fn is_line_of(&self, line: usize, sites: SitePair) -> bool
        ensures { IsTrue result → HasSitesOf self.now.lines line sites }
    {
        match self.lines.get(line) {
            Some(race) => race.site == sites.site && race.other == sites.other,
            None => false,
        }
    }

    /// Counts `more` further pairs in a line.
    fn count(&mut self, line: usize, more: u64)
        requires line { line < length self.old.lines }
        requires room { sum_by count_of self.old.lines + more < 2 ^ 64 }
        ensures lines { CountsIn line more self.old.lines self.new.lines }
        ensures index { self.new.index ≡ self.old.index }
    {
        if let Some(race) = self.lines.get(line) {
            let race = SiteRace {
                count: race.count + more,
                ..*race
            };
            self.lines.set(line, race);
        }
    }

    /// Adds a group of pairs between two sites.
    fn add(&mut self, sites: SitePair, group: Group) -> Result<(), AllocError>
        requires gathered { IsGathered self.old }
        requires room { sum_by count_of self.old.lines + group.count < 2 ^ 64 }
        ensures gathered { OnOk result (IsGathered self.new) }
        ensures adds { OnOk result (AddsGroup sites group self.old.lines self.new.lines) }
    {
        if self.is_line_of(self.last, sites) {
            self.count(self.last, group.count);
            return Ok(());
        }
        let (line, is_new) = self.index.insert_full(sites)?;
        self.last = line;
        if is_new {
            self.lines.push(SiteRace {
                site: sites.site,
                other: sites.other,
                event: group.pair.event,
                write: group.pair.write,
                count: group.count,
            })?;
        } else {
            self.count(line, group.count);
        }
        Ok(())
    }

    /// Goes on to the line that came after the last one before, if it is the line of two sites. Only the time depends on
    /// it.
    fn follow(&mut self, sites: SitePair)
        requires gathered { IsGathered self.old }
        ensures gathered { IsGathered self.new }
        ensures lines { self.new.lines ≡ self.old.lines }
    {
        let next = self.followers.get(self.last).copied().unwrap_or(0);
        if !self.is_line_of(self.last, sites) && self.is_line_of(next, sites) {
            self.last = next;
        }
    }

    /// Notes that the last line came after another one. Only the time depends on it.
    fn note_follower(&mut self, line: usize) -> Result<(), AllocError>
        requires gathered { IsGathered self.old }
        ensures gathered { IsGathered self.new }
        ensures lines { self.new.lines ≡ self.old.lines }
    {
        if self.followers.len() < self.lines.len() {
            self.followers.push(0)?;
        }
        if line < self.followers.len() {
            self.followers.set(line, self.last);
        }
        Ok(())
    }

    /// Adds a group of pairs between two sites, whose line may be the one that came after the last one before.
    fn add_next(&mut self, sites: SitePair, group: Group) -> Result<(), AllocError>
        requires gathered { IsGathered self.old }
        requires room { sum_by count_of self.old.lines + group.count < 2 ^ 64 }
        ensures gathered { OnOk result (IsGathered self.new) }
        ensures adds { OnOk result (AddsGroup sites group self.old.lines self.new.lines) }
    {
        let last = self.last;
        self.follow(sites);
        self.add(sites, group)?;
        self.note_follower(last)
    }

    /// Adds groups in their order.
    pub fn add_all(&mut self, sites: &[List<Site>], groups: &[Group]) -> Result<(), AllocError>
        requires gathered { IsGathered self.old }
        requires room { sum_by count_of self.old.lines + sum_by size_of groups.now < 2 ^ 64 }
        requires sites { HasGroupSites sites.now groups.now }
        ensures gathered { OnOk result (IsGathered self.new) }
        ensures report { OnOk result (ReportsMore sites.now groups.now self.old.lines self.new.lines) }
        ensures total { OnOk result (sum_by count_of self.new.lines ≡ sum_by count_of self.old.lines + sum_by size_of groups.now) }
    {
        for group in groups {
            let between = SitePair {
                site: site_of(sites, group.pair.event),
                other: site_of(sites, group.pair.write),
            };
            self.add_next(between, *group)?;
        }
        Ok(())
    }
}
