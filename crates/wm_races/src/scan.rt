//! All races of a candidate, block by block.
ghost use Rattle.std.specs.Prelude.{◌≤◌, ◌<◌, ◌+◌, ◌^◌, IfOk, OnOk, length};
ghost use Rattle.wm_event.specs.LoggedRun.{execution};
ghost use Rattle.wm_races.specs.Classes.{HasClassSites, HasClasses};
ghost use Rattle.wm_races.specs.Progress.{IsReportBelow};
ghost use Rattle.wm_races.specs.Report.{HasSites, IsRaceReport};
ghost use Rattle.wm_races.specs.Window.{HasBegins};

use crate::begins::Begins;
use crate::block::groups_from;
use crate::classes::ClassTable;
use crate::groups::groups_of;
use crate::report::Report;
use crate::site::{Site, SiteRace};
use std::alloc::{AllocError, Global};
use std::thread::Threads;
use wm_hb::HappensBefore;
use wm_list::List;

/// How many events are processed at a time at least.
const LEAST_BLOCK: usize = 512;

/// How many groups there is to be room for. The events that are processed at a time have no more, unless they are as few as
/// can be: to start the threads takes as long as the races of some hundred events.
const ROOM: usize = 1_048_576;

/// How many events are processed at a time.
fn block_size(table: &ClassTable) -> usize
    ensures { 0 < result }
{
    let most = table.most_groups().saturating_mul(8).max(1);
    LEAST_BLOCK.max(ROOM / most)
}

/// Up to this number of classes of a byte, the races of an event are found in less time than a thread takes to start.
const LIGHT: usize = 16;

/// Adds the races of the event at a place of the order.
fn add_event(
    alloc: Global,
    before: &HappensBefore,
    begins: &Begins,
    table: &ClassTable,
    sites: &[List<Site>],
    report: &mut Report,
    place: usize,
) -> Result<(), AllocError>
    requires sites { HasSites before.now.log sites.now }
    requires place { place < length before.now.witness.order }
    requires begins { HasBegins before.now begins.now }
    requires classes { HasClasses before.now table.now }
    requires class_sites { HasClassSites before.now sites.now table.now }
    requires report { IsReportBelow before.now sites.now place report.old }
    ensures { OnOk result (IsReportBelow before.now sites.now (place + 1) report.new) }
{
    let _log = before.candidate().log();
    let groups = groups_of(alloc, before, begins, table, place)?;
    report.add_all(sites, groups.as_slice())?;
    Ok(())
}

/// Adds the races of the events from one place of the order up to another, one event after the other.
fn add_in_turn(
    alloc: Global,
    before: &HappensBefore,
    begins: &Begins,
    table: &ClassTable,
    sites: &[List<Site>],
    report: &mut Report,
    start: usize,
    count: usize,
) -> Result<(), AllocError>
    requires sites { HasSites before.now.log sites.now }
    requires inside { start + count ≤ length before.now.witness.order }
    requires fits { start + count < 2 ^ 64 }
    requires begins { HasBegins before.now begins.now }
    requires classes { HasClasses before.now table.now }
    requires class_sites { HasClassSites before.now sites.now table.now }
    requires report { IsReportBelow before.now sites.now start report.old }
    ensures { OnOk result (IsReportBelow before.now sites.now (start + count) report.new) }
{
    for index in 0..count {
        add_event(alloc, before, begins, table, sites, report, start + index)?;
    }
    Ok(())
}

/// Adds the races of the events from one place of the order up to another. They are found in parallel.
fn add_block(
    rt: &(impl Threads + Sync),
    alloc: Global,
    before: &HappensBefore,
    begins: &Begins,
    table: &ClassTable,
    sites: &[List<Site>],
    report: &mut Report,
    start: usize,
    count: usize,
) -> Result<(), AllocError>
    requires sites { HasSites before.now.log sites.now }
    requires inside { start + count ≤ length before.now.witness.order }
    requires fits { start + count < 2 ^ 64 }
    requires begins { HasBegins before.now begins.now }
    requires classes { HasClasses before.now table.now }
    requires class_sites { HasClassSites before.now sites.now table.now }
    requires report { IsReportBelow before.now sites.now start report.old }
    ensures { OnOk result (IsReportBelow before.now sites.now (start + count) report.new) }
{
    let _log = before.candidate().log();
    let lists = groups_from(rt, alloc, before, begins, table, start, count)?;
    for groups in lists.as_slice() {
        report.add_all(sites, groups.as_slice())?;
    }
    Ok(())
}

/// Adds the races of the events from one place of the order up to another.
fn add_events(
    rt: &(impl Threads + Sync),
    alloc: Global,
    before: &HappensBefore,
    begins: &Begins,
    table: &ClassTable,
    sites: &[List<Site>],
    report: &mut Report,
    start: usize,
    count: usize,
) -> Result<(), AllocError>
    requires sites { HasSites before.now.log sites.now }
    requires inside { start + count ≤ length before.now.witness.order }
    requires fits { start + count < 2 ^ 64 }
    requires begins { HasBegins before.now begins.now }
    requires classes { HasClasses before.now table.now }
    requires class_sites { HasClassSites before.now sites.now table.now }
    requires report { IsReportBelow before.now sites.now start report.old }
    ensures { OnOk result (IsReportBelow before.now sites.now (start + count) report.new) }
{
    if table.most_groups() <= LIGHT {
        add_in_turn(alloc, before, begins, table, sites, report, start, count)
    } else {
        add_block(
            rt, alloc, before, begins, table, sites, report, start, count,
        )
    }
}

/// The races of a candidate, by the sites of their events. The first bytes of its writes and the classes of its bytes are
/// given.
fn report_races(
    rt: &(impl Threads + Sync),
    alloc: Global,
    before: &HappensBefore,
    begins: &Begins,
    table: &ClassTable,
    sites: &[List<Site>],
) -> Result<List<SiteRace>, AllocError>
    requires sites { HasSites before.now.log sites.now }
    requires begins { HasBegins before.now begins.now }
    requires classes { HasClasses before.now table.now }
    requires class_sites { HasClassSites before.now sites.now table.now }
    ensures { IfOk result (IsRaceReport (execution before.now) sites.now) }
{
    let candidate = before.candidate();
    let _log = candidate.log();
    let events = candidate.witness().order.len();
    let block = block_size(table);
    let mut report = Report::new(alloc);
    let mut start = 0usize;
    while start < events {
        let count = block.min(events - start);
        add_events(
            rt,
            alloc,
            before,
            begins,
            table,
            sites,
            &mut report,
            start,
            count,
        )?;
        start += count;
    }
    Ok(report.into_lines())
}

/// The data races of a candidate whose order agrees with happens-before, by the sites of their events. `sites` has, for
/// each thread, a list with a site for each of its events.
///
/// Two events race if they overlap, at least one writes, at least one is plain or their ranges differ, and neither
/// happens before the other. There is a line for each two sites with a race between their events, with the first such
/// pair and the number of pairs. The pairs are in the order of the event's place, then of the first byte that both
/// access, then of the write's place; the lines are in the order of their first pairs. The result doesn't depend on how
/// the work is divided.
///
/// # Errors
///
/// Only if an allocation fails.
pub fn races(
    rt: &(impl Threads + Sync),
    alloc: Global,
    before: &HappensBefore,
    sites: &[List<Site>],
) -> Result<List<SiteRace>, AllocError>
    requires { HasSites before.now.log sites.now }
    ensures { IfOk result (IsRaceReport (execution before.now) sites.now) }
{
    let candidate = before.candidate();
    let begins = Begins::of(alloc, candidate)?;
    let table = ClassTable::of_candidate(alloc, candidate, sites)?;
    report_races(rt, alloc, before, &begins, &table, sites)
}
