//! Instructions with the names of their functions.

use crate::function_name::{BriefName, FunctionName, FunctionNames};
use std::alloc::{AllocError, Global};
use std::fmt;
use wm_event::{EventId, EventKey, Log};
use wm_list::List;
use wm_machine::CodePosition;
use wm_races::Site;
use wm_sites::{ModuleCode, RunSites};

/// An instruction with the name of its function.
#[derive(Clone, Copy)]
pub(crate) struct NamedSite<'a> {
    site: Site,
    function: FunctionName<'a>,
}

impl fmt::Display for NamedSite<'_> {
    fn fmt<W: fmt::Write>(&self, f: &mut fmt::Formatter<W>) -> fmt::Result {
        let Site {
            instruction,
            offset,
            ..
        } = self.site;
        let function = BriefName(self.function);
        write!(
            f,
            "at 0x{offset:x}, instruction {instruction} of {function}"
        )
    }
}

/// How the row of an event ends whose instruction is not known.
pub(crate) const ROW_END: &str = "\n";

/// How many ends of rows are kept.
const SLOTS: usize = 256;

/// How the rows of a thread's events end that are made at a position: with the instruction there.
#[derive(Drop)]
struct RowEnd {
    thread: u32,
    position: CodePosition,
    text: String,
}

/// The ends of rows that were written last, each in a slot that its thread and position decide: most threads make their
/// events at few instructions.
#[derive(Drop)]
struct RecentEnds {
    slots: Vec<Option<RowEnd>>,
}

/// The slot of the end for a position of a thread. The factors are primes, so that neighbours have different slots.
fn slot_of(thread: u32, position: CodePosition) -> usize {
    let CodePosition { func, block, at } = position;
    (thread as usize)
        .wrapping_mul(61)
        .wrapping_add(func.wrapping_mul(31))
        .wrapping_add(block.wrapping_mul(7))
        .wrapping_add(at)
        % SLOTS
}

impl RecentEnds {
    /// No ends.
    fn none(alloc: Global) -> Result<Self, AllocError> {
        let mut slots = Vec::new(alloc);
        for _slot in 0..SLOTS {
            slots.push(None)?;
        }
        Ok(RecentEnds { slots })
    }

    /// How the rows of a thread's events at a position end, if that is kept.
    fn get(&self, thread: u32, position: CodePosition) -> Option<&str> {
        match self.slots.get(slot_of(thread, position)) {
            Some(Some(kept)) if kept.thread == thread && kept.position == position => {
                Some(kept.text.as_str())
            }
            _ => None,
        }
    }

    /// Keeps an end in its slot.
    fn keep(&mut self, end: RowEnd) {
        if let Some(slot) = self.slots.get_mut(slot_of(end.thread, end.position)) {
            *slot = Some(end);
        }
    }
}

/// The instructions that make the events of a log, with the names of their functions.
pub(crate) struct NamedSites<'a> {
    alloc: Global,
    log: &'a Log,
    sites: RunSites<'a>,
    names: FunctionNames<'a>,
    recent: RecentEnds,
}

// By hand, since a derived drop is written out wherever such a value goes out of scope.
impl<'a> Drop for NamedSites<'a> {
    fn drop(self) {
        let NamedSites {
            alloc: _alloc,
            log: _log,
            sites: _sites,
            names: _names,
            recent: _recent,
        } = self;
    }
}

impl<'a> NamedSites<'a> {
    /// The instructions at these positions, at which the threads of a log make its events.
    ///
    /// # Errors
    ///
    /// Only if an allocation fails.
    pub(crate) fn at(
        alloc: Global,
        code: ModuleCode<'a>,
        log: &'a Log,
        positions: Vec<List<CodePosition>>,
    ) -> Result<Self, AllocError> {
        let sites = RunSites::at(alloc, code, positions)?;
        Ok(NamedSites {
            alloc,
            log,
            sites,
            names: FunctionNames::of(alloc, code)?,
            recent: RecentEnds::none(alloc)?,
        })
    }

    /// The position at which an event is made; None if its thread doesn't make it.
    fn position(&self, key: EventKey) -> Option<CodePosition> {
        let thread = self.sites.positions.get(key.thread as usize)?;
        thread.get(key.number as usize).copied()
    }

    /// The instruction that makes an event; None if its thread doesn't make it.
    ///
    /// # Errors
    ///
    /// Only if an allocation fails.
    fn site(&mut self, key: EventKey) -> Result<Option<NamedSite<'_>>, AllocError> {
        let Some(thread) = self.log.threads().get(key.thread as usize) else {
            return Ok(None);
        };
        let Some(site) = self.sites.site(key)? else {
            return Ok(None);
        };
        let start = thread.start.name.as_str();
        let function = self.names.name(start, site.function as usize);
        Ok(Some(NamedSite { site, function }))
    }

    /// How the row of an event ends, as `; at 0x2e, instruction 2 of "a"` and a newline; only with the newline if its
    /// thread doesn't make it.
    ///
    /// # Errors
    ///
    /// Only if an allocation fails.
    pub(crate) fn row_end(&mut self, key: EventKey) -> Result<&str, AllocError> {
        let alloc = self.alloc;
        let Some(position) = self.position(key) else {
            return Ok(ROW_END);
        };
        if self.recent.get(key.thread, position).is_none() {
            let text = match self.site(key)? {
                Some(site) => format!(in alloc; "; {site}{ROW_END}")?,
                None => String::from_str(alloc, ROW_END)?,
            };
            self.recent.keep(RowEnd {
                thread: key.thread,
                position,
                text,
            });
        }
        Ok(self.recent.get(key.thread, position).unwrap_or(ROW_END))
    }

    /// The instruction that makes an event, as `at 0x2e, instruction 2 of "a"`; empty if its thread doesn't make it.
    fn place(&mut self, key: EventKey) -> Result<String, AllocError> {
        let alloc = self.alloc;
        match self.site(key)? {
            Some(site) => format!(in alloc; "{site}"),
            None => Ok(String::new(alloc)),
        }
    }
}

/// For each of these events of a log, the instruction that makes it, as `at 0x2e, instruction 2 of "a"`. The string is
/// empty if its thread doesn't make the event, or for Init.
///
/// # Errors
///
/// Only if an allocation fails.
pub(crate) fn event_places(
    alloc: Global,
    sites: &mut NamedSites,
    ids: &[EventId],
) -> Result<Vec<String>, AllocError> {
    let mut places = Vec::new(alloc);
    for id in ids {
        let place = match *id {
            EventId::Init => String::new(alloc),
            EventId::At(key) => sites.place(key)?,
        };
        places.push(place)?;
    }
    Ok(places)
}
