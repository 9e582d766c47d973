//! The table of events.

use crate::named_site::{NamedSites, ROW_END};
use itoa::Buffer;
use std::alloc::{AllocError, Global};
use std::fmt;
use wm_event::{Candidate, Event, EventId, EventKey};
use wm_hb::{WriterRun, writer_runs};
use wm_list::List;
use wm_phrase::{EventPhrase, ValueForm, WritersPhrase, write_id, write_key};

/// An event in a table: its place in the order, its name, what it does, and who wrote what it read.
#[derive(Clone, Copy)]
struct EventRow<'a> {
    /// From 1, since Init is at 0.
    place: usize,
    event: &'a Event,
    form: ValueForm,
    /// The writer of all bytes that it read, if they have the same one.
    writer: Option<EventId>,
    /// The bytes that it read, by their writers, if they have different ones.
    runs: &'a [WriterRun],
}

/// What fills a place up to the width of its column.
const PADDING: &str = "       ";

/// Writes a place, to the right in its column.
fn write_place<W: fmt::Write>(out: &mut W, place: usize) -> fmt::Result {
    let mut digits = Buffer::new();
    let number = digits.format(place);
    out.write_str(PADDING.get(number.len()..).unwrap_or(""))?;
    out.write_str(number)
}

impl EventRow<'_> {
    /// Writes the row, without its end.
    fn write_to<W: fmt::Write>(&self, out: &mut W) -> fmt::Result {
        let EventRow {
            place,
            event,
            form,
            writer,
            runs,
        } = *self;
        write_place(out, place)?;
        out.write_str("  ")?;
        write_key(out, event.key())?;
        out.write_str("  ")?;
        EventPhrase { event, form }.write_to(out)?;
        if let Some(writer) = writer {
            out.write_str("; read from ")?;
            return write_id(out, writer);
        }
        if runs.is_empty() {
            return Ok(());
        }
        out.write_str("; read ")?;
        WritersPhrase(runs).write_to(out)
    }
}

/// The head of a table of events.
const HEAD: &str =
    "  (T.N is event N of thread T, both from 0; init writes the initial memory)\n  place  event\n";

/// The row of Init.
const INIT_ROW: &str = "      0  init  writes the initial memory\n";

/// Whether the writers of a read's bytes are different events.
fn is_mixed(writers: &[EventId]) -> bool {
    match writers {
        [first, rest @ ..] => rest
            .iter()
            .any(|writer: &EventId| -> bool { writer != first }),
        [] => false,
    }
}

/// The addresses of the reads whose bytes come from different writers, sorted.
#[derive(Drop)]
struct MixedAddresses {
    sorted: Vec<u64>,
}

impl MixedAddresses {
    /// The mixed addresses of these events.
    fn of(alloc: Global, candidate: &Candidate, ids: &[EventId]) -> Result<Self, AllocError> {
        let mut sorted = Vec::new(alloc);
        for id in ids {
            let (EventId::At(key), Some(event)) = (*id, candidate.event(*id)) else {
                continue;
            };
            if !is_mixed(candidate.writers(key)) {
                continue;
            }
            for byte in 0..event.width.bytes() {
                sorted.push(u64::from(event.address).saturating_add(u64::from(byte)))?;
            }
        }
        sorted.sort_unstable();
        Ok(MixedAddresses { sorted })
    }

    /// How the values of an event are shown: in hex too if it accesses one of the addresses.
    fn form_of(&self, event: &Event) -> ValueForm {
        if self.sorted.is_empty() {
            return ValueForm::Decimal;
        }
        for byte in 0..event.width.bytes() {
            let address = u64::from(event.address).saturating_add(u64::from(byte));
            if self.sorted.binary_search(&address).is_ok() {
                return ValueForm::WithHex;
            }
        }
        ValueForm::Decimal
    }
}

/// What tables of events are made from.
#[derive(Drop)]
pub(crate) struct EventTables<'a> {
    pub alloc: Global,
    pub candidate: &'a Candidate<'a>,
    /// The instructions that make the events; None if no module is given.
    sites: Option<NamedSites<'a>>,
}

impl<'a> EventTables<'a> {
    /// Tables of a candidate's events, without the instructions that make them.
    pub(crate) fn without_code(alloc: Global, candidate: &'a Candidate<'a>) -> Self {
        EventTables {
            alloc,
            candidate,
            sites: None,
        }
    }

    /// Tables of a candidate's events, with the instructions that make them.
    pub(crate) fn over(alloc: Global, candidate: &'a Candidate<'a>, sites: NamedSites<'a>) -> Self {
        EventTables {
            alloc,
            candidate,
            sites: Some(sites),
        }
    }

    /// Adds the row of an event that exists.
    fn add_row(
        &mut self,
        text: &mut String,
        key: EventKey,
        mixed: &MixedAddresses,
    ) -> Result<(), AllocError> {
        let id = EventId::At(key);
        let (Some(event), Some(place)) = (self.candidate.event(id), self.candidate.place(id)) else {
            return Ok(());
        };
        let writers = self.candidate.writers(key);
        let is_mixed = is_mixed(writers);
        let writer = if is_mixed {
            None
        } else {
            writers.first().copied()
        };
        let runs = if is_mixed {
            writer_runs(self.alloc, self.candidate, key)?
        } else {
            List::new(self.alloc)
        };
        let row = EventRow {
            place: place.saturating_add(1),
            event,
            form: mixed.form_of(event),
            writer,
            runs: runs.as_slice(),
        };
        self.write_row(text, row)
    }

    /// Writes a row with its end.
    fn write_row(&mut self, text: &mut String, row: EventRow) -> Result<(), AllocError> {
        if row.write_to(text).is_err() {
            return Err(AllocError);
        }
        match &mut self.sites {
            Some(sites) => text.push_str(sites.row_end(row.event.key())?)?,
            None => text.push_str(ROW_END)?,
        }
        Ok(())
    }

    /// Adds the rows of these events.
    fn add_rows(
        &mut self,
        text: &mut String,
        ids: &[EventId],
        mixed: &MixedAddresses,
    ) -> Result<(), AllocError> {
        text.push_str(HEAD)?;
        for id in ids {
            match *id {
                EventId::Init => text.push_str(INIT_ROW)?,
                EventId::At(key) => self.add_row(text, key, mixed)?,
            }
        }
        Ok(())
    }

    /// Adds a table of these events.
    ///
    /// # Errors
    ///
    /// Only if an allocation fails.
    pub(crate) fn add(&mut self, text: &mut String, ids: &[EventId]) -> Result<(), AllocError> {
        if ids.is_empty() {
            return Ok(text.push_str("  none\n")?);
        }
        let mixed = MixedAddresses::of(self.alloc, self.candidate, ids)?;
        self.add_rows(text, ids, &mixed)
    }
}
