//! The readers of an event, which in version 2 includes the writers of the bytes that it read.
ghost use Rattle.std.specs.Prelude.{◌≡◌, map};
ghost use Rattle.serde_json.specs.View.{view};
ghost use Rattle.wm_logfile.specs.Faults.{Gives, Faults};
ghost use Rattle.wm_logfile.specs.FirstFault as first_faults;
ghost use Rattle.wm_logfile.specs.Forms as forms;
ghost use Rattle.wm_logfile.specs.Grammar as grammar;
ghost use Rattle.wm_logfile.specs.Reading.{event_at, event_by_at, event_of, fields_at, fields_by_at, by_from, values_at, order_for, values_len, values_by_len, number_event_at, number_event_by_at};

use crate::fault::ReadFault;
use crate::fields::{kind_of, list_of, number_of, order_of, width_of};
use crate::items::ItemReader;
use crate::path::Path;
use crate::witness::event_writers_of;
use serde_json::Value;
use std::alloc::Global;
use wm_access::MemoryOrder;
use wm_event::{Event, EventId, EventKind};
use wm_list::List;

/// The items between the word of an event's kind and its values.
#[derive(Clone, Copy)]
struct EventParts<'a> {
    order: &'a Value,
    address: &'a Value,
    width: &'a Value,
}

/// The number of values at the end of an event of the kind.
fn value_count(kind: EventKind) -> usize
    ensures { result ≡ values_len kind }
{
    match kind {
        EventKind::Read | EventKind::Write => 1,
        EventKind::Update => 2,
    }
}

/// The ordering of an event of the kind. An update is SeqCst.
#[tactic(auto, unfolding(crate::specs::Grammar::order, crate::specs::Grammar::update_order))]
fn order_for(kind: EventKind, value: &Value, path: &Path) -> Result<MemoryOrder, ReadFault>
    ensures given { Gives (λ o. o) result (order_for kind (view value.now)) }
    ensures fault { Faults result (forms.first_fault (grammar.order_form kind) path.now (view value.now)) }
{
    let order = order_of(value, path)?;
    if kind == EventKind::Update && order == MemoryOrder::Unordered {
        return Err(ReadFault::Shape(path.copied()));
    }
    Ok(order)
}

/// What was read, and what was written.
fn values_of(kind: EventKind, values: &[Value], path: &Path) -> Result<(u64, u64), ReadFault>
    ensures given { Gives (λ p. (p.0, p.1)) result (values_at kind (map view values.now)) }
    ensures fault { Faults result (first_faults.values_fault kind path.now (map view values.now)) }
{
    match (kind, values) {
        (EventKind::Read, [value]) => {
            let read = number_of(value, u64::MAX, &path.child(4))?;
            Ok((read, 0))
        }
        (EventKind::Write, [value]) => {
            let written = number_of(value, u64::MAX, &path.child(4))?;
            Ok((0, written))
        }
        (EventKind::Update, [first, second]) => {
            let read = number_of(first, u64::MAX, &path.child(4))?;
            let written = number_of(second, u64::MAX, &path.child(5))?;
            Ok((read, written))
        }
        _ => Err(ReadFault::Shape(path.copied())),
    }
}

/// The event of the kind, by the items after its word.
fn event_of_parts(
    kind: EventKind,
    parts: &EventParts<'_>,
    values: &[Value],
    thread: u32,
    number: u32,
    path: &Path,
) -> Result<Event, ReadFault>
    ensures given { Gives (λ e. e) result (event_of thread number kind parts.now (map view values.now)) }
    ensures fault { Faults result (first_faults.parts_fault kind path.now parts.now (map view values.now)) }
{
    let order = order_for(kind, parts.order, &path.child(1))?;
    let address = number_of(parts.address, u32::MAX as u64, &path.child(2))? as u32;
    let width = width_of(parts.width, &path.child(3))?;
    let (read, written) = values_of(kind, values, path)?;
    Ok(Event {
        thread,
        number,
        kind,
        order,
        address,
        width,
        read,
        written,
    })
}

/// The event of these fields. A length that no kind has is reported before the kind.
#[tactic(auto, unfolding(crate::specs::Reading::fields_at))]
fn event_of_fields(
    fields: &[Value],
    thread: u32,
    number: u32,
    path: &Path,
) -> Result<Event, ReadFault>
    ensures given { Gives (λ e. e) result (fields_at thread number (map view fields.now)) }
    ensures fault { Faults result (forms.tagged_fault grammar.event_cases path.now (map view fields.now)) }
{
    let [tag, order, address, width, values @ ..] = fields else {
        return Err(ReadFault::Shape(path.copied()));
    };
    if values.len() != 1 && values.len() != 2 {
        return Err(ReadFault::Shape(path.copied()));
    }
    let kind = kind_of(tag, &path.child(0))?;
    if values.len() != value_count(kind) {
        return Err(ReadFault::Shape(path.copied()));
    }
    let parts = EventParts {
        order,
        address,
        width,
    };
    event_of_parts(kind, &parts, values, thread, number, path)
}

/// The event that this value spells at that place.
#[tactic(auto, unfolding(crate::specs::Grammar::event))]
fn event_of(value: &Value, thread: u32, number: u32, path: &Path) -> Result<Event, ReadFault>
    ensures given { Gives (λ e. e) result (event_at thread number (view value.now)) }
    ensures fault { Faults result (forms.first_fault grammar.event path.now (view value.now)) }
{
    let fields = list_of(value, path)?;
    event_of_fields(fields, thread, number, path)
}

/// Reads an event of a thread.
#[derive(Clone, Copy)]
pub(crate) struct EventReader {
    pub(crate) thread: u32,
}

impl ItemReader<Event> for EventReader {
    ghost reads = { λ r n d. number_event_at r.thread n d };

    ghost faults = { λ _ n path d. forms.numbered_fault (forms.first_fault grammar.event) n path d };

    fn read(
        &self,
        _alloc: Global,
        value: &Value,
        index: usize,
        path: &Path,
    ) -> Result<Event, ReadFault> {
        if index > u32::MAX as usize {
            return Err(ReadFault::Range(path.copied()));
        }
        event_of(value, self.thread, index as u32, path)
    }
}

/// The number of values and lists of writers at the end of an event of the kind in version 2.
fn value_by_count(kind: EventKind) -> usize
    ensures { result ≡ values_by_len kind }
{
    match kind {
        EventKind::Read => 2,
        EventKind::Write => 1,
        EventKind::Update => 3,
    }
}

/// The writers of the bytes that an event of the kind read, by the list after its values, which a write doesn't have.
fn writers_by(
    alloc: Global,
    kind: EventKind,
    lists: &[Value],
    path: &Path,
) -> Result<List<EventId>, ReadFault>
    ensures given { Gives (λ ws. ws) result (by_from kind (map view lists.now)) }
    ensures fault { Faults result (first_faults.by_fault kind path.now (map view lists.now)) }
{
    match (kind, lists) {
        (EventKind::Read, [by]) => event_writers_of(alloc, by, &path.child(5)),
        (EventKind::Update, [by]) => event_writers_of(alloc, by, &path.child(6)),
        (EventKind::Write, []) => Ok(List::new(alloc)),
        _ => Err(ReadFault::Shape(path.copied())),
    }
}

/// The event of these fields with the writers of the bytes that it read. A length that no kind has is reported before
/// the kind.
#[tactic(auto, unfolding(crate::specs::Reading::fields_by_at))]
fn event_by_of_fields(
    alloc: Global,
    fields: &[Value],
    thread: u32,
    number: u32,
    path: &Path,
) -> Result<(Event, List<EventId>), ReadFault>
    ensures given { Gives (λ p. (p.0, p.1)) result (fields_by_at thread number (map view fields.now)) }
    ensures fault { Faults result (forms.tagged_fault grammar.event_by_cases path.now (map view fields.now)) }
{
    let [tag, order, address, width, rest @ ..] = fields else {
        return Err(ReadFault::Shape(path.copied()));
    };
    if rest.is_empty() || rest.len() > 3 {
        return Err(ReadFault::Shape(path.copied()));
    }
    let kind = kind_of(tag, &path.child(0))?;
    if rest.len() != value_by_count(kind) {
        return Err(ReadFault::Shape(path.copied()));
    }
    let parts = EventParts {
        order,
        address,
        width,
    };
    let (values, lists) = rest.split_at(value_count(kind));
    let event = event_of_parts(kind, &parts, values, thread, number, path)?;
    let writers = writers_by(alloc, kind, lists, path)?;
    Ok((event, writers))
}

/// The event with its writers that this value spells at that place.
#[tactic(auto, unfolding(crate::specs::Grammar::event_by))]
fn event_by_of(
    alloc: Global,
    value: &Value,
    thread: u32,
    number: u32,
    path: &Path,
) -> Result<(Event, List<EventId>), ReadFault>
    ensures given { Gives (λ p. (p.0, p.1)) result (event_by_at thread number (view value.now)) }
    ensures fault { Faults result (forms.first_fault grammar.event_by path.now (view value.now)) }
{
    let fields = list_of(value, path)?;
    event_by_of_fields(alloc, fields, thread, number, path)
}

/// Reads an event of a thread with the writers of the bytes that it read.
#[derive(Clone, Copy)]
pub(crate) struct EventByReader {
    pub(crate) thread: u32,
}

impl ItemReader<(Event, List<EventId>)> for EventByReader {
    ghost reads = { λ r n d. number_event_by_at r.thread n d };

    ghost faults = { λ _ n path d. forms.numbered_fault (forms.first_fault grammar.event_by) n path d };

    fn read(
        &self,
        alloc: Global,
        value: &Value,
        index: usize,
        path: &Path,
    ) -> Result<(Event, List<EventId>), ReadFault> {
        if index > u32::MAX as usize {
            return Err(ReadFault::Range(path.copied()));
        }
        event_by_of(alloc, value, self.thread, index as u32, path)
    }
}
