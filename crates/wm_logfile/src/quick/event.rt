//! Quick reading of events and of the names of events.
ghost use Rattle.std.specs.Prelude.{Some, IfOk};
ghost use Rattle.wm_logfile.specs.Reading.{kind_at, order_at, order_for, width_at, key_at, writer_at, event_writers_at, number_event_at, number_event_by_at, event_at, event_by_at, key_from, keys_at, by_from};
ghost use Rattle.wm_logfile.specs.Taking.{Taken, TakenFront, TakenOn, TakenEvent, TakenValues};

use crate::quick::reader::Reader;
use crate::quick::{
    ItemTaker, TakeFault, close_list, open_list, take_list_with_room, take_number, take_text,
};
use crate::words::{kind_of_word, order_of_word, width_of_bytes};
use std::alloc::Global;
use wm_access::{AccessWidth, MemoryOrder};
use wm_event::{Event, EventId, EventKey, EventKind};
use wm_list::List;

/// Takes the word of an event's kind.
#[tactic(auto, using(crate::proofs::Taking::word_taken))]
fn take_kind(reader: &mut Reader<'_>) -> Result<EventKind, TakeFault>
    ensures { IfOk result (λ k. Taken 0 kind_at reader.old k reader.new) }
{
    let word = take_text(reader)?;
    match kind_of_word(word) {
        Some(kind) => Ok(kind),
        None => Err(TakeFault::Other),
    }
}

/// Takes the word of an ordering.
#[tactic(auto, using(crate::proofs::Taking::word_taken))]
fn take_order(reader: &mut Reader<'_>) -> Result<MemoryOrder, TakeFault>
    ensures { IfOk result (λ o. Taken 0 order_at reader.old o reader.new) }
{
    let word = take_text(reader)?;
    match order_of_word(word) {
        Some(order) => Ok(order),
        None => Err(TakeFault::Other),
    }
}

/// Takes the ordering of an event of the kind. An update is SeqCst.
#[tactic(auto, using(crate::proofs::TakingEvents::order_taken))]
fn take_order_for(kind: EventKind, reader: &mut Reader<'_>) -> Result<MemoryOrder, TakeFault>
    ensures { IfOk result (λ o. Taken 0 (order_for kind) reader.old o reader.new) }
{
    let order = take_order(reader)?;
    if kind == EventKind::Update && order == MemoryOrder::Unordered {
        return Err(TakeFault::Other);
    }
    Ok(order)
}

/// Takes the width of an access.
#[tactic(auto, using(crate::proofs::TakingEvents::width_taken))]
fn take_width(reader: &mut Reader<'_>) -> Result<AccessWidth, TakeFault>
    ensures { IfOk result (λ w. Taken 0 width_at reader.old w reader.new) }
{
    let bytes = take_number(reader, 8)?;
    match width_of_bytes(bytes) {
        Some(width) => Ok(width),
        None => Err(TakeFault::Other),
    }
}

/// Takes what was read, and what was written.
#[tactic(auto, using(crate::proofs::TakingEvents::read_taken, crate::proofs::TakingEvents::written_taken, crate::proofs::TakingEvents::updated_taken))]
fn take_values(kind: EventKind, reader: &mut Reader<'_>) -> Result<(u64, u64), TakeFault>
    ensures { IfOk result (λ p. TakenValues kind reader.old p.0 p.1 reader.new) }
{
    let first = take_number(reader, u64::MAX)?;
    match kind {
        EventKind::Read => Ok((first, 0)),
        EventKind::Write => Ok((0, first)),
        EventKind::Update => {
            let second = take_number(reader, u64::MAX)?;
            Ok((first, second))
        }
    }
}

/// Takes the items of an event up to its values.
#[tactic(auto, using(crate::proofs::TakingEvents::event_front_taken))]
fn take_event_front(reader: &mut Reader<'_>, thread: u32, number: u32) -> Result<Event, TakeFault>
    ensures { IfOk result (λ e. TakenEvent thread number reader.old e reader.new) }
{
    let kind = take_kind(reader)?;
    let order = take_order_for(kind, reader)?;
    let address = take_number(reader, u32::MAX as u64)? as u32;
    let width = take_width(reader)?;
    let (read, written) = take_values(kind, reader)?;
    Ok(Event {
        thread,
        number,
        kind,
        order,
        address,
        width,
        read,
        written,
    })
}

/// Takes an event.
#[tactic(auto, using(crate::proofs::TakingEvents::event_taken))]
fn take_event(reader: &mut Reader<'_>, thread: u32, number: u32) -> Result<Event, TakeFault>
    ensures { IfOk result (λ e. Taken 1 (event_at thread number) reader.old e reader.new) }
{
    open_list(reader)?;
    let event = take_event_front(reader, thread, number)?;
    close_list(reader)?;
    Ok(event)
}

/// Takes an event of a thread.
#[derive(Clone, Copy)]
pub(crate) struct EventTaker {
    pub(crate) thread: u32,
}

impl ItemTaker<Event> for EventTaker {
    ghost reads = { λ r n d. number_event_at r.thread n d };

    ghost levels = { λ _. 1 };

    fn take(
        &self,
        _alloc: Global,
        reader: &mut Reader<'_>,
        index: usize,
    ) -> Result<Event, TakeFault> {
        if index > u32::MAX as usize {
            return Err(TakeFault::Other);
        }
        take_event(reader, self.thread, index as u32)
    }
}

/// Takes the two numbers of an event's name.
#[tactic(auto, using(crate::proofs::TakingEvents::numbers_taken))]
fn take_key_numbers(reader: &mut Reader<'_>) -> Result<EventKey, TakeFault>
    ensures { IfOk result (λ k. TakenFront 0 key_from reader.old k reader.new) }
{
    let thread = take_number(reader, u32::MAX as u64)? as u32;
    let number = take_number(reader, u32::MAX as u64)? as u32;
    Ok(EventKey { thread, number })
}

/// Takes the name of an event.
#[tactic(auto, using(crate::proofs::TakingEvents::key_taken))]
fn take_key(reader: &mut Reader<'_>) -> Result<EventKey, TakeFault>
    ensures { IfOk result (λ k. Taken 1 key_at reader.old k reader.new) }
{
    open_list(reader)?;
    let key = take_key_numbers(reader)?;
    close_list(reader)?;
    Ok(key)
}

/// Takes the writer of a byte.
#[tactic(auto, using(crate::proofs::TakingEvents::empty_taken, crate::proofs::TakingEvents::named_taken))]
fn take_writer(reader: &mut Reader<'_>) -> Result<EventId, TakeFault>
    ensures { IfOk result (λ w. Taken 1 writer_at reader.old w reader.new) }
{
    if reader.take_empty_array() {
        return Ok(EventId::Init);
    }
    open_list(reader)?;
    let key = take_key_numbers(reader)?;
    close_list(reader)?;
    Ok(EventId::At(key))
}

/// Takes the name of an event in a list.
#[derive(Clone, Copy)]
struct KeyTaker;

impl ItemTaker<EventKey> for KeyTaker {
    ghost reads = { λ _ _ d. key_at d };

    ghost levels = { λ _. 1 };

    fn take(
        &self,
        _alloc: Global,
        reader: &mut Reader<'_>,
        _index: usize,
    ) -> Result<EventKey, TakeFault> {
        take_key(reader)
    }
}

/// Takes the writer of a byte in a list.
#[derive(Clone, Copy)]
struct WriterTaker;

impl ItemTaker<EventId> for WriterTaker {
    ghost reads = { λ _ _ d. writer_at d };

    ghost levels = { λ _. 1 };

    fn take(
        &self,
        _alloc: Global,
        reader: &mut Reader<'_>,
        _index: usize,
    ) -> Result<EventId, TakeFault> {
        take_writer(reader)
    }
}

/// An order of up to this number of names needs one allocation.
const ORDER_ROOM: usize = 64;

/// Takes the names in an order.
pub(crate) fn take_order_keys(
    alloc: Global,
    reader: &mut Reader<'_>,
) -> Result<List<EventKey>, TakeFault>
    ensures { IfOk result (λ ks. Taken 2 keys_at reader.old ks reader.new) }
{
    take_list_with_room(alloc, &KeyTaker, ORDER_ROOM, reader)
}

/// Takes the writers of the bytes of an event. Capacity for `room` of them is reserved at once.
pub(crate) fn take_event_writers(
    alloc: Global,
    room: usize,
    reader: &mut Reader<'_>,
) -> Result<List<EventId>, TakeFault>
    ensures { IfOk result (λ ws. Taken 2 event_writers_at reader.old ws reader.new) }
{
    take_list_with_room(alloc, &WriterTaker, room, reader)
}

/// Takes the writers after the values of an event of the kind, and the end of the event. A write has none.
#[tactic(auto, using(crate::proofs::TakingEvents::no_writers_taken, crate::proofs::TakingEvents::writers_taken))]
fn take_writers_by(
    alloc: Global,
    kind: EventKind,
    width: AccessWidth,
    reader: &mut Reader<'_>,
) -> Result<List<EventId>, TakeFault>
    ensures { IfOk result (λ ws. TakenOn 2 (by_from kind) reader.old ws reader.new) }
{
    if kind == EventKind::Write {
        close_list(reader)?;
        return Ok(List::new(alloc));
    }
    let writers = take_event_writers(alloc, width.bytes() as usize, reader)?;
    close_list(reader)?;
    Ok(writers)
}

/// Takes an event with the writers of the bytes that it read.
#[tactic(auto, using(crate::proofs::TakingEvents::event_by_taken))]
fn take_event_by(
    alloc: Global,
    reader: &mut Reader<'_>,
    thread: u32,
    number: u32,
) -> Result<(Event, List<EventId>), TakeFault>
    ensures { IfOk result (λ p. Taken 3 (event_by_at thread number) reader.old (p.0, p.1) reader.new) }
{
    open_list(reader)?;
    let event = take_event_front(reader, thread, number)?;
    let writers = take_writers_by(alloc, event.kind, event.width, reader)?;
    Ok((event, writers))
}

/// Takes an event of a thread with the writers of the bytes that it read.
#[derive(Clone, Copy)]
pub(crate) struct EventByTaker {
    pub(crate) thread: u32,
}

impl ItemTaker<(Event, List<EventId>)> for EventByTaker {
    ghost reads = { λ r n d. number_event_by_at r.thread n d };

    ghost levels = { λ _. 3 };

    fn take(
        &self,
        alloc: Global,
        reader: &mut Reader<'_>,
        index: usize,
    ) -> Result<(Event, List<EventId>), TakeFault> {
        if index > u32::MAX as usize {
            return Err(TakeFault::Other);
        }
        take_event_by(alloc, reader, self.thread, index as u32)
    }
}
