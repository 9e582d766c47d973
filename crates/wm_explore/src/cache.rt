//! What threads were seen to do after some events, so that they need not be run again.
ghost use Rattle.std.specs.Prelude.{◌≡◌, List, Some, true, IfOk, IfSome, OnOk, slice_get};
ghost use Rattle.wm_ast.specs.declared.module.Module.{Module};
ghost use Rattle.wm_event.specs.Limits.{max_steps};
ghost use Rattle.wm_event.specs.declared.log.Start.{Start};
ghost use Rattle.wm_explore.specs.Cache.{IsEntryOf, Recalls, RecallsOf};
ghost use Rattle.wm_explore.specs.Moved.{IsMovedBy};
ghost use Rattle.wm_replay.specs.Positions.{HasFollowed, IsFollowed};

use crate::moved::Moved;
use std::alloc::{AllocError, Global};
use wm_event::{Event, ThreadLog};
use wm_list::List;
use wm_replay::Followed;

/// How many bits of a hash give the place of an entry.
const PLACE_BITS: u32 = 9;

/// How many entries are kept at once.
const PLACES: usize = 1 << PLACE_BITS;

/// The most events of an entry: a thread with more of them is run again, which takes less memory.
const MOST_EVENTS: usize = 256;

/// What a thread does after some events.
#[derive(Drop)]
struct Entry<'m> {
    events: List<Event>,
    moved: Moved,
    /// The thread after these events.
    followed: Followed<'m>,
}

/// What threads were seen to do after some events. An entry gives way to a later one with the same place.
#[derive(Drop)]
pub(crate) struct Cache<'m> {
    entries: Vec<Option<Box<Entry<'m>>>>,
}

/// Whether these are the same events, in the same order.
fn same_events(events: &[Event], others: &[Event]) -> bool
    ensures { result ≡ true → events.now ≡ others.now }
{
    if events.len() != others.len() {
        return false;
    }
    for (index, event) in events.iter().enumerate() {
        if *event != others[index] {
            return false;
        }
    }
    true
}

/// The place of a thread with these events: the highest bits of a hash of what they read.
fn place_of(number: usize, events: &[Event]) -> usize {
    let mut hash = number as u64;
    for event in events {
        // The multiplier is odd, and 2^64 divided by the golden ratio.
        hash = (hash ^ event.read)
            .wrapping_add(1)
            .wrapping_mul(0x9e37_79b9_7f4a_7c15);
    }
    (hash >> (64 - PLACE_BITS)) as usize
}

impl<'m> Entry<'m> {
    /// Whether it is of the thread of this number, after these events.
    fn is_of(&self, number: usize, events: &[Event]) -> bool
        ensures number { result ≡ true → self.now.moved.number ≡ number }
        ensures events { result ≡ true → self.now.events ≡ events.now }
    {
        if self.moved.number != number {
            return false;
        }
        same_events(self.events.as_slice(), events)
    }
}

impl<'m> Cache<'m> {
    /// Nothing was seen.
    pub(crate) fn new(alloc: Global) -> Result<Self, AllocError>
        ensures { IfOk result (λ cache. (m : Module) (starts : List Start) → Recalls m starts cache) }
    {
        let mut entries = Vec::with_capacity(alloc, PLACES)?;
        for _ in 0..PLACES {
            entries.push(None)?;
        }
        Ok(Cache { entries })
    }

    /// The entry of a thread with these events, if it was kept.
    fn entry_of(&self, number: usize, events: &[Event]) -> Option<&Box<Entry<'m>>>
        ensures { IfSome result (λ entry. IsEntryOf number events.now self.now entry.now) }
    {
        let Some(Some(entry)) = self.entries.get(place_of(number, events)) else {
            return None;
        };
        if !entry.is_of(number, events) {
            return None;
        }
        Some(entry)
    }

    /// What a thread does that has made the events of its log, if that was kept.
    pub(crate) fn find(&self, number: usize, stated: &ThreadLog) -> Option<Moved>
        ensures { (m : Module) → RecallsOf m number stated.now.start self.now → IfSome result (IsMovedBy m number stated.now) }
    {
        let entry = self.entry_of(number, stated.events.as_slice())?;
        Some(entry.moved)
    }

    /// A copy of the thread that has made the events of its log but the last, if it was kept.
    pub(crate) fn before(
        &self,
        alloc: Global,
        number: usize,
        stated: &ThreadLog,
    ) -> Result<Option<Followed<'m>>, AllocError>
        ensures { IfOk result (λ found. (m : Module) → RecallsOf m number stated.now.start self.now →
            IfSome found (HasFollowed m number stated.now max_steps)) }
    {
        let events = stated.events.as_slice();
        if events.is_empty() {
            return Ok(None);
        }
        match self.entry_of(number, &events[..events.len() - 1]) {
            None => Ok(None),
            Some(entry) => Ok(Some(entry.followed.copy(alloc)?)),
        }
    }

    /// Keeps what a thread does that has made the events of its log, by which it was run, if there are at most
    /// [`MOST_EVENTS`].
    pub(crate) fn keep(
        &mut self,
        alloc: Global,
        stated: &ThreadLog,
        moved: &Moved,
        followed: Followed<'m>,
    ) -> Result<(), AllocError>
        ensures { OnOk result ((m : Module) (starts : List Start) → Recalls m starts self.old →
            slice_get starts moved.now.number ≡ Some stated.now.start → IsMovedBy m moved.now.number stated.now moved.now →
            IsFollowed m moved.now.number stated.now max_steps followed.entry → Recalls m starts self.new) }
    {
        let events = stated.events.as_slice();
        if events.len() > MOST_EVENTS {
            return Ok(());
        }
        let entry = Box::new(
            alloc,
            Entry {
                events: List::from_vec(events.to_vec(alloc)?),
                moved: *moved,
                followed,
            },
        )?;
        if let Some(slot) = self.entries.get_mut(place_of(moved.number, events)) {
            *slot = Some(entry);
        }
        Ok(())
    }
}
