//! The atomic writes of each range, in an order.
ghost use Rattle.std.specs.Prelude.{◌≡◌, ℕ, IfOk, OnOk};
ghost use Rattle.std.specs.List.{filter};
ghost use Rattle.std.specs.List.Sorted.{IsNonDecreasingBy};
ghost use Rattle.wm_event.specs.AtomicWrites.{AreAtomicWrites, IsWidthIndex, begins_atomic, begin_in};
ghost use Rattle.wm_event.specs.Writes.{AddsWrite, is_at, listed_from};
ghost use Rattle.wm_event.specs.declared.writes.ByteWrite.{ByteWrite};

use crate::event::{EventKey, Range};
use crate::log::Log;
use crate::writes::{ByteWrite, block};
use std::alloc::{AllocError, Global};
use wm_access::AccessWidth;

/// The atomic writes of one width in an order, by their first address.
#[derive(Drop)]
pub struct WidthIndex {
    entries: Vec<ByteWrite>,
}

/// The atomic writes of each range in an order.
#[derive(Drop)]
pub struct AtomicWrites {
    one: WidthIndex,
    two: WidthIndex,
    four: WidthIndex,
    eight: WidthIndex,
}

/// Adds an event of a log, if it is an atomic write of that width.
fn add_write(
    entries: &mut Vec<ByteWrite>,
    log: &Log,
    width: AccessWidth,
    key: EventKey,
    place: usize,
) -> Result<(), AllocError>
    ensures { OnOk result ((a : ℕ) → AddsWrite (begins_atomic log.now width a key) a place entries.old.items entries.new.items) }
{
    let Some(event) = log.event(key) else {
        return Ok(());
    };
    if event.is_atomic() && event.writes() && event.width.bytes() == width.bytes() {
        let address = u64::from(event.address);
        entries.push(ByteWrite { address, place })?;
    }
    Ok(())
}

/// The atomic writes of one width, in the order.
fn writes_of_width(
    alloc: Global,
    log: &Log,
    width: AccessWidth,
    order: &[EventKey],
) -> Result<Vec<ByteWrite>, AllocError>
    ensures { IfOk result (λ v. (a : ℕ) → filter (is_at a) v.items ≡ listed_from (begins_atomic log.now width a) a 0 order.now) }
{
    let mut entries = Vec::new(alloc);
    for (place, key) in order.iter().enumerate() {
        add_write(&mut entries, log, width, *key, place)?;
    }
    Ok(entries)
}

impl WidthIndex {
    /// The atomic writes of one width in an order.
    fn of_order(
        alloc: Global,
        log: &Log,
        width: AccessWidth,
        order: &[EventKey],
    ) -> Result<Self, AllocError>
        ensures { IfOk result (λ s. IsWidthIndex log.now width order.now s) }
    {
        let mut entries = writes_of_width(alloc, log, width, order)?;
        entries.sort_by_key(
            |write: &ByteWrite| -> u64
                ensures { result ≡ write.now.address }
            { write.address },
        )?;
        Ok(WidthIndex { entries })
    }

    /// The writes that begin at an address, in the order.
    fn at(&self, address: u64) -> &[ByteWrite]
        requires { IsNonDecreasingBy (λ (b : ByteWrite). b.address) self.now.entries.items }
        ensures { result.now ≡ filter (is_at address) self.now.entries.items }
    {
        block(self.entries.as_slice(), address)
    }
}

impl AtomicWrites {
    /// The atomic writes of each range in an order.
    pub fn of_order(alloc: Global, log: &Log, order: &[EventKey]) -> Result<Self, AllocError>
        ensures { IfOk result (λ w. AreAtomicWrites log.now order.now w) }
    {
        Ok(AtomicWrites {
            one: WidthIndex::of_order(alloc, log, AccessWidth::One, order)?,
            two: WidthIndex::of_order(alloc, log, AccessWidth::Two, order)?,
            four: WidthIndex::of_order(alloc, log, AccessWidth::Four, order)?,
            eight: WidthIndex::of_order(alloc, log, AccessWidth::Eight, order)?,
        })
    }

    /// The atomic writes of a range, in the order.
    pub fn of_range(&self, range: Range) -> &[ByteWrite]
        requires one { IsNonDecreasingBy (λ (b : ByteWrite). b.address) self.now.one.entries.items }
        requires two { IsNonDecreasingBy (λ (b : ByteWrite). b.address) self.now.two.entries.items }
        requires four { IsNonDecreasingBy (λ (b : ByteWrite). b.address) self.now.four.entries.items }
        requires eight { IsNonDecreasingBy (λ (b : ByteWrite). b.address) self.now.eight.entries.items }
        ensures { result.now ≡ filter (is_at range.address) (begin_in self.now range.width).entries.items }
    {
        let address = u64::from(range.address);
        match range.width {
            AccessWidth::One => self.one.at(address),
            AccessWidth::Two => self.two.at(address),
            AccessWidth::Four => self.four.at(address),
            AccessWidth::Eight => self.eight.at(address),
        }
    }
}
