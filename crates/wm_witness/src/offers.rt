//! The writes of a log by what they leave, and the ranges that are written only as a whole.
ghost use Rattle.std.specs.Prelude.{◌≡◌, ◌<◌, ◌≤◌, ◌+◌, All, IfOk, IsTrue, OnOk, drop, leb, length, ltb, take};
ghost use Rattle.std.specs.List.{Contains, filter};
ghost use Rattle.std.specs.List.Sorted.{IsNonDecreasingBy, IsPartitionPoint};
ghost use Rattle.wm_event.specs.LoggedRun.{execution};
ghost use Rattle.wm_event.specs.Rules.{IsTearFreeLike};
ghost use Rattle.wm_witness.specs.Offers.{AreOffers, IsFiled, IsWhole, is_filed, number_of as spec_number_of};
ghost use Rattle.wm_witness.specs.declared.offers.Offer.{Offer};

use crate::tearing::{is_like, is_tear_free};
use std::alloc::{AllocError, Global};
use wm_event::{Candidate, Event, EventId, EventKey, Range};

/// A write, filed under a number that its address and its value determine.
#[derive(Clone, Copy)]
pub(crate) struct Offer {
    pub number: u64,
    pub writer: EventKey,
}

/// The writes of a log by what they leave.
#[derive(Drop)]
pub(crate) struct Offers {
    /// All writes, by their numbers.
    pub writes: Vec<Offer>,
    /// Reads whose ranges are written only as a whole, by the codes of the ranges.
    pub wholes: Vec<Event>,
}

/// The number under which a write of a value from an address on is filed. Others may have the same.
fn number_of(address: u32, value: u64) -> u64
    ensures { result ≡ spec_number_of address value }
{
    u64::from(address) * 0x8000_0000 + value / 0x1_0000_0000 + value % 0x1_0000_0000
}

/// Files an event of the log, if it writes.
fn file(offers: &mut Vec<Offer>, start: &Candidate, key: EventKey) -> Result<(), AllocError>
    ensures kept { OnOk result ((offer : Offer) → Contains offers.old.items offer → Contains offers.new.items offer) }
    ensures filed { OnOk result (IsFiled start.now.log offers.new.items key) }
{
    let _log = start.log();
    let Some(event) = start.event(EventId::At(key)) else {
        return Ok(());
    };
    if event.writes() {
        let number = number_of(event.address, event.written);
        offers.push(Offer {
            number,
            writer: key,
        })?;
    }
    Ok(())
}

/// All writes of the log, in the order of the witness.
fn filed(alloc: Global, start: &Candidate) -> Result<Vec<Offer>, AllocError>
    ensures { IfOk result (λ offers. (key : EventKey) → IsFiled start.now.log offers.items key) }
{
    let order = start.witness().order.as_slice();
    let mut offers = Vec::new(alloc);
    for key in order {
        file(&mut offers, start, *key)?;
    }
    Ok(offers)
}

/// How many of the writes are filed below a number.
fn count_below(offers: &[Offer], number: u64) -> usize
    requires { IsNonDecreasingBy (λ (o : Offer). o.number) offers.now }
    ensures bound { result ≤ length offers.now }
    ensures parted { IsPartitionPoint (λ o. o.number < number) (λ o. number ≤ o.number) offers.now result }
{
    offers.partition_point(
        |offer: &Offer| -> bool
            ensures { result ≡ ltb offer.now.number number }
        { offer.number < number },
    )
}

/// How many of the writes are filed up to and including a number.
fn count_through(offers: &[Offer], number: u64) -> usize
    requires { IsNonDecreasingBy (λ (o : Offer). o.number) offers.now }
    ensures bound { result ≤ length offers.now }
    ensures parted { IsPartitionPoint (λ o. o.number ≤ number) (λ o. number < o.number) offers.now result }
{
    offers.partition_point(
        |offer: &Offer| -> bool
            ensures { result ≡ leb offer.now.number number }
        { offer.number <= number },
    )
}

/// Where the writes that are filed under a number begin, and how many there are.
fn block_of(offers: &[Offer], number: u64) -> (usize, usize)
    requires { IsNonDecreasingBy (λ (o : Offer). o.number) offers.now }
    ensures start { result.0 ≤ length offers.now }
    ensures count { result.0 + result.1 ≤ length offers.now }
    ensures block { take result.1 (drop result.0 offers.now) ≡ filter (is_filed number) offers.now }
{
    let start = count_below(offers, number);
    let rest = &offers[start..];
    (start, count_through(rest, number))
}

/// The writes that are filed under a number.
fn block(offers: &[Offer], number: u64) -> &[Offer]
    requires { IsNonDecreasingBy (λ (o : Offer). o.number) offers.now }
    ensures { result.now ≡ filter (is_filed number) offers.now }
{
    let (start, count) = block_of(offers, number);
    let rest = &offers[start..];
    &rest[..count]
}

/// Whether all of some events are tear-free with the range of another.
fn are_like(start: &Candidate, event: &Event, ids: &[EventId]) -> bool
    ensures { IsTrue result → All (IsTearFreeLike (execution start.now) event.now) ids.now }
{
    for id in ids {
        if !is_like(start, event, *id) {
            return false;
        }
    }
    true
}

/// Whether each byte of a read is written only by events that are tear-free with its range.
fn is_written_whole(start: &Candidate, event: &Event) -> bool
    ensures { IsTrue result → IsWhole start.now.log event.now }
{
    let _log = start.log();
    if !event.reads() {
        return false;
    }
    for byte in 0..event.width.bytes() {
        let address = u64::from(event.address) + u64::from(byte);
        if !are_like(start, event, start.writes_to(address)) {
            return false;
        }
    }
    true
}

/// The code of a range, by which ranges are sorted.
fn code_of(range: Range) -> u64 {
    u64::from(range.address) * 16 + u64::from(range.width.bytes())
}

/// The tear-free reads of a log, by the codes of their ranges.
fn reads_by_range(alloc: Global, start: &Candidate) -> Result<Vec<Event>, AllocError> {
    let mut reads = Vec::new(alloc);
    for thread in start.log().threads() {
        for event in thread.events.as_slice() {
            if event.reads() && is_tear_free(event) {
                reads.push(*event)?;
            }
        }
    }
    reads.sort_by_key(|event: &Event| -> u64 { code_of(event.range()) })?;
    Ok(reads)
}

/// A tear-free read of each range that is written only as a whole, by the codes of the ranges.
fn whole_reads(alloc: Global, start: &Candidate) -> Result<Vec<Event>, AllocError>
    ensures { IfOk result (λ wholes. All (IsWhole start.now.log) wholes.items) }
{
    let mut wholes = Vec::new(alloc);
    let mut last = None;
    for event in reads_by_range(alloc, start)?.as_slice() {
        if last != Some(event.range()) && is_written_whole(start, event) {
            wholes.push(*event)?;
        }
        last = Some(event.range());
    }
    Ok(wholes)
}

impl Offers {
    /// The writes of the log of a candidate.
    ///
    /// # Errors
    ///
    /// Only if an allocation fails.
    pub(crate) fn of(alloc: Global, start: &Candidate) -> Result<Self, AllocError>
        ensures { IfOk result (AreOffers start.now.log) }
    {
        let mut writes = filed(alloc, start)?;
        writes.sort_by_key(
            |offer: &Offer| -> u64
                ensures { result ≡ offer.now.number }
            { offer.number },
        )?;
        let wholes = whole_reads(alloc, start)?;
        Ok(Offers { writes, wholes })
    }

    /// The writes that are filed under the number of what an event reads.
    pub(crate) fn of_read(&self, start: &Candidate, event: &Event) -> &[Offer]
        requires { AreOffers start.now.log self.now }
        ensures { result.now ≡ filter (is_filed (spec_number_of event.now.address event.now.read)) self.now.writes.items }
    {
        let _log = start.log();
        block(self.writes.as_slice(), number_of(event.address, event.read))
    }

    /// Whether each byte of an event is known to be read and written only by events that are tear-free with its range.
    pub(crate) fn is_whole(&self, start: &Candidate, event: &Event) -> bool
        requires { AreOffers start.now.log self.now }
        ensures { IsTrue result → IsWhole start.now.log event.now }
    {
        let _log = start.log();
        let code = code_of(event.range());
        let place = self
            .wholes
            .partition_point(|whole: &Event| -> bool { code_of(whole.range()) < code });
        if place >= self.wholes.len() || !event.reads() {
            return false;
        }
        self.wholes[place].range() == event.range()
    }
}
