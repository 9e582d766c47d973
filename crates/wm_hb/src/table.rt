//! How each event is reached from a first one by the fewest links of happens-before.
ghost use Rattle.std.specs.Prelude.{◌≡◌, ◌<◌, ◌+◌, ◌⊎◌, ℕ, length, IfOk, IfSome};
ghost use Rattle.wm_event.specs.declared.event.EventKey.{EventKey};
ghost use Rattle.wm_event.specs.declared.event.EventId.TheVariants.{At};
ghost use Rattle.wm_event.specs.LoggedRun.{execution};
ghost use Rattle.wm_event.specs.Rules.{KeepsOrder};
ghost use Rattle.wm_hb.specs.Table.{BoundsThroughPlace, BoundsThroughWriter, BoundsThroughWriters, FindsPrevious, IsBestOfThread, IsHop, IsHopFrom, IsRow, IsSmall, IsTable, IsWithin, StandsAt, hop_links};

use crate::chain::LinkKind;
use crate::writers::synchronizes;
use std::alloc::{AllocError, Global};
use wm_event::{Candidate, EventId, EventKey};

/// The last link of a chain with the fewest links to an event.
#[derive(Clone, Copy)]
pub(crate) struct Hop {
    /// How many links the chain has.
    pub links: usize,
    pub kind: LinkKind,
    /// The place in the order of the event that the link leaves.
    pub previous: usize,
}

/// How an event is reached from the first one.
#[derive(Clone, Copy)]
pub(crate) enum Reach {
    /// By no chain.
    Never,
    /// It is the first event.
    First,
    /// By a chain with this last link.
    By(Hop),
}

/// What is known about the event at a place.
#[derive(Clone, Copy)]
pub(crate) struct Row {
    pub reach: Reach,
    /// The best last link from an earlier event of its thread.
    pub earlier: Option<Hop>,
}

/// Of two last links to an event, the one whose chain has fewer links.
fn shorter(first: Option<Hop>, second: Option<Hop>) -> Option<Hop>
    ensures one { (result ≡ first) ⊎ (result ≡ second) }
    ensures least { (n : ℕ) → IsWithin (hop_links first) n ⊎ IsWithin (hop_links second) n → IsWithin (hop_links result) n }
{
    match (first, second) {
        (Some(one), Some(other)) => {
            if one.links <= other.links {
                first
            } else {
                second
            }
        }
        (Some(_), None) => first,
        (None, _) => second,
    }
}

/// The last link from the event at a place, if that event is reached.
fn hop_from(table: &[Row], kind: LinkKind, previous: usize) -> Option<Hop>
    requires there { previous < length table.now }
    requires small { IsSmall table.now }
    ensures hop { IsHopFrom table.now kind previous result }
    ensures kind { IfSome result (λ hop. hop.kind ≡ kind) }
    ensures least { BoundsThroughPlace table.now previous result }
{
    let row = table[previous];
    match row.reach {
        Reach::Never => None,
        Reach::First => Some(Hop {
            links: 1,
            kind,
            previous,
        }),
        Reach::By(hop) => Some(Hop {
            links: hop.links + 1,
            kind,
            previous,
        }),
    }
}

/// The place of the event before this one in its thread.
fn place_before(candidate: &Candidate, key: EventKey) -> Option<usize>
    ensures { FindsPrevious candidate.now key result }
{
    candidate.event(EventId::At(key))?;
    let number = key.number.checked_sub(1)?;
    candidate.place(EventId::At(EventKey {
        thread: key.thread,
        number,
    }))
}

/// The best last link to an event from an earlier one of its thread.
fn from_thread(candidate: &Candidate, table: &[Row], key: EventKey) -> Option<Hop>
    requires agrees { KeepsOrder (execution candidate.now) }
    requires stands { StandsAt candidate.now (length table.now) key }
    requires small { IsSmall table.now }
    ensures { (a : EventKey) → IsTable candidate.now a table.now → IsBestOfThread candidate.now table.now a key result }
{
    let previous = place_before(candidate, key)?;
    let _order = candidate.witness();
    shorter(
        table[previous].earlier,
        hop_from(table, LinkKind::Sequenced, previous),
    )
}

/// The last link from the writer of a byte of a read, if it synchronizes with the read.
fn from_writer(
    candidate: &Candidate,
    table: &[Row],
    writer: EventId,
    reader: EventKey,
) -> Option<Hop>
    requires agrees { KeepsOrder (execution candidate.now) }
    requires stands { StandsAt candidate.now (length table.now) reader }
    requires small { IsSmall table.now }
    ensures hop { IfSome result (λ hop. IsHop candidate.now table.now reader hop) }
    ensures least { BoundsThroughWriter candidate.now table.now writer reader result }
{
    let EventId::At(key) = writer else {
        return None;
    };
    if !synchronizes(candidate, key, reader) {
        return None;
    }
    let _order = candidate.witness();
    let place = candidate.place(writer)?;
    hop_from(table, LinkKind::Synchronizes, place)
}

/// The best last link to an event.
fn best(candidate: &Candidate, table: &[Row], key: EventKey, earlier: Option<Hop>) -> Option<Hop>
    requires agrees { KeepsOrder (execution candidate.now) }
    requires stands { StandsAt candidate.now (length table.now) key }
    requires small { IsSmall table.now }
    requires earlier { IfSome earlier (λ hop. IsHop candidate.now table.now key hop) }
    ensures hop { IfSome result (λ hop. IsHop candidate.now table.now key hop) }
    ensures thread { (n : ℕ) → IsWithin (hop_links earlier) n → IsWithin (hop_links result) n }
    ensures writers { BoundsThroughWriters candidate.now table.now key result }
{
    let mut best = earlier;
    for writer in candidate.writers(key) {
        best = shorter(best, from_writer(candidate, table, *writer, key));
    }
    best
}

/// How the event after the last one of the table is reached.
fn row_of(candidate: &Candidate, table: &[Row], from: EventKey, key: EventKey) -> Row
    requires agrees { KeepsOrder (execution candidate.now) }
    requires stands { StandsAt candidate.now (length table.now) key }
    requires small { IsSmall table.now }
    requires table { IsTable candidate.now from table.now }
    ensures { IsRow candidate.now table.now from key result }
{
    let earlier = from_thread(candidate, table, key);
    if key == from {
        return Row {
            reach: Reach::First,
            earlier,
        };
    }
    let reach = match best(candidate, table, key, earlier) {
        Some(hop) => Reach::By(hop),
        None => Reach::Never,
    };
    Row { reach, earlier }
}

/// How each event is reached from `from`, by its place in the order.
pub(crate) fn table(
    alloc: Global,
    candidate: &Candidate,
    from: EventKey,
) -> Result<Vec<Row>, AllocError>
    requires { KeepsOrder (execution candidate.now) }
    ensures table { IfOk result (λ t. IsTable candidate.now from t.items) }
    ensures all { IfOk result (λ t. length t.items ≡ length candidate.now.witness.order) }
{
    let order = candidate.witness().order.as_slice();
    let mut rows = Vec::with_capacity(alloc, order.len())?;
    for key in order {
        let row = row_of(candidate, rows.as_slice(), from, *key);
        rows.push(row)?;
    }
    Ok(rows)
}
